//! Checks of the definitions: short texts, and what they spell.
ghost use Rattle.run_text.specs.Rows.{ReadsPairs, RefusesThread, RefusesForm, PrintsReport};

/// Two lines are two pairs; a thread that isn't there is refused, and so is a line of another form before it.
pub fn schedule_rows()
    ensures pairs { ReadsPairs }
    ensures thread { RefusesThread }
    ensures form { RefusesForm }
{}

/// The report of a run whose kernel stores 7.
pub fn report_row()
    ensures { PrintsReport }
{}
