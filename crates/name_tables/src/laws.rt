//! Laws of which refusal is told, each a check of its definition.
ghost use Rattle.name_tables.specs.Laws.{LeastInAnyOrder};

/// The refusal that is told doesn't depend on the order in which they are found.
pub fn least_in_any_order()
    ensures { LeastInAnyOrder }
{}
