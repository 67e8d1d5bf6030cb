//! Rules that are refused at one line.
ghost use Rattle.std.specs.Prelude.{◌≡◌};
ghost use Rattle.ir_core.specs.NameRefusals.{least};
ghost use Rattle.shapes.specs.Facts.{rule};

use ir_core::{Construct, Refusal};

/// The refusal of a rule at a line, where it doesn't hold.
pub fn rule(construct: Construct, holds: bool, line: u32) -> Option<Refusal>
    ensures { result ≡ least (rule construct holds line) }
{
    if holds {
        None
    } else {
        Some(Refusal { construct, line })
    }
}
