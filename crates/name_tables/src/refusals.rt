//! Of all refusals of a module the one of the least line is told, and on one line the one of the least number.
ghost use Rattle.std.specs.Prelude.{◌≡◌};
ghost use Rattle.ir_core.specs.NameRefusals.{is_before};
ghost use Rattle.name_tables.specs.Least.{or_first, at_line};

use crate::least::number;
use ir_core::{Construct, Refusal};

/// Whether the first of two refusals is told before the second.
pub fn is_before(a: Refusal, b: Refusal) -> bool
    ensures { result ≡ is_before a b }
{
    if a.line < b.line {
        true
    } else {
        a.line == b.line && number(a.construct) < number(b.construct)
    }
}

/// The one that is told, where there are two.
pub fn earlier(a: Option<Refusal>, b: Option<Refusal>) -> Option<Refusal>
    ensures { result ≡ or_first a b }
{
    match (a, b) {
        (None, b) => b,
        (Some(a), None) => Some(a),
        (Some(a), Some(b)) => { if is_before(b, a) { Some(b) } else { Some(a) } }
    }
}

/// What is refused at a line.
pub fn refused_at(line: u32, construct: Option<Construct>) -> Option<Refusal>
    ensures { result ≡ at_line line construct }
{
    match construct {
        None => None,
        Some(construct) => Some(Refusal { construct, line }),
    }
}
