//! What is refused of an instruction's result, and of its place in a block.
ghost use Rattle.std.specs.Prelude.{◌≡◌};
ghost use Rattle.ir_core.specs.Typing.{in_result};
ghost use Rattle.ir_core.specs.NameRefusals.{in_order, is_phi};
ghost use Rattle.name_tables.specs.Least.{least_of};

use ir_core::{Construct, Kind, Name};
use name_tables::{expects, is_register_type, result_scalar};

/// What is refused of an instruction's result: it has a scalar type.
#[tactic(auto, using(crate::proofs::KeptLaws::least_result))]
pub fn in_result(kind: &Kind, name: &Option<Name>) -> Option<Construct>
    ensures { result ≡ least_of (in_result kind.now name.now) }
{
    match name {
        None => None,
        Some(_) => expects(is_register_type(result_scalar(kind))),
    }
}

/// Whether an instruction is a phi.
pub fn is_phi(kind: &Kind) -> bool
    ensures { result ≡ is_phi kind.now }
{
    match kind {
        Kind::Phi { .. } => true,
        _ => false,
    }
}

/// What is refused of an instruction's place, where only phis stand before it or not.
pub fn in_order(only_phis: bool, kind: &Kind) -> Option<Construct>
    ensures { result ≡ least_of (in_order only_phis kind.now) }
{
    match kind {
        Kind::Phi { .. } => expects(only_phis),
        _ => None,
    }
}
