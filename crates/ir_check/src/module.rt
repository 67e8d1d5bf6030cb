//! The check of a whole module.
ghost use Rattle.std.specs.Prelude.{◌≡◌, [], IfOk, IfErr};
ghost use Rattle.ir_core.specs.Formed.{Formed};
ghost use Rattle.ir_core.specs.NameRefusals.{name_refusals, least};
ghost use Rattle.checked_modules.specs.Checked.{HasNoRefusal};
ghost use Rattle.ir_check.specs.Refusal.{IsCheckRefusal};

use checked_modules::Checked;
use ir_core::{Module, Or, OutOfMemory, Refusal};
use ir_shapes::of_shapes;
use ir_tables::Indexed;
use item_names::of_module;
use name_tables::Tables;
use std::alloc::Global;

/// What is refused of names and types: of all refusals the one of the least line, and on one line of the least number.
fn names_refused(alloc: Global, m: &Indexed) -> Result<Option<Refusal>, OutOfMemory>
    ensures { IfOk result (λ r. r ≡ least (name_refusals m.now)) }
{
    let tables = Tables::of(m);
    of_module(alloc, &tables)
}

/// The module, where nothing is refused of its shapes.
fn with_shapes(alloc: Global, m: Indexed) -> Result<Checked, Or<Refusal>>
    requires formed { Formed m }
    requires names { name_refusals m ≡ [] }
    ensures same { IfOk result (λ c. c ≡ m) }
    ensures passed { IfOk result (λ c. HasNoRefusal m) }
    ensures refused { IfErr result (λ e. IsCheckRefusal m e) }
{
    match of_shapes(alloc, &m)? {
        Some(shape) => Err(Or::Refused(shape)),
        None => Ok(Checked::with_tables(m)),
    }
}

/// The module, known to have no refusal, with tables of its names.
///
/// # Errors
///
/// The least refusal of its names and types, by line and then by number; where there is none, the least of its shapes. The module is
/// then given up.
pub fn check(alloc: Global, m: Module) -> Result<Checked, Or<Refusal>>
    requires { Formed m }
    ensures same { IfOk result (λ c. c ≡ m) }
    ensures passed { IfOk result (λ c. HasNoRefusal m) }
    ensures refused { IfErr result (λ e. IsCheckRefusal m e) }
{
    let m = Indexed::of(alloc, m)?;
    match names_refused(alloc, &m)? {
        Some(refusal) => Err(Or::Refused(refusal)),
        None => with_shapes(alloc, m),
    }
}
