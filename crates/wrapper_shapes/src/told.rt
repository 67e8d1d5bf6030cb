//! What is told of a module's wrappers and forks, and the forms of a wrapper's captures.
ghost use Rattle.std.specs.Prelude.{◌≡◌, option_map, IfOk};
ghost use Rattle.ir_core.specs.NameRefusals.{least};
ghost use Rattle.name_uses.specs.Tables.{AreUses};
ghost use Rattle.shapes.specs.Facts.{insts_in};
ghost use Rattle.shapes.specs.Insts.{insts_seen};
ghost use Rattle.shapes.specs.Walk.{capture_forms as forms_given};
ghost use Rattle.shapes.specs.Wrappers.{wrapper_refusals};
ghost use Rattle.wrapper_shapes.specs.Seen.{forms_seen};

use crate::forks::of_forks;
use crate::paths::forms_passed;
use crate::regions::{region_function, region_functions};
use crate::slots::Form;
use crate::wrappers::of_functions;
use ir_core::{Function, Inst, List, OutOfMemory, Refusal};
use ir_tables::Indexed;
use name_tables::earlier;
use name_uses::Uses;
use shape_facts::insts_of;
use std::alloc::Global;

/// What is told of a module's wrappers and forks: the first refusal of a wrapper without its form or whose walk fails,
/// or of a fork whose wrapper isn't one of its region function. `OutOfMemory` only where no memory was left.
pub fn of_wrappers(
    alloc: Global,
    m: &Indexed,
    uses: &Uses,
    insts: &[&Inst],
) -> Result<Option<Refusal>, OutOfMemory>
    requires uses { AreUses m.now uses.now }
    requires insts { insts_seen insts.now ≡ insts_in m.now }
    ensures { IfOk result (λ r. r ≡ least (wrapper_refusals m.now)) }
{
    let wrappers = of_functions(alloc, m, uses, m.module().functions.as_slice())?;
    let regions = region_functions(alloc, m)?;
    Ok(earlier(wrappers, of_forks(m, regions.as_slice(), insts)))
}

/// The forms in which a wrapper passes its captures on, in order; none where its walk fails, or it passes none.
/// `OutOfMemory` only where no memory was left.
pub fn capture_forms(
    alloc: Global,
    m: &Indexed,
    f: &Function,
) -> Result<Option<List<Form>>, OutOfMemory>
    ensures { IfOk result (λ forms. option_map forms_seen forms ≡ forms_given m.now f.now) }
{
    let insts = insts_of(alloc, f)?;
    forms_passed(
        alloc,
        region_function(m, f),
        f.params.as_slice(),
        insts.as_slice(),
    )
}
