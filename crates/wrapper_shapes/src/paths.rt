//! The walk over the whole of a wrapper.
ghost use Rattle.std.specs.Prelude.{◌≡◌, option_map, option_and_then, IfOk};
ghost use Rattle.std.specs.Option.{option_copied};
ghost use Rattle.ir_core.specs.NameRefusals.{least};
ghost use Rattle.shapes.specs.Insts.{insts_seen};
ghost use Rattle.shapes.specs.Walk as spec;
ghost use Rattle.wrapper_shapes.specs.Seen.{forms_seen, step_for};

use crate::slots::Form;
use crate::walks::Walk;
use ir_core::{Construct, Function, Inst, List, OutOfMemory, Param, Refusal};
use shape_facts::rule;
use std::alloc::Global;

/// What is told of the first of a wrapper's instructions at which the walk fails.
pub fn of_walk(
    alloc: Global,
    region: Option<&Function>,
    params: &[Param],
    insts: &[&Inst],
) -> Result<Option<Refusal>, OutOfMemory>
    ensures { IfOk result (λ r. r ≡ least (spec.failing (step_for (option_copied region.entry)) (insts_seen insts.now) (spec.first_walk params.now))) }
{
    let mut walk = Walk::first(alloc, params)?;
    for inst in insts {
        if !walk.step(alloc, region, *inst)? {
            return Ok(rule(Construct::WrapperShape, false, inst.line));
        }
    }
    Ok(None)
}

/// The forms in which a wrapper with these instructions passes the captured words on; none where its walk fails, or it
/// passes none.
pub fn forms_passed(
    alloc: Global,
    region: Option<&Function>,
    params: &[Param],
    insts: &[&Inst],
) -> Result<Option<List<Form>>, OutOfMemory>
    ensures { IfOk result (λ forms. option_map forms_seen forms ≡ option_and_then (λ w. w.passed) (spec.walked (step_for (option_copied region.entry)) (insts_seen insts.now) (spec.first_walk params.now))) }
{
    let mut walk = Walk::first(alloc, params)?;
    for inst in insts {
        if !walk.step(alloc, region, *inst)? {
            return Ok(None);
        }
    }
    Ok(walk.into_passed())
}
