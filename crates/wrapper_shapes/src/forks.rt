//! What is refused of the forks that name wrappers.
ghost use Rattle.std.specs.Prelude.{◌≡◌, map, option_and_then, slice_get};
ghost use Rattle.std.specs.List.{flat_map};
ghost use Rattle.std.specs.Option.{option_copied};
ghost use Rattle.ir_core.specs.NameRefusals.{least};
ghost use Rattle.ir_core.specs.Wrappers.{region_function};
ghost use Rattle.shapes.specs.Facts.{operand_of as operand};
ghost use Rattle.shapes.specs.Insts.{insts_seen};
ghost use Rattle.shapes.specs.Wrappers as spec;
ghost use Rattle.wrapper_shapes.specs.Forms.{names_both};
ghost use Rattle.wrapper_shapes.specs.Seen.{regions_seen};

use crate::walks::{captures_of, is_function};
use ir_core::{Construct, Function, Inst, Refusal, Rtl, Value};
use ir_tables::Indexed;
use name_tables::earlier;
use shape_facts::{has_constant, is_call_of, operand_of, rule};

/// Whether a fork's region function is this one.
fn names_region(region: Option<&Function>, fork: &Inst) -> bool
    ensures { result ≡ spec.names_function (option_copied region.entry) (operand fork.now 5) }
{
    match region {
        None => false,
        Some(region) => match operand_of(fork, 5) {
            None => false,
            Some(operand) => is_function(region.name.as_slice(), &operand.value),
        },
    }
}

/// Whether a fork names the region function of a defined wrapper, and as many words as this one captures.
fn names_both(f: &Function, region: Option<&Function>, fork: &Inst) -> bool
    ensures { result ≡ names_both f.now (option_copied region.entry) fork.now }
{
    !f.blocks.as_slice().is_empty()
        && names_region(region, fork)
        && has_constant(fork, 8, captures_of(region))
}

/// The place of a fork's wrapper among the functions of the module.
fn wrapper_place(m: &Indexed, fork: &Inst) -> Option<usize>
    ensures { option_and_then (slice_get m.now.functions) result ≡ spec.wrapper_given m.now (operand fork.now 6) }
{
    match operand_of(fork, 6) {
        None => None,
        Some(operand) => match &operand.value {
            Value::Global(name) => m.function(name),
            _ => None,
        },
    }
}

fn region_at<'a>(m: &Indexed, regions: &[Option<&'a Function>], at: usize) -> Option<&'a Function>
    requires { regions_seen regions.now ≡ map (region_function m.now) m.now.functions }
    ensures { option_copied result ≡ option_and_then (region_function m.now) (slice_get m.now.functions at) }
{
    match regions.get(at) {
        None => None,
        Some(region) => *region,
    }
}

/// Whether a fork's wrapper is one of its region function.
fn has_wrapper(m: &Indexed, regions: &[Option<&Function>], fork: &Inst) -> bool
    requires { regions_seen regions.now ≡ map (region_function m.now) m.now.functions }
    ensures { result ≡ spec.forks_by m.now (spec.wrapper_given m.now (operand fork.now 6)) fork.now }
{
    match wrapper_place(m, fork) {
        None => false,
        Some(at) => match m.module().functions.get(at) {
            None => false,
            Some(f) => names_both(f, region_at(m, regions, at), fork),
        },
    }
}

/// What is told of an instruction, if it is a fork.
fn of_fork(m: &Indexed, regions: &[Option<&Function>], inst: &Inst) -> Option<Refusal>
    requires { regions_seen regions.now ≡ map (region_function m.now) m.now.functions }
    ensures { result ≡ least (spec.of_fork m.now inst.now) }
{
    let holds = if is_call_of(Rtl::Parallel, inst) {
        has_wrapper(m, regions, inst)
    } else {
        true
    };
    rule(Construct::WrapperShape, holds, inst.line)
}

/// What is told of the forks among these instructions, in a module with these region functions.
pub fn of_forks(m: &Indexed, regions: &[Option<&Function>], insts: &[&Inst]) -> Option<Refusal>
    requires { regions_seen regions.now ≡ map (region_function m.now) m.now.functions }
    ensures { result ≡ least (flat_map (spec.of_fork m.now) (insts_seen insts.now)) }
{
    let mut found = None;
    for inst in insts {
        found = earlier(found, of_fork(m, regions, inst));
    }
    found
}
