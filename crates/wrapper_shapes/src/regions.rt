//! The region functions of wrappers.
ghost use Rattle.std.specs.Prelude.{◌≡◌, map, IfOk};
ghost use Rattle.std.specs.List.{flat_map};
ghost use Rattle.std.specs.Option.{option_copied};
ghost use Rattle.ir_core.specs.Wrappers.{callees, inst_callees, defined, first_of, region_function};
ghost use Rattle.shapes.specs.Facts.{function_given};
ghost use Rattle.wrapper_shapes.specs.Seen.{regions_seen};

use ir_core::{Function, Inst, Kind, List, Name, OutOfMemory, Value};
use ir_tables::Indexed;
use std::alloc::Global;

/// The first function of a name.
fn function_given<'a>(m: &'a Indexed, name: &Name) -> Option<&'a Function>
    ensures { option_copied result ≡ function_given m.now name.now }
{
    match m.function(name) {
        None => None,
        Some(at) => m.module().functions.get(at),
    }
}

/// The function of a name, if it is defined.
fn defined_as<'a>(m: &'a Indexed, name: &Name) -> Option<&'a Function>
    ensures { option_copied result ≡ first_of (defined m.now.functions name.now) }
{
    match function_given(m, name) {
        None => None,
        Some(f) => {
            if f.blocks.as_slice().is_empty() {
                None
            } else {
                Some(f)
            }
        }
    }
}

/// The function that an instruction calls, if it is defined.
fn called_by<'a>(m: &'a Indexed, inst: &Inst) -> Option<&'a Function>
    ensures { option_copied result ≡ first_of (flat_map (defined m.now.functions) (inst_callees inst.now)) }
{
    match &inst.kind {
        Kind::Call {
            callee: Value::Global(name),
            ..
        } => defined_as(m, name),
        _ => None,
    }
}

/// The first defined function that these instructions call.
fn called_in<'a>(m: &'a Indexed, insts: &[Inst]) -> Option<&'a Function>
    ensures { option_copied result ≡ first_of (flat_map (defined m.now.functions) (flat_map inst_callees insts.now)) }
{
    for inst in insts {
        let called = called_by(m, inst);
        if called.is_some() {
            return called;
        }
    }
    None
}

/// The first defined function that a function calls.
pub fn region_function<'a>(m: &'a Indexed, f: &Function) -> Option<&'a Function>
    ensures { option_copied result ≡ region_function m.now f.now }
{
    for block in f.blocks.as_slice() {
        let called = called_in(m, block.insts.as_slice());
        if called.is_some() {
            return called;
        }
    }
    None
}

/// The region function of each function of the module, at its place.
pub fn region_functions<'a>(
    alloc: Global,
    m: &'a Indexed,
) -> Result<List<Option<&'a Function>>, OutOfMemory>
    ensures { IfOk result (λ regions. regions_seen regions ≡ map (region_function m.now) m.now.functions) }
{
    let mut regions = List::new(alloc);
    for f in m.module().functions.as_slice() {
        regions.push(region_function(m, f))?;
    }
    Ok(regions)
}
