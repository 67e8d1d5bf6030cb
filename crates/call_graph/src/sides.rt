//! The sides: the functions that call paths lead to from kernels, and from the region functions that are forked there.
ghost use Rattle.std.specs.Prelude.{◌≡◌, ◌<◌, ◌++◌, length, IfOk, OnOk};
ghost use Rattle.std.specs.List.{flat_map, All};
ghost use Rattle.shapes.specs.CallPaths.{Calls, IsKernelAt, IsOnMainSide, IsOnRegionSide};
ghost use Rattle.shapes.specs.Insts.{insts_seen};
ghost use Rattle.call_graph.specs.Graphs.{IsGraphOf, AreMarksOf, ArePlacesOf};
ghost use Rattle.call_graph.specs.Nested.{IsRegionAt};
ghost use Rattle.call_graph.specs.Targets.{as_list, forked};

use ir_core::{Inst, List, OutOfMemory, Rtl, Value};
use ir_tables::Indexed;
use reach::Graph;
use shape_facts::{insts_of, is_call_of, is_kernel, operand_of};
use std::alloc::Global;

/// The places of the kernels.
fn kernels(alloc: Global, m: &Indexed) -> Result<List<usize>, OutOfMemory>
    ensures { IfOk result (ArePlacesOf (IsKernelAt m.now)) }
{
    let mut places = List::new(alloc);
    for (at, f) in m.module().functions.as_slice().iter().enumerate() {
        if is_kernel(f) {
            places.push(at)?;
        }
    }
    Ok(places)
}

/// For each function whether a call path leads to it from a kernel. `OutOfMemory` only where no memory was left.
pub fn main_side(alloc: Global, m: &Indexed, calls: &Graph) -> Result<Vec<bool>, OutOfMemory>
    requires { IsGraphOf (Calls m.now) (length m.now.functions) calls.now }
    ensures { IfOk result (λ marks. AreMarksOf (IsOnMainSide m.now) (length m.now.functions) marks.items) }
{
    let roots = kernels(alloc, m)?;
    calls.reached(alloc, roots.as_slice())
}

/// The place of the region function that an instruction forks.
pub fn forked(m: &Indexed, inst: &Inst) -> Option<usize>
    ensures { as_list result ≡ forked m.now inst.now }
{
    if !is_call_of(Rtl::Parallel, inst) {
        return None;
    }
    match &operand_of(inst, 5)?.value {
        Value::Global(name) => m.function(name),
        _ => None,
    }
}

/// Adds the region functions that are forked by these instructions.
fn add_forked(places: &mut List<usize>, m: &Indexed, insts: &[&Inst]) -> Result<(), OutOfMemory>
    ensures { OnOk result (places.new ≡ places.old ++ flat_map (forked m.now) (insts_seen insts.now)) }
{
    for inst in insts {
        if let Some(at) = forked(m, inst) {
            places.push(at)?;
        }
    }
    Ok(())
}

/// The region functions whose forks stand on a main side.
fn regions(alloc: Global, m: &Indexed, main: &[bool]) -> Result<List<usize>, OutOfMemory>
    requires { AreMarksOf (IsOnMainSide m.now) (length m.now.functions) main.now }
    ensures { IfOk result (ArePlacesOf (IsRegionAt m.now)) }
{
    let mut places = List::new(alloc);
    for (at, f) in m.module().functions.as_slice().iter().enumerate() {
        if main[at] {
            let insts = insts_of(alloc, f)?;
            add_forked(&mut places, m, insts.as_slice())?;
        }
    }
    Ok(places)
}

/// For each function whether a call path leads to it from a region function whose fork stands on a main side.
/// `OutOfMemory` only where no memory was left.
pub fn region_side(alloc: Global, m: &Indexed, calls: &Graph) -> Result<Vec<bool>, OutOfMemory>
    requires { IsGraphOf (Calls m.now) (length m.now.functions) calls.now }
    ensures { IfOk result (λ marks. AreMarksOf (IsOnRegionSide m.now) (length m.now.functions) marks.items) }
{
    let main = main_side(alloc, m, calls)?;
    let roots = regions(alloc, m, main.as_slice())?;
    calls.reached(alloc, roots.as_slice())
}
