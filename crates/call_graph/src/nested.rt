//! Nested regions: forks in functions on the region side.
ghost use Rattle.std.specs.Prelude.{◌≡◌, length, IfOk};
ghost use Rattle.std.specs.List.{flat_map};
ghost use Rattle.ir_core.specs.NameRefusals.{least};
ghost use Rattle.name_uses.specs.Tables.{AreUses};
ghost use Rattle.shapes.specs.CallPaths.{IsNested, IsOnRegionSide};
ghost use Rattle.shapes.specs.Insts.{insts_seen};
ghost use Rattle.shapes.specs.Refusals.{IsAnswer};
ghost use Rattle.call_graph.specs.Graphs.{AreMarksOf};
ghost use Rattle.call_graph.specs.Nested.{nested_fork};

use crate::graphs::calls;
use crate::sides::region_side;
use ir_core::{Construct, Inst, OutOfMemory, Refusal, Rtl};
use ir_tables::Indexed;
use name_tables::earlier;
use name_uses::Uses;
use shape_facts::{insts_of, is_call_of, rule};
use std::alloc::Global;

/// What is told of forks among these instructions, which stand in a function on the region side.
fn nested_forks(insts: &[&Inst]) -> Option<Refusal>
    ensures { result ≡ least (flat_map nested_fork (insts_seen insts.now)) }
{
    let mut found = None;
    for inst in insts {
        let holds = !is_call_of(Rtl::Parallel, inst);
        found = earlier(found, rule(Construct::NestedParallel, holds, inst.line));
    }
    found
}

/// What is told of the forks in the functions on the region side.
fn forks_inside(alloc: Global, m: &Indexed, region: &[bool]) -> Result<Option<Refusal>, OutOfMemory>
    requires { AreMarksOf (IsOnRegionSide m.now) (length m.now.functions) region.now }
    ensures { IfOk result (IsAnswer (IsNested m.now)) }
{
    let mut found = None;
    for (at, f) in m.module().functions.as_slice().iter().enumerate() {
        if region[at] {
            let insts = insts_of(alloc, f)?;
            found = earlier(found, nested_forks(insts.as_slice()));
        }
    }
    Ok(found)
}

/// What is told of nested regions: the least refusal of a fork on the region side, if there is one.
/// `OutOfMemory` only where no memory was left.
pub fn of_nested(alloc: Global, m: &Indexed, uses: &Uses) -> Result<Option<Refusal>, OutOfMemory>
    requires { AreUses m.now uses.now }
    ensures { IfOk result (IsAnswer (IsNested m.now)) }
{
    let calls = calls(alloc, m, uses)?;
    let region = region_side(alloc, m, &calls)?;
    forks_inside(alloc, m, region.as_slice())
}
