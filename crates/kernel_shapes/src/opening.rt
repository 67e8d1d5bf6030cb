//! The first block of a kernel.
ghost use Rattle.std.specs.Prelude.{◌≡◌, ◌<◌, ℕ, List as Listed, length, option_map, IfOk, IfSome};
ghost use Rattle.std.specs.List.{flat_map};
ghost use Rattle.std.specs.Option.{option_copied};
ghost use Rattle.ir_core.specs.declared.instructions.Inst.{Inst as InstData};
ghost use Rattle.ir_core.specs.NameRefusals.{least};
ghost use Rattle.shapes.specs.KernelShape as spec;
ghost use Rattle.kernel_shapes.specs.Own.{HasOwnPointers};
ghost use Rattle.kernel_shapes.specs.Seen.{opened, ways_seen};
ghost use Rattle.shapes.specs.Facts.{first_insts};

use crate::branch::{Ways, branch_ways, of_behind};
use crate::own::{is_register_in, own_pointers};
use ir_core::{Block, Construct, Inst, Kind, OutOfMemory, Refusal, Rtl};
use ir_tables::NameTable;
use name_tables::earlier;
use shape_facts::{has_constant, is_call_of, rule};
use std::alloc::Global;

/// The place of the init call among these.
fn init_place(insts: &[Inst]) -> Option<usize>
    ensures opened { opened insts.now result ≡ spec.opening insts.now }
    ensures within { IfSome result (λ place. place < length insts.now) }
{
    insts
        .iter()
        .position(|inst| is_call_of(Rtl::TargetInit, inst))
}

/// Whether it may stand before the init call in a block with these registers that point into its stack.
fn may_open(own: &NameTable, kind: &Kind) -> bool
    ensures { (insts : Listed InstData) → HasOwnPointers insts own.now → result ≡ spec.may_open insts kind.now }
{
    match kind {
        Kind::Bin { .. }
        | Kind::ICmp { .. }
        | Kind::Cast { .. }
        | Kind::Select { .. }
        | Kind::Alloca { .. }
        | Kind::Gep { .. } => true,
        Kind::Load { at, .. } => is_register_in(own, &at.value),
        Kind::Store { at, .. } => is_register_in(own, &at.value),
        _ => false,
    }
}

/// What is told of these instructions, which stand before the init call in a block with all of them.
fn of_before(alloc: Global, insts: &[Inst], before: &[Inst]) -> Result<Option<Refusal>, OutOfMemory>
    ensures { IfOk result (λ r. r ≡ least (flat_map (spec.of_opener insts.now) before.now)) }
{
    let pointers = own_pointers(alloc, insts)?;
    let mut found = None;
    for inst in before {
        let holds = may_open(&pointers, &inst.kind);
        let own = rule(Construct::KernelShape, holds, inst.line);
        found = earlier(found, own);
    }
    Ok(found)
}

fn is_generic_init(init: &Inst) -> bool
    ensures { result ≡ spec.is_generic_init init.now }
{
    has_constant(init, 1, 1) && has_constant(init, 2, 1)
}

/// What is told of the first block of a kernel on this line.
pub fn of_opening(alloc: Global, line: u32, insts: &[Inst]) -> Result<Option<Refusal>, OutOfMemory>
    ensures { IfOk result (λ r. r ≡ least (spec.of_opening line insts.now (spec.opening insts.now))) }
{
    let Some(place) = init_place(insts) else {
        return Ok(rule(Construct::KernelShape, false, line));
    };
    let init = &insts[place];
    let before = of_before(alloc, insts, &insts[..place])?;
    let own = rule(Construct::KernelShape, is_generic_init(init), init.line);
    let behind = of_behind(line, init.result.as_ref(), &insts[place + 1..]);
    let rest = earlier(own, behind);
    Ok(earlier(before, rest))
}

/// Where the comparison and the branch at the front of these go.
fn ways_behind(behind: &[Inst]) -> Option<Ways<'_>>
    ensures { option_map ways_seen result ≡ spec.ways_behind behind.now }
{
    match behind {
        [test, branch, ..] => branch_ways(test, branch),
        _ => None,
    }
}

/// Where the first block of a kernel goes, where it has its shape.
pub fn ways_of(insts: &[Inst]) -> Option<Ways<'_>>
    ensures { option_map ways_seen result ≡ spec.ways_of (spec.opening insts.now) }
{
    match init_place(insts) {
        None => None,
        Some(place) => ways_behind(&insts[place + 1..]),
    }
}

/// The instructions of the first of these blocks; none where there is no block.
pub fn first_insts(blocks: &[Block]) -> &[Inst]
    ensures { result.now ≡ first_insts blocks.now }
{
    match blocks {
        [] => &[],
        [first, ..] => first.insts.as_slice(),
    }
}
