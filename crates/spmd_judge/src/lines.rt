//! Lines, and the number of blocks and instructions.
ghost use Rattle.std.specs.Prelude.{◌≡◌, ◌<◌, ℕ, Some, option_copied, slice_get};
ghost use Rattle.ir_core.specs.declared.instructions.Inst.{Inst as InstData};
ghost use Rattle.ir_core.specs.Places.{block_in, inst_at};
ghost use Rattle.spmd_judge.specs.Lines.{IsLesser};
ghost use Rattle.spmd_judge.specs.Judging.{place_of};

use ir_core::{Block, Module};

/// The lesser of two lines, where there are two.
pub(crate) fn lesser(a: Option<u32>, b: Option<u32>) -> Option<u32>
    ensures { IsLesser a b result }
{
    match (a, b) {
        (None, b) => b,
        (Some(x), None) => Some(x),
        (Some(x), Some(y)) => { if x <= y { Some(x) } else { Some(y) } }
    }
}

/// The block at a place: of its function and of itself, each from 0.
fn block_at(m: &Module, function: usize, block: usize) -> Option<&Block>
    ensures { option_copied result ≡ block_in (slice_get m.now.functions function) block }
{
    let f = m.functions.get(function)?;
    f.blocks.get(block)
}

/// How many blocks the function at a place has.
pub(crate) fn block_count(m: &Module, function: usize) -> usize
    ensures { (block index : ℕ) (i : InstData) → inst_at m.now (place_of function block index) ≡ Some i → block < result }
{
    match m.functions.get(function) {
        Some(f) => f.blocks.len(),
        None => 0,
    }
}

/// How many instructions the block at a place has.
pub(crate) fn inst_count(m: &Module, function: usize, block: usize) -> usize
    ensures { (index : ℕ) (i : InstData) → inst_at m.now (place_of function block index) ≡ Some i → index < result }
{
    match block_at(m, function, block) {
        Some(b) => b.insts.len(),
        None => 0,
    }
}
