//! Places of names in the lists themselves: no memory is taken, and a look-up takes as long as the list is.
ghost use Rattle.std.specs.Prelude.{◌≡◌, ◌+◌, ◌<◌, ◌^◌, length, map, Some};
ghost use Rattle.std.specs.List.{flat_map};
ghost use Rattle.ir_core.specs.Places.{place_from, place_in, inst_results, block_results, register_names_of};

use crate::names::HasName;
use ir_core::{Block, Function, Inst, Name};

/// The place of the first item of a name.
pub(crate) fn place_of<T: HasName>(items: &[T], name: &Name) -> Option<usize>
    ensures { result ≡ place_in (map T.name_of items.now) name.now }
{
    for (at, item) in items.iter().enumerate() {
        if item.name().as_slice() == name.as_slice() {
            return Some(at);
        }
    }
    None
}

/// The place of a name among the results.
fn result_place(insts: &[Inst], name: &Name) -> Option<usize>
    ensures { result ≡ place_in (flat_map inst_results insts.now) name.now }
{
    let mut at: usize = 0;
    for inst in insts {
        if let Some(result) = &inst.result {
            if result.as_slice() == name.as_slice() {
                return Some(at);
            }
            at += 1;
        }
    }
    None
}

fn result_count(insts: &[Inst]) -> usize
    ensures { result ≡ length (flat_map inst_results insts.now) }
{
    let mut count: usize = 0;
    for inst in insts {
        if inst.result.is_some() {
            count += 1;
        }
    }
    count
}

/// The place of a name among the results of blocks, counted from a number.
fn place_behind(blocks: &[Block], before: usize, name: &Name) -> Option<usize>
    requires { before + length (flat_map block_results blocks.now) < 2 ^ 64 }
    ensures { result ≡ place_from before (flat_map block_results blocks.now) name.now }
{
    let mut from = before;
    for block in blocks {
        if let Some(at) = result_place(block.insts.as_slice(), name) {
            return Some(from + at);
        }
        from += result_count(block.insts.as_slice());
    }
    None
}

/// The place of a register among a function's parameters and results.
pub(crate) fn register_place(f: &Function, name: &Name) -> Option<usize>
    requires { length (register_names_of (Some f.now)) < 2 ^ 64 }
    ensures { result ≡ place_in (register_names_of (Some f.now)) name.now }
{
    match place_of(f.params.as_slice(), name) {
        None => place_behind(f.blocks.as_slice(), f.params.len(), name),
        found => found,
    }
}

/// How many parameters and results a function has.
pub(crate) fn register_count(f: &Function) -> usize
    requires { length (register_names_of (Some f.now)) < 2 ^ 64 }
    ensures { result ≡ length (register_names_of (Some f.now)) }
{
    let mut count = f.params.len();
    for block in f.blocks.as_slice() {
        count += result_count(block.insts.as_slice());
    }
    count
}
