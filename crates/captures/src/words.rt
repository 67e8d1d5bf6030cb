//! The captured words, read from the thread's own stack.
ghost use Rattle.std.specs.Prelude.{◌≡◌, ◌*◌, ◌<◌, ◌≤◌, ◌^◌, pos, ◌+ℤ◌, length, IfOk};
ghost use Rattle.ir_core.specs.declared.module.Module.{Module};
ghost use Rattle.mem_model.specs.declared.memory.Cell.{Cell as SpecCell};
ghost use Rattle.mem_model.specs.Thread.{where_is, find_in, load_own};
ghost use Rattle.mem_model.specs.Regions as spec;
ghost use Rattle.thread_state.specs.Seen.{thread_seen, IsThread};
ghost use Rattle.captures.specs.Captured.{IsShared};
ghost use Rattle.captures.specs.Words.{where_seen, word_at, AreShort};

use crate::gathered::{Captures, WORD_SIZE};
use mem_model::{BlockName, Cell, Ptr, Trap, Word};
use std::alloc::Global;
use thread_state::{StackBlock, ThreadState};

/// A place in a block of a stack: its thread, the number of the block there, and the offset in the block in bytes.
#[derive(Clone, Copy)]
struct Spot {
    thread: u32,
    number: u64,
    offset: i64,
}

/// The place in a stack to which a pointer points; none elsewhere.
fn spot_of(at: Ptr) -> Option<Spot>
    ensures { where_seen at result ≡ where_is at }
{
    match at {
        Ptr::At(BlockName::Stack(thread, number), offset) => Some(Spot {
            thread,
            number,
            offset,
        }),
        Ptr::Num(_)
        | Ptr::At(BlockName::Arg(_), _)
        | Ptr::At(BlockName::Global(_), _)
        | Ptr::At(BlockName::Heap(_), _)
        | Ptr::At(BlockName::Captures, _)
        | Ptr::At(BlockName::Code(_), _) => None,
    }
}

/// A word as threads share it.
fn shared(word: Word) -> Result<Ptr, Trap>
    ensures value { result ≡ spec.shared_word word }
    ensures is { IfOk result IsShared }
{
    let Word::Ptr(at) = word else {
        return Err(Trap::Unreachable);
    };
    match spot_of(at) {
        Some(_) => Err(Trap::StackLeak),
        None => Ok(at),
    }
}

/// The bytes of a block stand in memory.
fn is_short(block: &StackBlock)
    ensures { length block.now.bytes.items < 2 ^ 63 }
{
    let _ = block.bytes.as_slice();
}

/// No block of a stack is longer than offsets tell.
fn are_short(s: &ThreadState)
    ensures { AreShort s.now.stack.items }
{
    for block in s.stack.as_slice() {
        is_short(block);
    }
}

/// The pointer at a place of a stack.
fn load(s: &ThreadState, spot: Spot) -> Result<Word, Trap>
    ensures { (m : Module) → IsThread m s.now → result ≡ load_own (find_in (thread_seen m s.now).frames (spot.thread, spot.number)) spot.offset SpecCell.Ptr }
{
    if spot.thread != s.own {
        return Err(Trap::NoBlock);
    }
    s.load(spot.number, spot.offset, Cell::Ptr)
}

/// The word at a place among those from a place of a stack on.
fn word(s: &ThreadState, spot: Spot, at: u64) -> Result<Ptr, Trap>
    requires at { at < 64 }
    requires short { AreShort s.now.stack.items }
    ensures is { IfOk result IsShared }
    ensures value { (m : Module) → IsThread m s.now → result ≡ word_at (find_in (thread_seen m s.now).frames (spot.thread, spot.number)) (spot.offset +ℤ pos (8 * at)) }
{
    // No block reaches beyond the largest offset.
    let offset = spot.offset.saturating_add(WORD_SIZE * at as i64);
    shared(load(s, Spot { offset, ..spot })?)
}

/// So many words from a place of a stack on.
fn words_from(alloc: Global, s: &ThreadState, spot: Spot, count: u64) -> Result<Captures, Trap>
    requires { count ≤ 64 }
    ensures { (m : Module) → IsThread m s.now → result ≡ spec.words_in (find_in (thread_seen m s.now).frames (spot.thread, spot.number)) spot.offset count }
{
    are_short(s);
    let mut words = Captures::new(alloc);
    for at in 0..count {
        words.push(word(s, spot, at)?);
    }
    Ok(words)
}

/// The words that a fork captures: so many, at most 64, from the address on that an operand's word is. They stand in the thread's own
/// stack. Where none is captured the operand isn't looked at.
///
/// # Errors
///
/// `Unreachable` where there is no address, `NotStack` where it isn't one in a stack, and for each word in its turn: `NoBlock` where no call
/// of the thread that has not returned has such a block, `OutOfBlock` where the word doesn't lie whole in it, `NotNumber` where its bytes
/// hold no pointer, and `StackLeak` where it is an address in a stack.
pub fn captured(
    alloc: Global,
    s: &ThreadState,
    word: Option<Word>,
    count: u64,
) -> Result<Captures, Trap>
    requires { count ≤ 64 }
    ensures { (m : Module) → IsThread m s.now → result ≡ spec.captured (thread_seen m s.now).frames word count }
{
    if count == 0 {
        return Ok(Captures::new(alloc));
    }
    let Some(Word::Ptr(at)) = word else {
        return Err(Trap::Unreachable);
    };
    match spot_of(at) {
        Some(spot) => words_from(alloc, s, spot, count),
        None => Err(Trap::NotStack),
    }
}
