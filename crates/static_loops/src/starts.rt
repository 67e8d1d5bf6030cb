//! The entry point that gives a thread its share of a loop by a static schedule (OpenMP 5.1, "worksharing-loop construct"; the entry
//! points of LLVM 16).
ghost use Rattle.std.specs.Prelude.{◌≡◌, ℕ, ◌+◌, ◌<◌, ◌^◌, ◌≢◌, ℤ, List, ◌∷◌, Option, IfOk};
ghost use Rattle.ir_core.specs.declared.module.Module.{Module};
ghost use Rattle.mem_model.specs.declared.memory.Word.{Word};
ghost use Rattle.mem_model.specs.declared.memory.Word.TheVariants.{Int as IntWord};
ghost use Rattle.mem_model.specs.declared.memory.Cell.TheVariants.{Int as IntCell};
ghost use Rattle.mem_model.specs.Answers.{only_trap};
ghost use Rattle.mem_model.specs.Thread.{Frame, where_is};
ghost use Rattle.mem_model.specs.Schedules as schedules;
ghost use Rattle.mem_model.specs.Entries as entry;
ghost use Rattle.thread_state.specs.Seen.{thread_seen, IsThread};
ghost use Rattle.thread_state.specs.Moves.{index_of};
ghost use Rattle.static_loops.specs.Shares.{bounds_seen, turns_seen, AreWords, AreBoundWords, IsLoop};
ghost use Rattle.static_loops.specs.Starts.{spot_in, spot_seen, spots_seen, slots_seen, AreSpots, loop_in, IsPut, IsPutWhere, HasStarted, call_words, puts_share};

use crate::turns::{Bounds, Loop, Share, Turns, turns_of};
use mem_model::{BlockName, Cell, Ptr, Trap, Word, sign_extend};
use thread_state::ThreadState;

/// Where a static schedule finds its loop, and where it puts the thread's share.
#[derive(Clone, Copy)]
pub struct Slots {
    /// Where it puts whether the thread makes the last turn.
    pub last: Ptr,
    /// Where it finds the first number of the loop, and puts that of the thread.
    pub lower: Ptr,
    /// Where it finds the last number of the loop, and puts that of the thread.
    pub upper: Ptr,
    /// Where it puts the way to the thread's next turns.
    pub stride: Ptr,
}

/// A place in a block of a stack: its thread, the number of the block there, and the offset in the block.
#[derive(Clone, Copy)]
struct Spot {
    thread: u32,
    number: u64,
    offset: i64,
}

/// The places of the slots in a stack.
#[derive(Clone, Copy)]
struct Spots {
    last: Spot,
    lower: Spot,
    upper: Spot,
    stride: Spot,
}

/// The place in a stack that a pointer points to.
fn spot_of(at: Ptr) -> Result<Spot, Trap>
    ensures { result ≡ spot_in (where_is at) }
{
    match at {
        Ptr::At(BlockName::Stack(thread, number), offset) => Ok(Spot {
            thread,
            number,
            offset,
        }),
        Ptr::Num(_)
        | Ptr::At(BlockName::Arg(_), _)
        | Ptr::At(BlockName::Global(_), _)
        | Ptr::At(BlockName::Heap(_), _)
        | Ptr::At(BlockName::Captures, _)
        | Ptr::At(BlockName::Code(_), _) => Err(Trap::NotStack),
    }
}

/// The places in a stack that the slots point to.
fn spots_of(slots: Slots) -> Result<Spots, Trap>
    ensures { AreSpots (slots_seen slots) result }
{
    Ok(Spots {
        last: spot_of(slots.last)?,
        lower: spot_of(slots.lower)?,
        upper: spot_of(slots.upper)?,
        stride: spot_of(slots.stride)?,
    })
}

/// The number of 32 bits in the thread's own stack.
fn get(s: &ThreadState, spot: Spot) -> Result<u64, Trap>
    ensures value { (m : Module) → IsThread m s.now → result ≡ entry.get_own (thread_seen m s.now).frames (spot_seen spot) }
    ensures fits { IfOk result (λ n. n < 2 ^ 32) }
{
    if spot.thread != s.own {
        return Err(Trap::NoBlock);
    }
    match s.load(spot.number, spot.offset, Cell::Int(32))? {
        Word::Int(n) => Ok(n),
        Word::Ptr(_) => Err(Trap::Unreachable),
    }
}

/// Whether a number of 32 bits can be stored in the thread's own stack.
fn reaches(s: &ThreadState, spot: Spot) -> Result<(), Trap>
    ensures { (m : Module) (n : ℕ) → IsThread m s.now → result ≡ only_trap (entry.put_own (thread_seen m s.now).frames (spot_seen spot) (IntCell 32) (IntWord n)) }
{
    if spot.thread != s.own {
        return Err(Trap::NoBlock);
    }
    s.reaches(spot.number, spot.offset, Cell::Int(32))
}

/// Stores a number of 32 bits in the thread's own stack.
fn put(s: &mut ThreadState, spot: Spot, n: u64) -> Result<(), Trap>
    requires { n < 2 ^ 32 }
    ensures index { index_of s.new ≡ index_of s.old }
    ensures put { (m : Module) → IsThread m s.old → IsPut m s.old s.new (entry.put_own (thread_seen m s.old).frames (spot_seen spot) (IntCell 32) (IntWord n)) result }
{
    if spot.thread != s.own {
        return Err(Trap::NoBlock);
    }
    s.store(spot.number, spot.offset, Cell::Int(32), Word::Int(n))
}

/// The loop whose bounds lie in the thread's own stack.
fn loop_of(s: &ThreadState, spots: Spots, increment: u64) -> Result<Loop, Trap>
    requires { (increment < 2 ^ 32) × (increment ≢ 0) }
    ensures value { (m : Module) → IsThread m s.now → result ≡ loop_in (thread_seen m s.now).frames (spots_seen spots) increment }
    ensures fits { IfOk result IsLoop }
{
    Ok(Loop {
        lower: sign_extend(32, get(s, spots.lower)?),
        upper: sign_extend(32, get(s, spots.upper)?),
        increment: sign_extend(32, increment),
    })
}

/// Whether a thread's bounds can be stored.
fn bounds_fit(s: &ThreadState, spots: Spots, bounds: Option<Bounds>) -> Result<(), Trap>
    ensures { (m : Module) (given : Option (ℤ × ℤ)) → IsThread m s.now → bounds ≡ bounds_seen given → result ≡ only_trap (entry.put_bounds (spots_seen spots) given (thread_seen m s.now).frames) }
{
    let Some(_) = bounds else {
        return Ok(());
    };
    reaches(s, spots.lower)?;
    reaches(s, spots.upper)
}

/// Whether a thread's turns can be stored.
fn turns_fit(s: &ThreadState, spots: Spots, turns: Turns) -> Result<(), Trap>
    ensures { (m : Module) (given : schedules.Turns) → IsThread m s.now → turns ≡ turns_seen given → result ≡ only_trap (entry.put_turns (spots_seen spots) given (thread_seen m s.now).frames) }
{
    reaches(s, spots.last)?;
    bounds_fit(s, spots, turns.bounds)?;
    reaches(s, spots.stride)
}

/// Stores a thread's bounds, which fit.
fn put_bounds(s: &mut ThreadState, spots: Spots, bounds: Option<Bounds>) -> Result<(), Trap>
    requires { AreBoundWords bounds }
    ensures index { index_of s.new ≡ index_of s.old }
    ensures put { (m : Module) (given : Option (ℤ × ℤ)) → IsThread m s.old → bounds ≡ bounds_seen given → IsPutWhere m s.old s.new (entry.put_bounds (spots_seen spots) given (thread_seen m s.old).frames) result }
{
    let Some(bounds) = bounds else {
        return Ok(());
    };
    put(s, spots.lower, bounds.lower)?;
    put(s, spots.upper, bounds.upper)
}

/// Stores a thread's turns, which fit.
fn put_turns(s: &mut ThreadState, spots: Spots, turns: Turns) -> Result<(), Trap>
    requires { AreWords turns }
    ensures index { index_of s.new ≡ index_of s.old }
    ensures put { (m : Module) (given : schedules.Turns) → IsThread m s.old → turns ≡ turns_seen given → IsPutWhere m s.old s.new (entry.put_turns (spots_seen spots) given (thread_seen m s.old).frames) result }
{
    put(s, spots.last, u64::from(turns.last))?;
    put_bounds(s, spots, turns.bounds)?;
    put(s, spots.stride, turns.stride)
}

/// Stores a thread's turns and goes past the call, or traps where they don't fit.
fn go_with(s: &mut ThreadState, spots: Spots, turns: Turns) -> Result<(), Trap>
    requires words { AreWords turns }
    requires within { index_of s.old + 1 < 2 ^ 64 }
    ensures { (m : Module) (f : Frame) (rest : List Frame) (given : schedules.Turns) → IsThread m s.old → (thread_seen m s.old).frames ≡ f ∷ rest → turns ≡ turns_seen given → HasStarted m s.old s.new (puts_share (thread_seen m s.old) f rest (spots_seen spots) given) result }
{
    turns_fit(s, spots, turns)?;
    put_turns(s, spots, turns)?;
    s.go_past();
    Ok(())
}

// The turns of a loop whose increment and chunk are words of 32 bits.
fn start_turns(
    s: &mut ThreadState,
    slots: Slots,
    schedule: u64,
    increment: u64,
    chunk: u64,
) -> Result<(), Trap>
    requires words { (increment < 2 ^ 32) × (chunk < 2 ^ 32) }
    requires within { index_of s.old + 1 < 2 ^ 64 }
    ensures { (m : Module) (f : Frame) (rest : List Frame) → IsThread m s.old → (thread_seen m s.old).frames ≡ f ∷ rest → HasStarted m s.old s.new (entry.starts_turns (thread_seen m s.old) f rest schedule (slots_seen slots) increment chunk) result }
{
    let spots = spots_of(slots)?;
    if increment == 0 {
        return Err(Trap::Division);
    }
    let range = loop_of(s, spots, increment)?;
    let share = Share {
        number: s.answers.number,
        count: s.answers.count,
    };
    let turns = turns_of(schedule, range, share, sign_extend(32, chunk));
    go_with(s, spots, turns)
}

// Whether both are words of 32 bits.
fn are_words(increment: u64, chunk: u64) -> bool
    ensures { result ≡ entry.fits_32 increment chunk }
{
    increment < 1 << 32 && chunk < 1 << 32
}

/// Gives a thread its share of a loop: reads the loop's bounds in the slots, stores the thread's turns there, and goes past the call.
///
/// # Errors
///
/// The first of these tests that fails, and then the state means what it did: `Unreachable` where the increment or the chunk has more
/// than 32 bits; `NotStack` where a slot doesn't lie in a stack; `Division` where the increment is 0; for the bounds `NoBlock` where
/// they lie in no block of the thread's own stack that is there, `OutOfBlock` where they don't lie whole in one, and `NotNumber`
/// where they are none; and the first two likewise for what is stored.
pub fn start_loop(
    s: &mut ThreadState,
    slots: Slots,
    schedule: u64,
    increment: u64,
    chunk: u64,
) -> Result<(), Trap>
    requires within { index_of s.old + 1 < 2 ^ 64 }
    ensures { (m : Module) (f : Frame) (rest : List Frame) (place number : Word) → IsThread m s.old → (thread_seen m s.old).frames ≡ f ∷ rest → HasStarted m s.old s.new (entry.starts_loop (thread_seen m s.old) f rest (call_words place number schedule slots increment chunk)) result }
{
    if !are_words(increment, chunk) {
        return Err(Trap::Unreachable);
    }
    start_turns(s, slots, schedule, increment, chunk)
}
