//! Heap blocks that threads make and release.
ghost use Rattle.std.specs.Prelude.{ℕ, ◌+◌, ◌<◌, ◌^◌, List, ◌≡◌, Option, None, false};
ghost use Rattle.ir_core.specs.declared.module.Module.{Module};
ghost use Rattle.ir_core.specs.Places.{Name};
ghost use Rattle.mem_model.specs.Answers.{IsMade};
ghost use Rattle.mem_model.specs.Memory.{Allocate};
ghost use Rattle.mem_model.specs.Next.{Does, Makes as MakesBlock, Releases};
ghost use Rattle.mem_model.specs.Thread.{Frame};
ghost use Rattle.thread_state.specs.Moves.{index_of};
ghost use Rattle.interp.specs.Events.{IsHere, Makes, IsMadeOrSame};

use crate::events::{Here, traps};
use crate::shared::TeamShared;
use ir_core::{Or, OutOfMemory};
use mem_model::{BlockName, Memory, Ptr, Trap, Word};
use thread_state::ThreadState;

/// Puts a new block of so many zero bytes. A name that a block has already is given to no other one: it is answered as want of
/// memory.
fn new_block(memory: &mut Memory, name: BlockName, size: u64) -> Result<(), Or<Trap>>
    ensures { IsMade (Allocate memory.old name size false) memory.old memory.new result }
{
    if memory.contains(name) {
        return Err(Or::Memory);
    }
    memory.allocate(name, size, false)
}

/// Makes a heap block of so many zero bytes, and goes on with its address. `OutOfMemory` where no memory was left for it, and for
/// a 2^64th block; then all is as it was.
pub(crate) fn make(
    sh: &mut TeamShared,
    s: &mut ThreadState,
    here: Here,
    size: u64,
) -> Result<(), OutOfMemory>
    requires within { index_of s.old + 1 < 2 ^ 64 }
    requires runs { sh.old.trapped ≡ None }
    ensures { (m : Module) (x : Option Name) (f : Frame) (rest : List Frame) → IsHere m s.old x here f rest → IsMadeOrSame m here.thread sh.old sh.new s.old s.new (Does (MakesBlock size)) result }
{
    let Some(heaps) = sh.heaps.checked_add(1) else {
        return Err(OutOfMemory);
    };
    let name = BlockName::Heap(sh.heaps);
    match new_block(&mut sh.memory, name, size) {
        Ok(()) => {
            sh.heaps = heaps;
            s.go_on(here.register, Word::Ptr(Ptr::At(name, 0)));
            Ok(())
        }
        Err(Or::Refused(trap)) => {
            traps(sh, here, trap);
            Ok(())
        }
        Err(Or::Memory) => Err(OutOfMemory),
    }
}

/// Releases a heap block of so many bytes.
pub(crate) fn release(sh: &mut TeamShared, s: &mut ThreadState, here: Here, at: Ptr, size: u64)
    requires within { index_of s.old + 1 < 2 ^ 64 }
    requires runs { sh.old.trapped ≡ None }
    ensures { (m : Module) (x : Option Name) (f : Frame) (rest : List Frame) → IsHere m s.old x here f rest → Makes m here.thread sh.old sh.new s.old s.new (Does (Releases at size)) }
{
    match sh.memory.release(&at, size) {
        Ok(()) => s.go_past(),
        Err(trap) => traps(sh, here, trap),
    }
}
