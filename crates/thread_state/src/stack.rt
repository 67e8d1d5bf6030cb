//! The blocks of a thread's own stack, which loads and stores find by their numbers.
ghost use Rattle.std.specs.Prelude.{◌≡◌, ℕ, ◌+◌, ◌<◌, ◌≤◌, List as Listed, ◌∷◌, reverse, drop, Some, Ok, length, IfSome, IfOk};
ghost use Rattle.ir_core.specs.declared.module.Module.{Module};
ghost use Rattle.mem_model.specs.declared.memory.Word.{Word};
ghost use Rattle.mem_model.specs.Words as words;
ghost use Rattle.mem_model.specs.Memory.{inside};
ghost use Rattle.mem_model.specs.Answers.{IsCell, IsOf, only_trap};
ghost use Rattle.ir_core.specs.Places.{register_names};
ghost use Rattle.mem_model.specs.Thread.{Frame as SpecFrame, load_own, store_own, spliced};
ghost use Rattle.mem_model.specs.Next.{with_frames};
ghost use Rattle.thread_state.specs.Seen.{AreBlocks, StandsAtCall, thread_seen, IsThread, IsSeen};
ghost use Rattle.thread_state.specs.Stored.{IsBlockPlace, own_block, IsStored, HasEntered, HasBlock};

use crate::state::{Frame, StackBlock, ThreadState};
use ir_core::{List, OutOfMemory};
use mem_model::{Byte, Cell, Phase, Trap, Word, cell_size, place_in, read_word, write_word};
use std::alloc::Global;

/// The place of the block of a number in a stack whose numbers rise; none where no block has it.
fn block_place(stack: &[StackBlock], number: u64) -> Option<usize>
    ensures within { IfSome result (λ at. at < length stack.now) }
    ensures place { (least : ℕ) → AreBlocks least stack.now → IsBlockPlace stack.now number result }
{
    let mut low = 0;
    let mut high = stack.len();
    while low < high {
        let middle = low + (high - low) / 2;
        let found = stack[middle].number;
        if found == number {
            return Some(middle);
        }
        if found < number {
            low = middle + 1;
        } else {
            high = middle;
        }
    }
    None
}

impl StackBlock {
    /// The word of a cell at an offset.
    fn load(&self, offset: i64, cell: Cell) -> Result<Word, Trap>
        requires { IsCell cell }
        ensures value { result ≡ load_own (Some self.now.bytes.items) offset cell }
        ensures fits { IfOk result (IsOf cell) }
    {
        let size = cell_size(cell);
        let start = place_in(self.bytes.len(), offset, size)?;
        read_word(&self.bytes[start..start + size], cell)
    }

    /// Where a cell at an offset begins.
    fn cell_place(&self, offset: i64, cell: Cell) -> Result<usize, Trap>
        ensures place { result ≡ inside (length self.now.bytes.items) offset (words.cell_size cell) }
        ensures within { IfOk result (λ start. start + words.cell_size cell ≤ length self.now.bytes.items) }
    {
        place_in(self.bytes.len(), offset, cell_size(cell))
    }

    /// Writes a word as the bytes of a cell from a place on.
    fn write(&mut self, start: usize, cell: Cell, word: Word)
        requires cell { IsCell cell }
        requires word { IsOf cell word }
        requires room { start + words.cell_size cell ≤ length self.old.bytes.items }
        ensures number { self.new.number ≡ self.old.number }
        ensures bytes { spliced self.old.bytes.items (words.word_bytes cell word) (Ok start) ≡ Ok self.new.bytes.items }
    {
        let size = cell_size(cell);
        write_word(&mut self.bytes[start..start + size], cell, word);
    }
}

impl ThreadState {
    /// The word of a cell in the block of a number of the thread's own stack.
    ///
    /// # Errors
    ///
    /// The first of these tests that fails: `NoBlock` where no call that has not returned has such a block; `OutOfBlock` where
    /// the bytes don't lie whole in the block; `NotNumber` where they hold no word of the cell.
    pub fn load(&self, number: u64, offset: i64, cell: Cell) -> Result<Word, Trap>
        requires { IsCell cell }
        ensures value { (m : Module) → IsThread m self.now → result ≡ load_own (own_block m self.now number) offset cell }
        ensures fits { IfOk result (IsOf cell) }
    {
        match block_place(self.stack.as_slice(), number) {
            Some(at) => self.stack[at].load(offset, cell),
            None => Err(Trap::NoBlock),
        }
    }

    /// Stores a word of a cell's kind in the block of a number of the thread's own stack.
    ///
    /// # Errors
    ///
    /// The first of these tests that fails, and then nothing changes: `NoBlock` where no call that has not returned has such a
    /// block; `OutOfBlock` where the bytes don't lie whole in the block.
    pub fn store(&mut self, number: u64, offset: i64, cell: Cell, word: Word) -> Result<(), Trap>
        requires cell { IsCell cell }
        requires word { IsOf cell word }
        ensures frames { self.new.frames ≡ self.old.frames }
        ensures stored { (m : Module) → IsThread m self.old → IsStored (store_own (own_block m self.old number) offset cell word) m number self.old self.new result }
    {
        let Some(at) = block_place(self.stack.as_slice(), number) else {
            return Err(Trap::NoBlock);
        };
        let start = self.stack[at].cell_place(offset, cell)?;
        self.stack[at].write(start, cell, word);
        Ok(())
    }

    /// Whether a word of a cell can be stored in the block of a number of the thread's own stack.
    ///
    /// # Errors
    ///
    /// The trap of `store`.
    pub fn reaches(&self, number: u64, offset: i64, cell: Cell) -> Result<(), Trap>
        ensures { (m : Module) (word : Word) → IsThread m self.now → result ≡ only_trap (store_own (own_block m self.now number) offset cell word) }
    {
        let Some(at) = block_place(self.stack.as_slice(), number) else {
            return Err(Trap::NoBlock);
        };
        self.stack[at].cell_place(offset, cell)?;
        Ok(())
    }

    /// Begins a call of the function at a place, with these registers and room for as many words. In a thread that has calls, the
    /// innermost one stands at the instruction that calls.
    ///
    /// # Errors
    ///
    /// For want of memory, and then the state means what it did.
    pub fn enter(
        &mut self,
        function: usize,
        registers: List<Option<Word>>,
        room: List<Word>,
    ) -> Result<(), OutOfMemory>
        ensures { (m : Module)
            → IsThread m self.old
            → length registers ≡ length (register_names m function)
            → length room ≡ length (register_names m function)
            → StandsAtCall m (reverse self.old.frames.items)
            → HasEntered m function registers self.old self.new result }
    {
        let frame = Frame {
            function,
            block: 0,
            index: 0,
            phase: Phase::Begins,
            registers,
            room,
            base: self.stack.len(),
        };
        match self.frames.push(frame) {
            Ok(()) => Ok(()),
            Err(_) => Err(OutOfMemory),
        }
    }

    /// Makes a block of so many zero bytes in the stack, which ends with the innermost call. Its number is how many were made before.
    ///
    /// # Errors
    ///
    /// For want of memory, and then nothing changes but the room of the stack; a 2^64th block of one thread isn't made either.
    pub fn make_block(&mut self, alloc: Global, size: usize) -> Result<(), OutOfMemory>
        ensures frames { self.new.frames ≡ self.old.frames }
        ensures seen { (m : Module) (f : SpecFrame) (rest : Listed SpecFrame) → IsThread m self.old → (thread_seen m self.old).frames ≡ f ∷ rest → HasBlock m size f rest self.old self.new result }
    {
        let Some(counter) = self.counter.checked_add(1) else {
            return Err(OutOfMemory);
        };
        let block = StackBlock {
            number: self.counter,
            bytes: vec![in alloc; Byte::Num(0); size]?,
        };
        if self.stack.push(block).is_err() {
            return Err(OutOfMemory);
        }
        self.counter = counter;
        Ok(())
    }

    /// Ends the innermost call with the blocks of the stack that it has made; a thread without calls stays as it is.
    pub fn leave(&mut self)
        ensures frames { reverse self.new.frames.items ≡ drop 1 (reverse self.old.frames.items) }
        ensures seen { (m : Module) (f : SpecFrame) (rest : Listed SpecFrame) → IsThread m self.old → (thread_seen m self.old).frames ≡ f ∷ rest → IsSeen m self.new (with_frames (thread_seen m self.old) rest) }
    {
        if let Some(frame) = self.frames.pop() {
            self.stack.truncate(frame.base);
        }
    }
}
