//! The registers of the innermost call, and the place where it stands. In a state without calls nothing is found, and nothing
//! changes.
ghost use Rattle.std.specs.Prelude.{◌≡◌, ℕ, ◌+◌, ◌<◌, ◌^◌, slice_get, slice_set, Option};
ghost use Rattle.ir_core.specs.declared.module.Module.{Module};
ghost use Rattle.ir_core.specs.Places.{Name, place_in};
ghost use Rattle.mem_model.specs.Next.{code_on, code_past};
ghost use Rattle.thread_state.specs.Seen.{value_at, thread_seen, IsThread, IsSeen, StandsAtLong, Occurs};
ghost use Rattle.thread_state.specs.Moves.{first_registers, names_of, index_of, room_of, Moves, IsPlaceOf, with_register, code_at, frame_assigned, frame_kept, frame_past, frame_at, code_in, frame_in};

use crate::state::{Frame, ThreadState};
use mem_model::{Phase, Word};

impl Frame {
    /// The value of the register at a place; none where it isn't assigned, or there is no such place.
    fn value(&self, register: Option<usize>) -> Option<Word>
        ensures { result ≡ value_at self.now.registers register }
    {
        match self.registers.get(register?) {
            None => None,
            Some(value) => *value,
        }
    }

    /// Gives the register at a place a value, where there is such a place.
    fn assign(&mut self, register: Option<usize>, word: Word)
        ensures { self.new ≡ frame_assigned self.old register word }
    {
        if let Some(at) = register {
            if at < self.registers.len() {
                self.registers.set(at, Some(word));
            }
        }
    }

    /// Keeps a word at a place of the room, where there is such a place.
    fn keep(&mut self, at: usize, word: Word)
        ensures { self.new ≡ frame_kept self.old at word }
    {
        if at < self.room.len() {
            self.room.set(at, word);
        }
    }
}

impl ThreadState {
    /// The value of a register of the innermost call, by its place among the function's registers; none where it isn't assigned.
    pub fn value(&self, register: Option<usize>) -> Option<Word>
        ensures { (m : Module) (x : Name) → place_in (names_of m self.now) x ≡ register → result ≡ first_registers (thread_seen m self.now).frames x }
    {
        self.frames.last()?.value(register)
    }

    /// Gives a register of the innermost call a value, by its place; none is for a result without a register.
    pub fn assign(&mut self, register: Option<usize>, word: Word)
        ensures moves { (m : Module) (x : Option Name) → IsThread m self.old → IsPlaceOf (names_of m self.old) x register → Moves (with_register x word) m self.old self.new }
        ensures room { room_of self.new ≡ room_of self.old }
        ensures names { (m : Module) → names_of m self.new ≡ names_of m self.old }
    {
        if let Some(frame) = self.frames.last_mut() {
            frame.assign(register, word);
        }
    }

    /// The word that is kept at a place of the innermost call's room; none where there is no such place.
    pub fn kept(&self, at: usize) -> Option<Word>
        ensures { result ≡ slice_get (room_of self.now) at }
    {
        match self.frames.last()?.room.get(at) {
            None => None,
            Some(word) => Some(*word),
        }
    }

    /// Keeps a word at a place of the innermost call's room, where there is such a place.
    pub fn keep(&mut self, at: usize, word: Word)
        ensures room { room_of self.new ≡ slice_set (room_of self.old) at word }
        ensures same { (m : Module) → IsThread m self.old → IsSeen m self.new (thread_seen m self.old) }
    {
        if let Some(frame) = self.frames.last_mut() {
            frame.keep(at, word);
        }
    }

    /// Goes behind an instruction, with its result.
    pub fn go_on(&mut self, register: Option<usize>, word: Word)
        requires { index_of self.old + 1 < 2 ^ 64 }
        ensures { (m : Module) (x : Option Name) → IsThread m self.old → IsPlaceOf (names_of m self.old) x register → Moves (λ c. code_on c x word) m self.old self.new }
    {
        if let Some(frame) = self.frames.last_mut() {
            frame.assign(register, word);
            frame.index += 1;
            frame.phase = Phase::Begins;
        }
    }

    /// Goes behind an instruction without a result.
    pub fn go_past(&mut self)
        requires { index_of self.old + 1 < 2 ^ 64 }
        ensures { (m : Module) → IsThread m self.old → Moves code_past m self.old self.new }
    {
        if let Some(frame) = self.frames.last_mut() {
            frame.index += 1;
            frame.phase = Phase::Begins;
        }
    }

    /// Goes to a place in a block of the same function.
    pub fn jump(&mut self, block: usize, index: usize)
        ensures { (m : Module) → IsThread m self.old → Moves (code_at block index) m self.old self.new }
    {
        if let Some(frame) = self.frames.last_mut() {
            frame.block = block;
            frame.index = index;
            frame.phase = Phase::Begins;
        }
    }

    /// Stays at its instruction, which takes several steps, in another phase.
    pub fn stay(&mut self, phase: Phase)
        ensures { (m : Module) → IsThread m self.old → StandsAtLong m self.old → Occurs m phase → Moves (code_in phase) m self.old self.new }
    {
        if let Some(frame) = self.frames.last_mut() {
            frame.phase = phase;
        }
    }
}
