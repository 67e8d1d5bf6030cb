//! The memory that threads share: blocks, found by name.
ghost use Rattle.std.specs.Prelude.{◌≡◌, ℕ, ◌<◌, ◌≤◌, None, IfOk, IsSome, is_some, MatchResult};
ghost use Rattle.std.specs.FinMap as fin;
ghost use Rattle.mem_model.specs.declared.memory.Word.{Word as SpecWord};
ghost use Rattle.mem_model.specs.Memory.{no_blocks, with_block, Shares, Load, Store, Allocate, Release, header_size, bytes_at};
ghost use Rattle.mem_model.specs.Answers.{IsCell, IsOf, IsInside, IsDone, IsMade, only_trap, with_byte};
ghost use Rattle.mem_model.specs.Thread.{given_of};

use crate::block::Block;
use crate::blocks::Blocks;
use crate::launch::Shown;
use crate::memory::{BlockName, Byte, Cell, Ptr, Word};
use crate::step::Trap;
use ir_core::{List, Or, OutOfMemory};
use std::alloc::Global;
use std::marker::Model;

/// The largest block, in bytes.
const BLOCK_LIMIT: u64 = 1_048_576;

/// The memory that threads share. A block of an argument, a global or the heap is found in the same time, however many there are.
#[derive(Drop)]
pub struct Memory {
    alloc: Global,
    blocks: Blocks,
}

impl Model for Memory {
    ghost use Rattle.mem_model.specs.Memory as spec;
    ghost use Rattle.mem_model.specs.Coded.{memory_code};

    ghost Value = { spec.Memory };

    ghost coded = { memory_code };

    ghost use Rattle.mem_model.specs.Kept.{memory_of};
    ghost use Rattle.mem_model.specs.Rows.{entries_of};

    ghost view = { λ m. memory_of (entries_of m.blocks) };
}

impl Memory {
    /// A memory without blocks.
    pub fn new(alloc: Global) -> Memory
        ensures { result ≡ no_blocks }
    {
        Memory {
            alloc,
            blocks: Blocks::new(alloc),
        }
    }

    /// Whether the memory has a block of this name, released or not.
    pub fn contains(&self, name: BlockName) -> bool
        ensures { result ≡ is_some (fin.get self.now.blocks name) }
    {
        self.blocks.get(name).is_some()
    }

    /// Puts a new block of these bytes.
    ///
    /// # Errors
    ///
    /// For want of memory, and then nothing changes.
    pub fn put_block(
        &mut self,
        name: BlockName,
        bytes: Vec<Byte>,
        constant: bool,
    ) -> Result<(), OutOfMemory>
        requires new { fin.get self.old.blocks name ≡ None }
        ensures { MatchResult result (λ _. self.new ≡ with_block self.old name constant bytes.items) (λ _. self.new ≡ self.old) }
    {
        let block = Block {
            bytes,
            constant,
            released: false,
        };
        self.blocks.insert(name, block)
    }

    /// Makes a block of so many zero bytes.
    ///
    /// # Errors
    ///
    /// `TooLarge` for more than 1,048,576 bytes, and then nothing changes, nor does it for want of memory.
    pub fn allocate(&mut self, name: BlockName, len: u64, constant: bool) -> Result<(), Or<Trap>>
        requires new { fin.get self.old.blocks name ≡ None }
        ensures { IsMade (Allocate self.old name len constant) self.old self.new result }
    {
        if len > BLOCK_LIMIT {
            return Err(Or::Refused(Trap::TooLarge));
        }
        let bytes = vec![in self.alloc; Byte::Num(0); len as usize]?;
        self.put_block(name, bytes, constant)?;
        Ok(())
    }

    /// Releases a heap block, of which the pointer is the beginning and `len` the size in bytes.
    ///
    /// # Errors
    ///
    /// `NoBlock` where the pointer is into no heap block, `Released` where the block is released already, `OutOfBlock` where
    /// it is not the whole block.
    pub fn release(&mut self, at: &Ptr, len: u64) -> Result<(), Trap>
        ensures { IsDone (Release self.old at.now len) self.old self.new result }
    {
        let Ptr::At(name, offset) = *at else {
            return Err(Trap::NoBlock);
        };
        let BlockName::Heap(_) = name else {
            return Err(Trap::NoBlock);
        };
        match self.blocks.get_mut(name) {
            Some(block) => block.release(offset, len),
            None => Err(Trap::NoBlock),
        }
    }

    /// The word of a cell at a pointer.
    ///
    /// # Errors
    ///
    /// The first of these tests that fails: `NoBlock` where the pointer is a number or names no block that is there;
    /// `Released`; `OutOfBlock` where the bytes don't lie whole in the block; `NotNumber` where they hold no word of the cell.
    pub fn read(&self, at: &Ptr, cell: Cell) -> Result<Word, Trap>
        requires { IsCell cell }
        ensures { result ≡ Load self.now at.now cell }
    {
        let Ptr::At(name, offset) = *at else {
            return Err(Trap::NoBlock);
        };
        match self.blocks.get(name) {
            Some(block) => block.read(offset, cell),
            None => Err(Trap::NoBlock),
        }
    }

    /// Writes a word of a cell at a pointer.
    ///
    /// # Errors
    ///
    /// The first of these tests that fails, and then nothing changes: `NoBlock` where the pointer is a number or names no
    /// block that is there; `Released`; `OutOfBlock` where the bytes don't lie whole in the block; `Constant`; `StackLeak`
    /// where the word is a stack address.
    pub fn write(&mut self, at: &Ptr, cell: Cell, word: Word) -> Result<(), Trap>
        requires cell { IsCell cell }
        requires word { IsOf cell word }
        ensures { IsDone (Store self.old at.now cell (given_of word)) self.old self.new result }
    {
        let Ptr::At(name, offset) = *at else {
            return Err(Trap::NoBlock);
        };
        match self.blocks.get_mut(name) {
            Some(block) => block.write(offset, cell, word),
            None => Err(Trap::NoBlock),
        }
    }

    /// Whether a word that threads can share can be written in a cell at a pointer.
    ///
    /// # Errors
    ///
    /// The trap of `write`.
    pub fn reaches(&self, at: &Ptr, cell: Cell) -> Result<(), Trap>
        ensures { (word : SpecWord) → result ≡ only_trap (Store self.now at.now cell (Shares word)) }
    {
        let Ptr::At(name, offset) = *at else {
            return Err(Trap::NoBlock);
        };
        match self.blocks.get(name) {
            Some(block) => block.reaches(offset, cell),
            None => Err(Trap::NoBlock),
        }
    }

    /// Puts a byte at a place of a block, also of a constant or a released one.
    pub fn set(&mut self, name: BlockName, at: u64, byte: Byte)
        requires { IsInside self.old name at }
        ensures { self.new ≡ with_byte self.old name at byte }
    {
        if let Some(block) = self.blocks.get_mut(name) {
            block.set(at, byte);
        }
    }

    /// A block's bytes, also of a released one.
    pub fn show(&self, name: BlockName) -> Result<Shown, OutOfMemory>
        requires { IsSome (fin.get self.now.blocks name) }
        ensures { IfOk result (λ s. (s.name ≡ name) × (s.bytes ≡ bytes_at self.now name 0 (header_size (fin.get self.now.blocks name)))) }
    {
        let bytes = match self.blocks.get(name) {
            Some(block) => List::from_slice(self.alloc, block.bytes.as_slice())?,
            None => List::new(self.alloc),
        };
        Ok(Shown { name, bytes })
    }
}
