//! A block of the memory that threads share.
ghost use Rattle.std.specs.Prelude.{◌≡◌, ◌<◌, Some, true, false, [], ◌∷◌, length};
ghost use Rattle.mem_model.specs.Words as words;
ghost use Rattle.mem_model.specs.Memory.{access};
ghost use Rattle.mem_model.specs.Kept.{header_of, word_at, IsOverwritten, IsWritten, IsReleased};
ghost use Rattle.mem_model.specs.Answers.{IsCell, IsOf, only_trap};
ghost use Rattle.mem_model.specs.Thread.{given_of};

use crate::bytes::{cell_size, place_in, read_word, write_word};
use crate::memory::{BlockName, Byte, Cell, Ptr, Word};
use crate::step::Trap;

/// A block: its bytes, whether only reads may go to it, and whether it is released. A released block keeps its bytes.
#[derive(Drop)]
pub(crate) struct Block {
    pub(crate) bytes: Vec<Byte>,
    pub(crate) constant: bool,
    pub(crate) released: bool,
}

impl Block {
    /// Where an access of so many bytes begins.
    fn access(&self, offset: i64, count: usize, writes: bool) -> Result<usize, Trap>
        ensures { result ≡ access (Some (header_of self.now)) offset count writes }
    {
        if self.released {
            return Err(Trap::Released);
        }
        let start = place_in(self.bytes.len(), offset, count)?;
        if writes && self.constant {
            return Err(Trap::Constant);
        }
        Ok(start)
    }

    /// The word of a cell at an offset.
    pub(crate) fn read(&self, offset: i64, cell: Cell) -> Result<Word, Trap>
        requires { IsCell cell }
        ensures { result ≡ word_at cell self.now.bytes.items (access (Some (header_of self.now)) offset (words.cell_size cell) false) }
    {
        let size = cell_size(cell);
        let start = self.access(offset, size, false)?;
        read_word(&self.bytes[start..start + size], cell)
    }

    /// Whether a word of a cell can be written at an offset.
    pub(crate) fn reaches(&self, offset: i64, cell: Cell) -> Result<(), Trap>
        ensures { result ≡ only_trap (access (Some (header_of self.now)) offset (words.cell_size cell) true) }
    {
        self.access(offset, cell_size(cell), true)?;
        Ok(())
    }

    /// Releases the block, of which the offset is the beginning and `len` the size.
    pub(crate) fn release(&mut self, offset: i64, len: u64) -> Result<(), Trap>
        ensures { IsReleased len offset self.old self.new result }
    {
        if self.released {
            return Err(Trap::Released);
        }
        if offset != 0 || len != self.bytes.len() as u64 {
            return Err(Trap::OutOfBlock);
        }
        self.released = true;
        Ok(())
    }

    /// Puts a byte at a place.
    pub(crate) fn set(&mut self, at: u64, byte: Byte)
        requires { at < length self.old.bytes.items }
        ensures { IsOverwritten self.old at (byte ∷ []) self.new }
    {
        self.bytes[at as usize] = byte;
    }

    /// Writes a word of a cell at an offset.
    pub(crate) fn write(&mut self, offset: i64, cell: Cell, word: Word) -> Result<(), Trap>
        requires cell { IsCell cell }
        requires word { IsOf cell word }
        ensures { IsWritten (access (Some (header_of self.old)) offset (words.cell_size cell) true) cell (given_of word) self.old self.new result }
    {
        let size = cell_size(cell);
        let start = self.access(offset, size, true)?;
        if let Word::Ptr(Ptr::At(BlockName::Stack(..), _)) = word {
            return Err(Trap::StackLeak);
        }
        write_word(&mut self.bytes[start..start + size], cell, word);
        Ok(())
    }
}
