//! Words as bytes: how a word lies in a block of memory or of a stack.
ghost use Rattle.std.specs.Prelude.{◌≡◌, ℕ, ◌+◌, ◌*◌, ◌<◌, ◌≤◌, length, IfSome, true};
ghost use Rattle.ir_core.specs.FirstForm.{is_width};
ghost use Rattle.mem_model.specs.Words as words;
ghost use Rattle.mem_model.specs.Memory.{inside, shown_byte};
ghost use Rattle.mem_model.specs.Answers.{IsCell, IsOf};

use crate::arithmetic::low_bits;
use crate::memory::{Byte, Cell, Ptr, Word};
use crate::step::Trap;

/// How many bytes a cell takes: a pointer 8, and an integer its bits rounded up to bytes.
pub fn cell_size(cell: Cell) -> usize
    ensures { result ≡ words.cell_size cell }
{
    match cell {
        Cell::Int(width) => (width as usize + 7) / 8,
        Cell::Ptr => 8,
    }
}

/// Where `count` bytes from an offset on lie whole in a block of `size` bytes.
///
/// # Errors
///
/// `OutOfBlock` where they don't.
pub fn place_in(size: usize, offset: i64, count: usize) -> Result<usize, Trap>
    ensures { result ≡ inside size offset count }
{
    if offset < 0 {
        return Err(Trap::OutOfBlock);
    }
    let start = offset as usize;
    if count <= size && start <= size - count {
        Ok(start)
    } else {
        Err(Trap::OutOfBlock)
    }
}

/// The number of a number byte; none of a part of a pointer.
pub fn number_of(byte: Byte) -> Option<u8>
    ensures value { result ≡ shown_byte byte }
    ensures small { IfSome result (λ n. n < 256) }
{
    match byte {
        Byte::Num(number) => Some(number),
        Byte::Part(..) => None,
    }
}

/// The number that number bytes spell, the lowest first; none where one is part of a pointer.
fn number_in(bytes: &[Byte]) -> Option<u64>
    requires { length bytes.now ≤ 8 }
    ensures { result ≡ words.number_in bytes.now }
{
    let mut number = 0;
    for i in (0..bytes.len()).rev() {
        let Some(low) = number_of(bytes[i]) else {
            return None;
        };
        number = u64::from(low) + 256 * number;
    }
    Some(number)
}

/// Whether these are the parts of a pointer, in order from the first.
fn are_parts(pointer: Ptr, bytes: &[Byte]) -> bool
    ensures { result ≡ words.are_parts pointer 0 bytes.now }
{
    for i in 0..bytes.len() {
        let Byte::Part(whole, number) = bytes[i] else {
            return false;
        };
        if pointer != whole || i != usize::from(number) {
            return false;
        }
    }
    true
}

/// The pointer that bytes are the parts of.
fn address_in(bytes: &[Byte]) -> Result<Word, Trap>
    ensures { result ≡ words.address_word bytes.now (words.first_part bytes.now) }
{
    match bytes.first() {
        Some(Byte::Part(pointer, _)) if are_parts(*pointer, bytes) => Ok(Word::Ptr(*pointer)),
        _ => Err(Trap::NotNumber),
    }
}

/// An integer of a width that bytes hold.
fn integer_in(bytes: &[Byte], width: u32) -> Result<Word, Trap>
    requires width { is_width width ≡ true }
    requires size { length bytes.now ≤ 8 }
    ensures { result ≡ words.integer_word width (words.number_in bytes.now) }
{
    let Some(number) = number_in(bytes) else {
        return Err(Trap::NotNumber);
    };
    Ok(Word::Int(low_bits(width, u128::from(number))))
}

/// A pointer that eight bytes hold.
fn pointer_in(bytes: &[Byte]) -> Result<Word, Trap>
    requires { length bytes.now ≤ 8 }
    ensures { result ≡ words.pointer_word bytes.now (words.number_in bytes.now) }
{
    match number_in(bytes) {
        Some(number) => Ok(Word::Ptr(Ptr::Num(number))),
        None => address_in(bytes),
    }
}

/// The word that a cell's bytes hold: an integer is number bytes, cut to its width; a pointer is eight number bytes, or the
/// eight parts of one pointer in order.
///
/// # Errors
///
/// `NotNumber` where the bytes hold no word of the cell.
pub fn read_word(bytes: &[Byte], cell: Cell) -> Result<Word, Trap>
    requires cell { IsCell cell }
    requires size { length bytes.now ≡ words.cell_size cell }
    ensures { result ≡ words.word_in cell bytes.now }
{
    match cell {
        Cell::Int(width) => integer_in(bytes, width),
        Cell::Ptr => pointer_in(bytes),
    }
}

/// Writes a number, the lowest byte first.
fn write_number(bytes: &mut [Byte], number: u64)
    ensures { bytes.new ≡ words.number_bytes (length bytes.old) number }
{
    let mut rest = number;
    for i in 0..bytes.len() {
        bytes[i] = Byte::Num((rest % 256) as u8);
        rest /= 256;
    }
}

/// Writes the parts of a pointer, in order.
fn write_parts(bytes: &mut [Byte], pointer: Ptr)
    requires { length bytes.old ≤ 8 }
    ensures { bytes.new ≡ words.parts_from (length bytes.old) 0 pointer }
{
    for i in 0..bytes.len() {
        bytes[i] = Byte::Part(pointer, i as u8);
    }
}

/// Writes a word as the bytes of a cell of its kind.
pub fn write_word(bytes: &mut [Byte], cell: Cell, word: Word)
    requires kind { IsOf cell word }
    requires size { length bytes.old ≡ words.cell_size cell }
    ensures { bytes.new ≡ words.word_bytes cell word }
{
    match word {
        Word::Int(number) => write_number(bytes, number),
        Word::Ptr(Ptr::Num(number)) => write_number(bytes, number),
        Word::Ptr(pointer) => write_parts(bytes, pointer),
    }
}
