//! A pointer torn and put together again.
use mem_model::{BlockName, Byte, Cell, Ptr, Trap, Word, read_word, write_word};
use std::process::Abort;

const POINTER: Ptr = Ptr::At(BlockName::Heap(0), -5);

fn pointer_bytes() -> [Byte; 8] {
    let mut bytes = [Byte::Num(0); 8];
    write_word(&mut bytes, Cell::Ptr, Word::Ptr(POINTER));
    bytes
}

fn is_no_number(word: Result<Word, Trap>) -> bool {
    matches!(word, Err(Trap::NotNumber))
}

fn are_no_numbers([a, b, c, d, e, f, g, h]: [Byte; 8]) -> bool {
    is_no_number(read_word(&[a, b, c, d], Cell::Int(32)))
        && is_no_number(read_word(&[e, f, g, h], Cell::Int(32)))
        && is_no_number(read_word(&[e, f, g, h, a, b, c, d], Cell::Ptr))
}

#[test]
fn a_torn_pointer(rt: HostRuntime) {
    assert!(rt; are_no_numbers(pointer_bytes()));
}

fn is_pointer(word: Result<Word, Trap>) -> bool {
    match word {
        Ok(Word::Ptr(again)) => again == POINTER,
        _ => false,
    }
}

#[test]
fn a_whole_pointer(rt: HostRuntime) {
    assert!(rt; is_pointer(read_word(&pointer_bytes(), Cell::Ptr)));
}
