//! Writes to a memory with one block, reads and releases, and the trap of each that can't be.
use crate::traps::name_of;
use ir_core::{Or, OutOfMemory};
use mem_model::{BlockName, Cell, Memory, Ptr, Trap, Word, number_of};
use std::alloc::{AllocError, Global};
use std::process::Abort;
use std::test::Fail;

const HEAP: BlockName = BlockName::Heap(0);

const GLOBAL: BlockName = BlockName::Global(0);

const STACK: Word = Word::Ptr(Ptr::At(BlockName::Stack(1, 0), 0));

/// A block of 8 bytes and whether it is constant, a pointer and the word that is written there, and the trap.
const WRITES: [(BlockName, bool, Ptr, Word, &str); 7] = [
    (HEAP, false, Ptr::Num(8), Word::Int(1), "NoBlock"),
    (
        HEAP,
        false,
        Ptr::At(BlockName::Heap(1), 0),
        Word::Int(1),
        "NoBlock",
    ),
    (HEAP, false, Ptr::At(HEAP, 1), STACK, "OutOfBlock"),
    (HEAP, false, Ptr::At(HEAP, -1), Word::Int(1), "OutOfBlock"),
    (HEAP, false, Ptr::At(HEAP, 0), STACK, "StackLeak"),
    (GLOBAL, true, Ptr::At(GLOBAL, 1), STACK, "OutOfBlock"),
    (GLOBAL, true, Ptr::At(GLOBAL, 0), STACK, "Constant"),
];

/// A block of 8 bytes and whether it is constant, the pointer and the size of what is released, and the trap.
const RELEASES: [(BlockName, bool, Ptr, u64, &str); 4] = [
    (GLOBAL, true, Ptr::At(GLOBAL, 0), 8, "NoBlock"),
    (HEAP, false, Ptr::At(HEAP, 0), 7, "OutOfBlock"),
    (HEAP, false, Ptr::At(HEAP, 1), 8, "OutOfBlock"),
    (HEAP, false, Ptr::At(HEAP, 0), 8, ""),
];

/// A memory with one block.
fn allocated(alloc: Global, name: BlockName, len: u64, constant: bool) -> Result<Memory, Or<Trap>> {
    let mut memory = Memory::new(alloc);
    memory.allocate(name, len, constant)?;
    Ok(memory)
}

fn memory_with(alloc: Global, name: BlockName, constant: bool) -> Result<Memory, AllocError> {
    match allocated(alloc, name, 8, constant) {
        Ok(memory) => Ok(memory),
        Err(_) => Err(AllocError),
    }
}

/// The name of the trap; empty where there is none.
fn told(done: Result<(), Trap>) -> &'static str {
    match done {
        Ok(()) => "",
        Err(trap) => name_of(trap),
    }
}

/// What a write of a word of 64 bits answers.
fn written(memory: &mut Memory, at: &Ptr, word: Word) -> &'static str {
    match word {
        Word::Int(_) => told(memory.write(at, Cell::Int(64), word)),
        Word::Ptr(_) => told(memory.write(at, Cell::Ptr, word)),
    }
}

fn write_told(
    alloc: Global,
    block: BlockName,
    constant: bool,
    at: &Ptr,
    word: Word,
) -> Result<&'static str, AllocError> {
    let mut memory = memory_with(alloc, block, constant)?;
    Ok(written(&mut memory, at, word))
}

#[test]
fn writes_that_trap(rt: HostRuntime) -> Result<(), Fail> {
    for (block, constant, at, word, want) in WRITES {
        assert_eq!(rt; write_told(rt.alloc(), block, constant, &at, word)?, want);
    }
    Ok(())
}

fn release_told(
    alloc: Global,
    block: BlockName,
    constant: bool,
    at: &Ptr,
    len: u64,
) -> Result<&'static str, AllocError> {
    let mut memory = memory_with(alloc, block, constant)?;
    Ok(told(memory.release(at, len)))
}

#[test]
fn releases(rt: HostRuntime) -> Result<(), Fail> {
    for (block, constant, at, len, want) in RELEASES {
        assert_eq!(rt; release_told(rt.alloc(), block, constant, &at, len)?, want);
    }
    Ok(())
}

/// Whether a block that is released can't be read, written or released.
fn stays_released(alloc: Global) -> Result<bool, AllocError> {
    let mut heap = memory_with(alloc, HEAP, false)?;
    let start = Ptr::At(HEAP, 0);
    let released = heap.release(&start, 8).is_ok();
    let read = heap.read(&Ptr::At(HEAP, 8), Cell::Int(8));
    Ok(
        released
            && matches!(read, Err(Trap::Released))
            && written(&mut heap, &start, STACK) == "Released"
            && told(heap.release(&start, 8)) == "Released",
    )
}

#[test]
fn a_released_block(rt: HostRuntime) -> Result<(), Fail> {
    assert!(rt; stays_released(rt.alloc())?);
    Ok(())
}

#[test]
fn a_block_that_is_too_large(rt: HostRuntime) {
    let large = allocated(rt.alloc(), HEAP, 1_048_577, false);
    assert!(rt; matches!(large, Err(Or::Refused(Trap::TooLarge))));
}

/// A memory with a number of 32 bits in the middle of its block.
fn numbered(alloc: Global) -> Result<Memory, AllocError> {
    let mut memory = memory_with(alloc, HEAP, false)?;
    match memory.write(&Ptr::At(HEAP, 2), Cell::Int(32), Word::Int(0xfeed_beef)) {
        Ok(()) => Ok(memory),
        Err(_) => Err(AllocError),
    }
}

fn integer(word: Result<Word, Trap>) -> Option<u64> {
    match word {
        Ok(Word::Int(number)) => Some(number),
        _ => None,
    }
}

fn numbers_in(memory: &Memory) -> [Option<u64>; 4] {
    [
        integer(memory.read(&Ptr::At(HEAP, 2), Cell::Int(32))),
        integer(memory.read(&Ptr::At(HEAP, 3), Cell::Int(8))),
        integer(memory.read(&Ptr::At(HEAP, 0), Cell::Int(64))),
        integer(memory.read(&Ptr::At(HEAP, 2), Cell::Int(1))),
    ]
}

#[test]
fn numbers_in_memory(rt: HostRuntime) -> Result<(), Fail> {
    let want = [
        Some(0xfeed_beef),
        Some(0xbe),
        Some(0xfeed_beef_0000),
        Some(1),
    ];
    assert_eq!(rt; numbers_in(&numbered(rt.alloc())?), want);
    Ok(())
}

/// Whether the block has these bytes.
fn is_shown(memory: &Memory, want: &[u8]) -> Result<bool, OutOfMemory> {
    if !memory.contains(HEAP) {
        return Ok(false);
    }
    let shown = memory.show(HEAP)?;
    for (byte, want) in shown.bytes.as_slice().iter().zip(want) {
        if number_of(*byte) != Some(*want) {
            return Ok(false);
        }
    }
    Ok(shown.bytes.len() == want.len())
}

#[test]
fn bytes_in_memory(rt: HostRuntime) -> Result<(), Fail> {
    let want = [0, 0, 0xef, 0xbe, 0xed, 0xfe, 0, 0];
    assert!(rt; is_shown(&numbered(rt.alloc())?, &want)?);
    Ok(())
}
