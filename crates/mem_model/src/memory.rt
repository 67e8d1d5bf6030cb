//! Names of blocks, pointers, bytes and words.

/// The name of a block of memory. A name is never used again.
#[derive(Clone, Copy)]
pub enum BlockName {
    /// The buffer of the launch's argument at this place among the kernel's parameters, from 0.
    Arg(u32),
    /// The global at this place in the module's list, from 0.
    Global(u32),
    /// The heap block that was made behind this many others.
    Heap(u64),
    /// A block of the stack of a thread, and its number there.
    Stack(u32, u64),
    /// Where the captured words of a region lie for the team.
    Captures,
    /// The code of the function at this place in the module's list, from 0. It is a name alone.
    Code(u32),
}

/// A pointer: a number without a block, or an offset in bytes into a block. `null` is the number 0.
#[derive(Clone, Copy)]
pub enum Ptr {
    Num(u64),
    At(BlockName, i64),
}

/// A byte of memory: a number, or the part of a pointer with this number, from 0 to 7.
#[derive(Clone, Copy)]
pub enum Byte {
    Num(u8),
    Part(Ptr, u8),
}

/// What a register holds: an integer of its width, or a pointer.
#[derive(Clone, Copy)]
pub enum Word {
    Int(u64),
    Ptr(Ptr),
}

/// What an access is of: an integer with this number of bits, or a pointer.
#[derive(Clone, Copy)]
pub enum Cell {
    Int(u32),
    Ptr,
}
