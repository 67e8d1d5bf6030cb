//! The state of a thread: the calls that have not returned, their registers, the blocks of its stack, and what the entry
//! points of the runtime answer to it. What a state means is `thread_seen` of `specs/Seen.antt`.
use ir_core::List;
use mem_model::{Byte, Phase, Word};

/// What the entry points answer to a thread now.
#[derive(Clone, Copy)]
pub struct Answers {
    /// To `__kmpc_target_init`, modulo 2^32: -1, or a worker's number.
    pub init: u32,
    /// Its number: 0 outside of a region.
    pub number: u32,
    /// The number of threads: 1 outside of a region.
    pub count: u32,
    /// How many regions it is in.
    pub level: u32,
    /// 1 in SPMD mode, else 0.
    pub spmd: u32,
}

/// A block of a thread's stack: its number, of which none is used twice, and its bytes.
#[derive(Drop)]
pub struct StackBlock {
    pub number: u64,
    pub bytes: Vec<Byte>,
}

/// A call that has not returned.
#[derive(Drop)]
pub struct Frame {
    /// The places of its function in the module, of the block there, and of the instruction there, each from 0.
    pub function: usize,
    pub block: usize,
    pub index: usize,
    /// How far it has come in that instruction.
    pub phase: Phase,
    /// The function's parameters and results in the order of the text, so far as they are assigned.
    pub registers: List<Option<Word>>,
    /// Room for the words of the phis that a branch assigns at once, one for each register.
    pub room: List<Word>,
    /// How many blocks of the stack were there when it began; those above are its own, and end when it returns.
    pub base: usize,
}

/// The state of a thread.
#[derive(Drop)]
pub struct ThreadState {
    /// Its number, also in the names of the blocks of its stack.
    pub own: u32,
    /// How many threads a region has.
    pub size: u32,
    /// Whether it enters the regions of its forks itself, as each thread of an SPMD kernel does.
    pub enters: bool,
    /// How many blocks of its stack it has made.
    pub counter: u64,
    /// The outermost call first.
    pub frames: Vec<Frame>,
    /// The blocks of its stack, by rising number.
    pub stack: Vec<StackBlock>,
    pub answers: Answers,
}
