//! What the optimiser says that it has done (LLVM's documentation of OpenMPOpt remarks).
use crate::name::Name;

/// How a kernel runs: all its threads from the start, by a customised state machine, or with none, for want of regions.
#[derive(Clone, Copy)]
pub enum Mode {
    Spmd,
    Custom,
    Empty,
}

/// A remark on a line, with its number in LLVM's list and its text.
#[derive(Drop)]
pub struct Remark {
    pub line: u32,
    pub number: u32,
    pub text: Name,
}
