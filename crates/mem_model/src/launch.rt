//! The launch of a kernel, and what is shown of the memory at the end.
use crate::memory::{BlockName, Byte};
use ir_core::{List, Name};

/// An argument of a kernel.
#[derive(Drop)]
pub enum Arg {
    /// A new block that holds these bytes.
    Buffer(Name),
    Int(u64),
    Null,
}

/// A launch: which kernel, how many region threads (1 to 64), how many steps at most (1 to 2,000,000), and
/// one argument for each parameter.
#[derive(Drop)]
pub struct Launch {
    pub kernel: Name,
    pub threads: u32,
    pub steps: u32,
    pub args: List<Arg>,
}

/// A block and its bytes.
#[derive(Drop)]
pub struct Shown {
    pub name: BlockName,
    pub bytes: List<Byte>,
}
