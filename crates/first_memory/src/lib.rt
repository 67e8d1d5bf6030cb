//! The memory at the start of a run: the buffers of the arguments, and the globals with what they hold at first
//! (LLVM Language Reference, "Global Variables").
#![tactic(auto)]

mod blocks;
mod contents;

pub use blocks::first_memory;
