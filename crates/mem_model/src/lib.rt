//! Memory and arithmetic, pointers and the launch of a kernel. What a thread does next, what an access gives and when one
//! system covers another are definitions in `specs/`.
//!
//! Both meanings of a module, that of its source and that of the team that runs it, stand on this crate, and so do the
//! interpreters of both: `Memory`, `eval` and the calls on bytes are exactly their definitions.
#![tactic(auto)]

mod arithmetic;
mod block;
mod blocks;
mod bytes;
mod covering;
mod crossing;
mod launch;
mod memory;
mod order;
mod phase;
mod shared;
mod step;
mod update;

pub use arithmetic::{compare, eval, sign_extend, wrapped};
pub use bytes::{cell_size, number_of, place_in, read_word, write_word};
pub use covering::{Behaves, covers_chain, covers_itself};
pub use crossing::{accesses_cross, memory_crosses, runs_cross};
pub use launch::{Arg, Launch, Shown};
pub use memory::{BlockName, Byte, Cell, Ptr, Word};
pub use phase::{LoopPoint, Phase};
pub use shared::Memory;
pub use step::{Barrier, End, Moved, NotReady, Trap};
pub use update::updated;
