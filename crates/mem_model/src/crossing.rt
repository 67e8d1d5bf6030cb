//! The data that threads share may go from one thread to another, and be read by several at once.
use crate::launch::{Arg, Launch, Shown};
use crate::memory::{BlockName, Byte, Cell, Ptr, Word};
use crate::shared::Memory;
use crate::step::{End, Trap};

/// Takes only what may cross between threads.
fn crosses<T: Send + Sync>(_: &T) {}

/// What an access takes and gives.
pub fn accesses_cross(
    name: &BlockName,
    at: &Ptr,
    byte: &Byte,
    word: &Word,
    cell: &Cell,
    trap: &Trap,
) {
    crosses(name);
    crosses(at);
    crosses(byte);
    crosses(word);
    crosses(cell);
    crosses(trap);
}

/// What a run begins with and what it shows.
pub fn runs_cross(launch: &Launch, arg: &Arg, end: &End, shown: &Shown) {
    crosses(launch);
    crosses(arg);
    crosses(end);
    crosses(shown);
}

/// The memory itself.
pub fn memory_crosses(memory: &Memory) {
    crosses(memory);
}
