//! The state of a thread as the interpreters keep it: registers by number, calls in a list, and one stack of blocks.
//! What a state means is `thread_seen` of `specs/Seen.antt`.
#![tactic(auto)]

mod registers;
mod stack;
mod state;

pub use state::{Answers, Frame, StackBlock, ThreadState};
