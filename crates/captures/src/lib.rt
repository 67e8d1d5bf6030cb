//! What a fork needs before its region begins: what it names, the words that it captures, and how they are published.
//!
//! `forks` reads a fork's operands, `gathered` keeps captured words, `words` reads them from the thread's own stack, and `area` puts them
//! into the capture area.
#![tactic(auto)]

mod area;
mod forks;
mod gathered;
mod words;

pub use area::publish;
pub use forks::{Fork, fork_of};
pub use gathered::Captures;
pub use words::captured;
