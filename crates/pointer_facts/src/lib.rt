//! Which pointers may point into a stack, and which elsewhere: two searches over the hops of pointers, one of them with hops through memory.
#![tactic(auto)]

mod pointers;
mod sides;

pub use pointers::Pointers;
