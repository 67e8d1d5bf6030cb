//! Which functions have an effect that other threads can see, and which instructions need a guard: rows of marks over the places of
//! functions, by what their own instructions do and by call paths.
#![tactic(auto)]

mod facts;
mod insts;
mod marks;
mod rows;

pub use facts::Facts;
pub use insts::{accessed, inst_at};
