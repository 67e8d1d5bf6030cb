//! What passes ask of call paths: which function reaches which, which of them reach a region, what a kernel runs, and on which side of a
//! fork a function stands (OpenMP 5.1, "parallel construct"). Wrappers stand on no call path.
#![tactic(auto)]

mod calls;
mod regions;
mod rows;
mod running;

pub use calls::{Calls, Side};
