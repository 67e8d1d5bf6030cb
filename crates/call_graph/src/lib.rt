//! Call paths: which functions stand on the main side of a kernel, and which on the region side (OpenMP 5.1, "parallel construct");
//! and what is refused of forks on the region side.
#![tactic(auto)]

mod graphs;
mod nested;
mod paths;
mod sides;

pub use graphs::calls;
pub use nested::of_nested;
pub use sides::{forked, main_side, region_side};
