//! What is refused of the shape of kernels: the first block with the init call, the exit for workers, the ends of the user code, and the
//! mode in which a kernel says that it runs.
#![tactic(auto)]

mod branch;
mod ends;
mod exit;
mod kernels;
mod modes;
mod opening;
mod own;

pub use kernels::of_kernels;
