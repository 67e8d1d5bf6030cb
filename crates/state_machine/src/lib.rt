//! The state machine of a generic kernel written out: its workers wait for work and run it by the kernel's own blocks (LLVM's OpenMPOpt
//! documentation, "custom state machine").
#![tactic(auto)]

mod blocks;
mod insts;
mod kernels;
mod modules;
mod names;
mod off;
mod plan;

pub use modules::with_machines;
pub use plan::Machine;
