//! What the rules on shapes ask of one instruction, and the instructions of a function and of a module as one list.
#![tactic(auto)]

mod facts;
mod insts;
mod kernels;
mod rules;

pub use facts::{calls, has_constant, has_register, is_call_of, operand_of};
pub use insts::{insts_in, insts_of};
pub use kernels::is_kernel;
pub use rules::rule;
