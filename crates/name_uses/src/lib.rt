//! Where the names of a module's globals and functions stand: in operands, as callees, in forks and in initializers.
//! Each question is answered by one look-up.
#![tactic(auto)]

mod contents;
mod insts;
mod names;
mod uses;
mod wrappers;

pub use uses::{Uses, has};
