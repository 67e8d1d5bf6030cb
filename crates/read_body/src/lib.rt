//! Reads the bodies of functions: instructions and blocks.
#![tactic(auto)]

mod blocks;
mod calls;
mod forms;
mod last;
mod plain;
mod rows;
mod values;
mod words;

pub use blocks::{Blocks, read_block, read_body_of};
pub use calls::convention;
