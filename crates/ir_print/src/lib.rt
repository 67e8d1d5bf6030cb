//! The canonical text of a module.
//!
//! Each part is written at the end of one list of bytes, so that printing takes time in proportion to the text.
#![tactic(auto)]

mod functions;
mod instructions;
mod module;
mod names;
mod operands;
mod types;
mod words;
mod writer;

pub use module::print_module;
