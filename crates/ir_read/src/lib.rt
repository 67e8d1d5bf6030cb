//! Reads a module's text, or says what it is refused for.
#![tactic(auto)]

mod fits;
mod module;
mod stopped;

pub use module::{one_module, read_module};
