//! What a kernel's machine is written from.
use ir_core::{List, Name};

/// A kernel's machine.
#[derive(Drop)]
pub struct Machine {
    /// The line of the init call, which each written instruction gets.
    pub line: u32,
    /// The register that the init call gives.
    pub thread: Name,
    /// The block to which threads without work go.
    pub exit: Name,
    /// The wrappers that it runs, each compared in this order.
    pub wrappers: List<Name>,
}
