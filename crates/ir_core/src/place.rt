//! Places of instructions.
use crate::module::Module;
use sqlite_items::Items as List;

/// Where an instruction stands: the places of its function in the module, of its block in the function,
/// and of itself in the block, each counted from 0.
#[derive(Clone, Copy)]
pub struct Place {
    pub function: u32,
    pub block: u32,
    pub index: u32,
}

/// A module, the list of its kernels in SPMD mode, and the places of their guarded instructions.
#[derive(Drop)]
pub struct Marked {
    pub module: Module,
    pub kernels: List<u32>,
    pub places: List<Place>,
}
