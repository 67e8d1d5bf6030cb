//! What is told of the items of a module.
use ir_core::{Module, OutOfMemory};
use ir_tables::Indexed;
use item_names::of_items;
use name_tables::Tables;
use std::alloc::Global;

/// The name of the construct that is told, and its line; no name is none.
pub(crate) fn told(alloc: Global, m: Module) -> Result<(&'static [u8], u32), OutOfMemory> {
    let m = Indexed::of(alloc, m)?;
    let tables = Tables::of(&m);
    match of_items(alloc, &tables)? {
        None => Ok((b"", 0)),
        Some(refusal) => Ok((refusal.construct.name(), refusal.line)),
    }
}
