//! The data of a module may go from one thread to another, and be read by several at once.
use crate::instructions::{Inst, Kind, Typed, Value};
use crate::module::{Block, Function, Global, Init, Module};
use crate::name::Name;
use crate::types::Ty;
use sqlite_items::Items as List;

/// Takes only what may cross between threads.
fn crosses<T: Send + Sync>(_: &T) {}

/// Names and types.
pub fn types_cross(name: &Name, names: &List<Name>, ty: &Ty) {
    crosses(name);
    crosses(names);
    crosses(ty);
}

/// Globals and what they hold at first.
pub fn globals_cross(global: &Global, init: &Init) {
    crosses(global);
    crosses(init);
}

/// Operands.
pub fn operands_cross(value: &Value, typed: &Typed) {
    crosses(value);
    crosses(typed);
}

/// Instructions, and the blocks and functions that hold them.
pub fn code_crosses(kind: &Kind, inst: &Inst, block: &Block, function: &Function) {
    crosses(kind);
    crosses(inst);
    crosses(block);
    crosses(function);
}

/// A whole module.
pub fn modules_cross(module: &Module) {
    crosses(module);
}
