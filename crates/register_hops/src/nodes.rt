//! The nodes between which pointers hop.
ghost use Rattle.std.specs.Prelude.{◌≡◌};
ghost use Rattle.register_hops.specs.Nodes as spec;

use ir_core::{Name, Value};
use register_numbers::Numbering;

/// A node: functions and kernels are named by their places.
#[derive(Clone, Copy)]
pub enum Node {
    /// The register of a number.
    Register(usize),
    /// Null and all globals.
    Elsewhere,
    /// What a function returns.
    Returned(usize),
    /// A pointer that is stored in a function.
    Stored(usize),
    /// A pointer that is loaded in a function.
    Loaded(usize),
    /// A pointer that is stored on the main side of a kernel.
    Main(usize),
    /// A pointer that is stored on the region side.
    Region,
}

/// The node of a register of the function at a place, if it is given there.
pub fn register_node(numbering: &Numbering, function: usize, name: &Name) -> Option<Node>
    ensures { result ≡ spec.register_node numbering.now function name.now }
{
    let number = numbering.number(function, name)?;
    Some(Node::Register(number))
}

/// The node of a value that stands in the function at a place.
pub fn value_node(numbering: &Numbering, function: usize, value: &Value) -> Option<Node>
    ensures { result ≡ spec.value_node numbering.now function value.now }
{
    match value {
        Value::Local(name) => register_node(numbering, function, name),
        Value::Null | Value::Global(_) => Some(Node::Elsewhere),
        Value::Int(_) => None,
    }
}

/// The node of an instruction's result.
pub fn result_node(numbering: &Numbering, function: usize, name: &Option<Name>) -> Option<Node>
    ensures { result ≡ spec.result_node numbering.now function name.now }
{
    match name {
        Some(name) => register_node(numbering, function, name),
        None => None,
    }
}
