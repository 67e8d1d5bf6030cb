//! The hops of pointers between the registers of a module, as a graph for two searches: which registers a pointer can come to by copies,
//! and which by copies and through memory.
#![tactic(auto)]

mod calls;
mod hops;
mod nodes;
mod regions;
mod roots;
mod search;

pub use calls::defined_place;
pub use hops::{Hop, hops_in};
pub use nodes::{Node, register_node, result_node, value_node};
pub use regions::{called_by_wrappers, is_region};
pub use roots::{Origin, roots_in};
pub use search::reached_registers;
