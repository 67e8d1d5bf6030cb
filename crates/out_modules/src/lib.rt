//! Modules that the optimiser may give: the rules that it keeps.
#![tactic(auto)]

mod crossing;
mod out_module;

pub use crossing::out_module_crosses;
pub use out_module::OutModule;
