//! Whether a module has a refusal: first its names and types are asked, then its shapes.
#![tactic(auto)]

mod module;

pub use module::check;
