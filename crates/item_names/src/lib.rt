//! What is refused of the names and types of a module's items: its types, its globals and the headings of its functions.
#![tactic(auto)]

mod circles;
mod components;
mod globals;
mod headings;
mod initializers;
mod items;
mod module;
mod parts;
mod repeated;
mod same;
mod types;

pub use globals::{of_global, of_globals};
pub use headings::{in_heading, of_headings};
pub use initializers::in_init;
pub use items::of_items;
pub use module::of_module;
pub use repeated::repeated_symbols;
pub use same::same_type;
pub use types::of_types;
