//! What is refused of the wrappers of regions and of the forks that name them.
#![tactic(auto)]

mod forks;
mod paths;
mod regions;
mod slots;
mod told;
mod walks;
mod wrappers;

pub use slots::Form;
pub use told::{capture_forms, of_wrappers};
