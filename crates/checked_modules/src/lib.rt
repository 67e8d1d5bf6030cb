//! Modules that keep the rules of the language: a module whose type says that nothing is refused of it, and what passes make of it.
#![tactic(auto)]

mod checked;
mod crossing;

pub use checked::{Changed, Checked, can_be_counted};
pub use crossing::checked_cross;
