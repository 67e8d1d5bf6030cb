//! What is refused of a module's clauses and of how large it is.
#![tactic(auto)]

mod clauses;
mod counts;
mod limits;
mod sizes;

pub use clauses::of_all_clauses;
pub use limits::of_limits;
