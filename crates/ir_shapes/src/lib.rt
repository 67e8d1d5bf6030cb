//! What is refused of the shapes of a module whose names and types are as they must be: its kernels, wrappers, forks, clauses, nested
//! regions and limits; and which entry points aren't built yet.
#![tactic(auto)]

mod told;
mod unbuilt_calls;

pub use told::of_shapes;
pub use unbuilt_calls::unbuilt;
