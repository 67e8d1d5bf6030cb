//! The optimiser's top calls.
#![tactic(auto)]

mod machine_off;
mod optimiser;
mod remarks;
mod replay_reply;
mod replay_top;
mod reply;
mod top;

pub use optimiser::{Optimised, optimise};
pub use replay_top::replay_main;
pub use reply::read_checked;
pub use top::opt_main;
