//! A team of machine threads as code, step by step, as the team meaning has it.
//!
//! `shared` is what threads share, `barriers` opens its barriers, `events` makes a thread's pending event,
//! `start` makes the first state of a team, and `team` steps it.
#![tactic(auto)]

mod barriers;
mod events;
mod heaps;
mod shared;
mod start;
mod team;
mod work;

pub use events::event;
pub use shared::{Answer, TeamShared};
pub use team::{Team, step};
