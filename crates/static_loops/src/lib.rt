//! Loops by a static schedule: which turns a thread makes (OpenMP 5.1, "worksharing-loop construct").
//!
//! `turns_of` says which these are, and `start_loop` is the entry point that gives a thread its share.
#![tactic(auto)]

mod starts;
mod turns;

pub use starts::{Slots, start_loop};
pub use turns::{Bounds, Loop, Share, Turns, turns_of};
