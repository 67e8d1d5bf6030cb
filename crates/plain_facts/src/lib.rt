//! Which allocations have a result that is used in plain ways alone: a row of how each register is used itself, and a search back along
//! getelementptr from the registers that are used otherwise.
#![tactic(auto)]

mod backs;
mod own;
mod plain;
mod reads;
mod uses;

pub use plain::PlainUses;
