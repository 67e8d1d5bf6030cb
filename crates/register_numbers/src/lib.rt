//! Numbers for the registers of a module's functions, so that an analysis over all of them keeps a row of marks.
#![tactic(auto)]

mod numbering;

pub use numbering::Numbering;
