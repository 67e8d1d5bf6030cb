//! Runs the pairs of a schedule on a team, step by step, and makes what is reported of it.
#![tactic(auto)]

mod notes;
mod report;
mod run;

pub use notes::{launch_note, schedule_note};
pub use report::{end_status, report_of};
pub use run::replay;
