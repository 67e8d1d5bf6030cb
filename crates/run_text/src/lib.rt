//! The texts of a run: reads the launch of a module and a schedule from their texts, and prints a report.
//!
//! `specs/` says which launch and which schedule a text spells, or which is its first fault, and what a report's text is.
#![tactic(auto)]

mod arguments;
mod kernels;
mod launch;
mod lines;
mod names;
mod report;
mod rows;
mod schedule;
mod writer;

pub use launch::{LaunchFault, LaunchFaultKind, read_launch};
pub use report::{Report, ReportEnd, RunMode, print_report};
pub use rows::{report_row, schedule_rows};
pub use schedule::{ScheduleFault, ScheduleFaultKind, read_schedule};
