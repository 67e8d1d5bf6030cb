//! Whether a kernel can run in SPMD mode: for each of six rules the first line at which it is broken (LLVM's OpenMPOpt documentation,
//! "SPMDization").
#![tactic(auto)]

mod functions;
mod insts;
mod judging;
mod lines;
mod walks;

pub use functions::{FunctionRule, first_function, line_without_region};
pub use insts::InstRule;
pub use judging::{Reason, Verdict, judge};
pub use walks::first_inst;
