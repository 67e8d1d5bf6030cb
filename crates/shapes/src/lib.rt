//! The rules on shapes, as definitions: kernels in generic mode, the wrappers of regions and the forks that name them, clauses, nested
//! regions and limits (OpenMP 5.1, "target construct" and "parallel construct", as clang 16 writes them for the device runtime).
//!
//! `specs/Refusals.antt` has the whole.
#![tactic(auto)]
