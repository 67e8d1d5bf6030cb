//! Which nodes of a graph a chain of hops leads to, decided once for every analysis of the optimiser.
//!
//! `specs/Chains.antt` says what a chain is, for any relation, and `proofs/ChainLaws.antt` has its laws.
//! `proofs/Added.antt` has the law of an added hop.
#![tactic(auto)]

mod graph;
mod search;
#[cfg(test)]
mod tests;

pub use graph::Graph;
