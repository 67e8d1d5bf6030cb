//! What the program needs of the world outside: named inputs and sinks of bytes, and objects for them in memory and for real.
#![tactic(auto)]

mod memory;
#[cfg(test)]
mod memory_tests;
mod outside;
mod real;
#[cfg(test)]
mod real_tests;
mod transfer;

pub use memory::{NamedFile, SureInputs, SureSink};
pub use outside::{InputFailed, Inputs, Sink, SinkFailed};
pub use real::{FileInputs, StreamSink};
pub use transfer::{ReadFault, read_file, write_all};
