//! Reads the items of a module: its types, globals, functions, and the lines that are kept whole.
#![tactic(auto)]

mod function_words;
mod functions;
mod globals;
mod inits;
mod items;
mod words;

pub use items::read_tokens;
