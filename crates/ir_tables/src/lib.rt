//! Look-ups of named things, made once for a module: its functions, globals, registers and blocks, and how its types lie in memory.
//!
//! `laid` reckons with layouts, `named` gives that of a type, `table` keeps those of the named ones, and `order` says in which order they
//! are laid out; `offsets` goes into a type. `names` makes tables of names, `tables` all of a module's, and `scan` does without them.
//! `indexed` has a module with its tables.
#![tactic(auto)]

mod indexed;
mod laid;
mod laws;
mod named;
mod names;
mod offsets;
mod order;
mod scan;
mod table;
mod tables;

pub use indexed::Indexed;
pub use laws::{
    array_of_structs, byte_and_word, contains_itself, field_of_third, first_item,
    four_numbers_and_pointer, no_fields, no_such_field, one_back,
};
pub use names::{NameTable, place, table_of};
pub use offsets::Walk;
