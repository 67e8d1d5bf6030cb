//! What readers of a module's text are made of, and the forms that stand in many places of it.
#![tactic(auto)]

mod ahead;
mod attributes;
mod names;
mod numbers;
mod operands;
mod repeated;
mod tokens;
mod types;

pub use ahead::{Ahead, Lexeme};
pub use attributes::skip_attributes;
pub use names::{quoted_name, spelled_name};
pub use numbers::{number_value, read_alignment, read_length};
pub use operands::{
    Operands, read_next_target, read_next_typed, read_next_value, read_target, read_typed,
    read_value,
};
pub use repeated::{Part, Repeated, read_list, read_many, read_next, skip_many};
pub use tokens::{
    Reading, expect_mark, expect_word, read_global, read_label, read_local, read_local_with_line,
};
pub use types::{read_result_type, read_type};
