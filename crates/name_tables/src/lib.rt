//! What the names of a module stand for: its types, globals and functions, and the registers and blocks of a function.
//! Every look-up takes the same time, however long the module is. A name that is given twice is what its first place says.
//! And which one is told of several refusals of names.
#![tactic(auto)]

mod laws;
mod least;
mod locals;
mod refusals;
mod repeated;
mod scalars;
mod tables;

pub use laws::least_in_any_order;
pub use least::{expects, lesser};
pub use locals::{Local, Scope};
pub use refusals::{earlier, is_before, refused_at};
pub use repeated::if_second;
pub use scalars::{
    is_int_of, is_integer, is_number_of, is_of, is_ptr, is_register_type, is_scalar, is_void,
    result_scalar, same_scalar, scalar_of,
};
pub use tables::{Symbol, Tables};
