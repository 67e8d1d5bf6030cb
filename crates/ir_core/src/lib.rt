//! A module of textual LLVM IR as data: what every other crate reads, changes, prints or gives a meaning to.
//!
//! The data follows the LLVM Language Reference for the integer subset that this project reads.
//! `specs/` says which bytes spell a module, what a module's canonical text is, and which texts are refused.
#![tactic(auto)]

mod answers;
mod copy;
mod crossing;
mod instructions;
mod module;
mod name;
mod place;
mod refusal;
mod remark;
mod rtl;
mod types;
mod words;

pub use answers::{Or, OutOfMemory};
pub use copy::Copies;
pub use crossing::{code_crosses, globals_cross, modules_cross, operands_cross, types_cross};
pub use instructions::{
    BinOp, Case, CastOp, Edge, Flags, Inst, Kind, Order, Pred, RmwOp, TailWord, Typed, Value,
};
pub use module::{Block, Element, Function, Global, Init, Module, Param, TypeDef};
pub use name::{FileName, Name};
pub use place::{Marked, Place};
pub use refusal::{Construct, Refusal};
pub use remark::{Mode, Remark};
pub use rtl::Rtl;
pub use sqlite_items::{Boxed, Items as List};
pub use types::{Scalar, Ty};
pub use words::{is_digits, is_word};
