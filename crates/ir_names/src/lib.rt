//! What is refused of the names and types of a function's registers, blocks and instructions. Each rule answers the construct of least
//! number that it refuses; of a function the first refusal is told.
#![tactic(auto)]

mod addresses;
mod blocks;
mod branches;
mod calls;
mod instructions;
mod operands;
mod phis;
mod results;

pub use addresses::{address, shape};
pub use blocks::{in_inst, in_kind, of_block, of_blocks, of_body};
pub use branches::Body;
pub use calls::{call, each_operand, if_output, is_entry_point, same_result};
pub use instructions::{
    binary, comparison, conditional_branch, conversion, loaded, returned, rmw, selection, stored,
    switch,
};
pub use operands::{in_type, operand, operand_in, pointer, symbol, target, value_in};
pub use phis::phi;
pub use results::{in_order, in_result, is_phi};
