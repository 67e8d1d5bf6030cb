//! Atomic changes of a number (LLVM Language Reference, "atomicrmw").
ghost use Rattle.std.specs.Prelude.{◌≡◌, ℕ, ◌-◌, ◌^◌, ◌<◌, ◌≤◌, true};
ghost use Rattle.ir_core.specs.FirstForm.{is_width};
ghost use Rattle.mem_model.specs.Values as spec;

use crate::arithmetic::{power, sign_extend, wrapped};
use ir_core::RmwOp;

/// The greatest number of a width.
fn greatest(width: u32) -> u64
    requires { width ≤ 64 }
    ensures { result ≡ 2 ^ width - 1 }
{
    (power(width) - 1) as u64
}

/// What an atomic operation makes of the number that stands in a cell, and of its operand (LLVM Language Reference,
/// "atomicrmw").
///
/// The width is 1, 8, 16, 32 or 64, and both numbers are below 2 to the width.
pub fn updated(op: RmwOp, width: u32, old: u64, number: u64) -> u64
    requires width { is_width width ≡ true }
    requires fits { (old < 2 ^ width) × (number < 2 ^ width) }
    ensures value { result ≡ spec.updated op width old number }
    ensures fits { result < 2 ^ width }
{
    match op {
        RmwOp::Xchg => number,
        RmwOp::Add => wrapped(width, i128::from(old) + i128::from(number)),
        RmwOp::Sub => wrapped(width, i128::from(old) - i128::from(number)),
        RmwOp::And => old & number,
        RmwOp::Nand => greatest(width) - (old & number),
        RmwOp::Or => old | number,
        RmwOp::Xor => old ^ number,
        RmwOp::Max if sign_extend(width, old) < sign_extend(width, number) => number,
        RmwOp::Min if sign_extend(width, number) < sign_extend(width, old) => number,
        RmwOp::UMax if old < number => number,
        RmwOp::UMin if number < old => number,
        RmwOp::Max | RmwOp::Min | RmwOp::UMax | RmwOp::UMin => old,
    }
}
