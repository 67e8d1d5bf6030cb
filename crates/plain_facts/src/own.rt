//! How each register is used itself, otherwise than as the pointer of an access or of a getelementptr.
ghost use Rattle.std.specs.Prelude.{◌≡◌, IfOk};
ghost use Rattle.plain_facts.specs.Uses as spec;

use crate::uses::Use;
use ir_core::{List, OutOfMemory};
use std::alloc::Global;

/// How a register is used otherwise.
#[derive(Clone, Copy)]
pub(crate) enum Own {
    /// Not at all.
    Unused,
    /// By releases of one size alone.
    Released(u64),
    /// By something else, or by releases of several sizes.
    Otherwise,
}

/// How a register is used with one more use.
fn joined(own: Own, released: Option<u64>) -> Own
    ensures { result ≡ spec.joined own released }
{
    let Some(size) = released else {
        return Own::Otherwise;
    };
    match own {
        Own::Unused => Own::Released(size),
        Own::Released(n) => {
            if n == size {
                Own::Released(n)
            } else {
                Own::Otherwise
            }
        }
        Own::Otherwise => Own::Otherwise,
    }
}

/// For each register, of so many, how it is used otherwise.
pub(crate) fn own_row(alloc: Global, count: usize, uses: &[Use]) -> Result<List<Own>, OutOfMemory>
    requires { spec.AreWithin count uses.now }
    ensures { IfOk result (spec.AreOwn count uses.now) }
{
    let mut row = Vec::from_elem(alloc, Own::Unused, count)?;
    for used in uses {
        row[used.register] = joined(row[used.register], used.released);
    }
    Ok(List::from_vec(row))
}
