//! The numbering of a module's registers.
ghost use Rattle.std.specs.Prelude.{◌≡◌, ◌+◌, ◌<◌, IfOk};
ghost use Rattle.register_numbers.specs.Numbers.{number_of, register_count};

use ir_core::{List, Name, OutOfMemory};
use ir_tables::Indexed;
use std::alloc::Global;
use std::marker::Model;

/// The registers of all functions of a module, numbered from 0, one function after another. Contracts see the module.
#[derive(Drop)]
pub struct Numbering<'m> {
    indexed: &'m Indexed,
    starts: List<usize>,
    total: usize,
}

impl<'m> Model for Numbering<'m> {
    ghost use Rattle.std.specs.Coded.{codes};
    ghost use Rattle.ir_core.specs.contracts.types.Ty as ty;
    ghost use Rattle.ir_core.specs.contracts.module.Init as init;
    ghost use Rattle.ir_core.specs.declared.module.Module.{Module};

    ghost Value = { Module };

    ghost coded = { Prim.hlevel (codes, ty.the_row.coded, init.the_row.coded) };

    ghost view = { λ n. n.indexed.now };

    ghost use Rattle.std.specs.Prelude.{◌≡◌};
    ghost use Rattle.register_numbers.specs.Numbers.{AreStarts, register_count};

    ghost invariant = { λ n. AreStarts n.indexed.now n.starts × (n.total ≡ register_count n.indexed.now) };
}

/// The sum of two counts. `OutOfMemory` where it is more than 2^64-1.
fn sum(a: usize, b: usize) -> Result<usize, OutOfMemory>
    ensures { IfOk result (λ n. n ≡ a + b) }
{
    match a.checked_add(b) {
        Some(n) => Ok(n),
        None => Err(OutOfMemory),
    }
}

/// The number at a place behind a first one; it is below a count, so that it can be told.
fn behind(first: usize, place: usize, _count: usize) -> usize
    requires { first + place < _count }
    ensures { result ≡ first + place }
{
    first + place
}

impl<'m> Numbering<'m> {
    /// The numbering of a module's registers. `OutOfMemory` where no memory was left, or where more registers than 2^64-1 are to be counted.
    pub fn of(alloc: Global, indexed: &'m Indexed) -> Result<Numbering<'m>, OutOfMemory>
        ensures { IfOk result (λ n. n ≡ indexed.now) }
    {
        let mut starts = List::new(alloc);
        let mut total: usize = 0;
        for at in 0..indexed.module().functions.len() {
            starts.push(total)?;
            total = sum(total, indexed.register_count(at))?;
        }
        Ok(Numbering {
            indexed,
            starts,
            total,
        })
    }

    /// The module with its tables.
    pub fn indexed(&self) -> &'m Indexed
        ensures { result.now ≡ self.now }
    {
        self.indexed
    }

    /// How many registers there are.
    pub fn count(&self) -> usize
        ensures { result ≡ register_count self.now }
    {
        self.total
    }

    /// The number of a register of the function at a place.
    pub fn number(&self, function: usize, name: &Name) -> Option<usize>
        ensures { result ≡ number_of self.now function name.now }
    {
        let place = self.indexed.register(function, name)?;
        let start = self.starts.get(function)?;
        Some(behind(*start, place, self.total))
    }
}
