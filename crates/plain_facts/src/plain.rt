//! Which allocations have a result that is used in plain ways alone.
ghost use Rattle.std.specs.Prelude.{◌≡◌, ◌↔◌, true, IfOk};
ghost use Rattle.value_facts.specs.Plain.{Plain};
ghost use Rattle.plain_facts.specs.Reads.{AreRows};

use crate::backs::beyond_row;
use crate::own::{Own, own_row};
use crate::reads::{inst_at, is_plain_inst};
use crate::uses::uses_in;
use checked_modules::Checked;
use ir_core::{List, OutOfMemory};
use register_numbers::Numbering;
use std::alloc::Global;
use std::marker::Model;

/// Which allocations have a result that is used in plain ways alone. Contracts see the module.
#[derive(Drop)]
pub struct PlainUses<'m> {
    numbering: Numbering<'m>,
    own: List<Own>,
    beyond: List<bool>,
}

impl<'m> Model for PlainUses<'m> {
    ghost use Rattle.std.specs.Coded.{codes};
    ghost use Rattle.ir_core.specs.contracts.types.Ty as ty;
    ghost use Rattle.ir_core.specs.contracts.module.Init as init;
    ghost use Rattle.ir_core.specs.declared.module.Module.{Module};
    ghost use Rattle.plain_facts.specs.Reads.{AreRows};

    ghost Value = { Module };

    ghost coded = { Prim.hlevel (codes, ty.the_row.coded, init.the_row.coded) };

    ghost view = { λ p. p.numbering };

    ghost invariant = { λ p. AreRows p.numbering p.own p.beyond };
}

impl<'m> PlainUses<'m> {
    /// The plain uses of the module: a pass over its instructions, and a search back along getelementptr. `OutOfMemory` where no memory
    /// was left, or where more registers than 2^64-1 are to be counted.
    pub fn of(alloc: Global, m: &'m Checked) -> Result<PlainUses<'m>, OutOfMemory>
        ensures { IfOk result (λ u. u ≡ m.now) }
    {
        let numbering = Numbering::of(alloc, m.indexed())?;
        let uses = uses_in(alloc, &numbering)?;
        let own = own_row(alloc, numbering.count(), uses.as_slice())?;
        let beyond = beyond_row(alloc, &numbering, own.as_slice())?;
        Ok(PlainUses {
            numbering,
            own,
            beyond,
        })
    }

    /// Whether an allocation stands at the place, of its function, its block and itself, with a result that is used plainly: each use of
    /// it, directly or through getelementptr alone, is the pointer of an access or of a getelementptr, or a direct release of its size.
    pub fn plain(&self, function: usize, block: usize, index: usize) -> bool
        ensures { (result ≡ true) ↔ Plain self.now (record { function = function; block = block; index = index }) }
    {
        match inst_at(self.numbering.indexed().module(), function, block, index) {
            Some(inst) => is_plain_inst(
                &self.numbering,
                self.own.as_slice(),
                self.beyond.as_slice(),
                function,
                inst,
            ),
            None => false,
        }
    }
}
