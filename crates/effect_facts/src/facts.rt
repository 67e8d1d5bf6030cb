//! Which functions have an effect that other threads can see, and which instructions need a guard.
ghost use Rattle.std.specs.Prelude.{◌≡◌, ◌↔◌, ◌⊎◌, true, IfOk};
ghost use Rattle.call_paths.specs.Known.{AreCalls};
ghost use Rattle.value_facts.specs.Pointers.{register, spot, MayBeStack, MayBeOther};
ghost use Rattle.value_facts.specs.Effects.{HasEffect, SharedEffect, NeedsGuard};
ghost use Rattle.effect_facts.specs.Marks.{AreMarks, CallsMarked};

use crate::insts::{has_effect, inst_at};
use crate::marks::{calls_marked, is_marked};
use crate::rows::{Rows, rows_of};
use call_paths::Calls;
use checked_modules::Checked;
use ir_core::{Inst, Name, OutOfMemory, Value};
use ir_tables::Indexed;
use pointer_facts::Pointers;
use std::alloc::Global;
use std::marker::Model;

/// Which functions have an effect that other threads can see, and which instructions need a guard. Contracts see the module.
#[derive(Drop)]
pub struct Facts<'m> {
    indexed: &'m Indexed,
    pointers: Pointers<'m>,
    rows: Rows,
}

impl<'m> Model for Facts<'m> {
    ghost use Rattle.std.specs.Prelude.{◌≡◌};
    ghost use Rattle.std.specs.Coded.{codes};
    ghost use Rattle.ir_core.specs.contracts.types.Ty as ty;
    ghost use Rattle.ir_core.specs.contracts.module.Init as init;
    ghost use Rattle.ir_core.specs.declared.module.Module.{Module};
    ghost use Rattle.effect_facts.specs.Marks.{AreMarks};

    ghost Value = { Module };

    ghost coded = { Prim.hlevel (codes, ty.the_row.coded, init.the_row.coded) };

    ghost view = { λ f. f.pointers };

    ghost invariant = { λ f. (f.indexed.now ≡ f.pointers) × AreMarks f.pointers f.rows.effects f.rows.alone f.rows.guarded };
}

/// Whether an instruction of the function at a place has an effect, or calls a function with a mark.
fn acts(pointers: &Pointers, m: &Indexed, alone: &[bool], function: usize, inst: &Inst) -> bool
    ensures { (result ≡ true) ↔ (HasEffect pointers.now function inst.now ⊎ CallsMarked m.now alone.now inst.now) }
{
    has_effect(pointers, function, inst) || calls_marked(m, alone, inst)
}

impl<'m> Facts<'m> {
    /// The effects of the module: a pass over its instructions for those of each function, and rows by what functions reach.
    /// `OutOfMemory` where no memory was left, or where more registers than 2^64-1 are to be counted.
    pub fn of(alloc: Global, m: &'m Checked, calls: &Calls) -> Result<Facts<'m>, OutOfMemory>
        requires { AreCalls m.now calls.now }
        ensures { IfOk result (λ f. f ≡ m.now) }
    {
        let pointers = Pointers::of(alloc, m, calls)?;
        let indexed = m.indexed();
        let rows = rows_of(alloc, indexed.module(), &pointers, calls)?;
        Ok(Facts {
            indexed,
            pointers,
            rows,
        })
    }

    /// Whether a value of the function at a place may point into a stack.
    pub fn may_be_stack(&self, function: usize, value: &Value) -> bool
        ensures { (result ≡ true) ↔ MayBeStack self.now (spot function value.now) }
    {
        self.pointers.may_be_stack(function, value)
    }

    /// Whether a register of the function at a place may point into a stack.
    pub fn register_may_be_stack(&self, function: usize, name: &Name) -> bool
        ensures { (result ≡ true) ↔ MayBeStack self.now (register function name.now) }
    {
        self.pointers.register_may_be_stack(function, name)
    }

    /// Whether a value of the function at a place may point elsewhere than into a stack.
    pub fn may_be_other(&self, function: usize, value: &Value) -> bool
        ensures { (result ≡ true) ↔ MayBeOther self.now (spot function value.now) }
    {
        self.pointers.may_be_other(function, value)
    }

    /// Whether the function at a place has an effect that other threads can see, itself or by what it calls.
    pub fn shared_effect(&self, function: usize) -> bool
        ensures { (result ≡ true) ↔ SharedEffect self.now function }
    {
        is_marked(self.rows.effects.as_slice(), function)
    }

    /// Whether the instruction at a place needs a guard: where the function is guarded, one with an effect, and a call of a function that
    /// has an effect and reaches no region.
    pub fn needs_guard(&self, function: usize, block: usize, index: usize) -> bool
        ensures { (result ≡ true) ↔ NeedsGuard self.now (record { function = function; block = block; index = index }) }
    {
        match inst_at(self.indexed.module(), function, block, index) {
            Some(inst) => {
                is_marked(self.rows.guarded.as_slice(), function)
                    && acts(
                        &self.pointers,
                        self.indexed,
                        self.rows.alone.as_slice(),
                        function,
                        inst,
                    )
            }
            None => false,
        }
    }
}
