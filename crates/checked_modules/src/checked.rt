//! Modules that keep rules, and what passes make of them.
ghost use Rattle.std.specs.Prelude.{◌≡◌, ◌≤◌, ◌<◌, ◌^◌, IfOk, length};
ghost use Rattle.shapes.specs.Facts.{insts_in};
ghost use Rattle.shapes.specs.Limits.{instruction_limit};
ghost use Rattle.checked_modules.specs.Checked.{HasNoRefusal};
ghost use Rattle.ir_tables.specs.Indexed.{CanBeCounted};

use ir_core::{Function, List, Module, OutOfMemory, Remark};
use ir_tables::Indexed;
use std::alloc::Global;
use std::marker::Model;

/// A module that some text spells and of which nothing is refused, with tables of its names or without. Contracts see the module.
#[derive(Drop)]
pub struct Checked {
    indexed: Indexed,
}

impl Model for Checked {
    ghost use Rattle.std.specs.Coded.{codes};
    ghost use Rattle.ir_core.specs.contracts.types.Ty as ty;
    ghost use Rattle.ir_core.specs.contracts.module.Init as init;
    ghost use Rattle.ir_core.specs.declared.module.Module.{Module};
    ghost use Rattle.checked_modules.specs.Checked.{HasNoRefusal};

    ghost Value = { Module };

    ghost coded = { Prim.hlevel (codes, ty.the_row.coded, init.the_row.coded) };

    ghost view = { λ c. c.indexed };

    ghost invariant = { λ c. HasNoRefusal c.indexed };
}

/// A function's parameters stand in memory.
fn has_few_params(f: &Function)
    ensures { length f.now.params < 2 ^ 63 }
{
    let _ = f.params.as_slice();
}

/// The registers of a module with few instructions can be counted.
pub fn can_be_counted(m: &Module)
    requires { length (insts_in m.now) ≤ instruction_limit }
    ensures { CanBeCounted m.now }
{
    for f in m.functions.as_slice() {
        has_few_params(f);
    }
}

impl Checked {
    /// The module, known to have no refusal, without tables.
    pub fn seal(m: Module) -> Checked
        requires { HasNoRefusal m }
        ensures { result ≡ m }
    {
        can_be_counted(&m);
        Checked {
            indexed: Indexed::bare(m),
        }
    }

    /// The module, known to have no refusal, with the tables that it has.
    pub fn with_tables(indexed: Indexed) -> Checked
        requires { HasNoRefusal indexed }
        ensures { result ≡ indexed }
    {
        Checked { indexed }
    }

    /// The module.
    pub fn module(&self) -> &Module
        ensures same { result.now ≡ self.now }
        ensures rules { HasNoRefusal self.now }
    {
        self.indexed.module()
    }

    /// The module with its tables, where they were made.
    pub fn indexed(&self) -> &Indexed
        ensures same { result.now ≡ self.now }
        ensures rules { HasNoRefusal self.now }
    {
        &self.indexed
    }

    /// The module alone.
    pub fn into_module(self) -> Module
        ensures same { result ≡ self }
        ensures rules { HasNoRefusal self }
    {
        self.indexed.into_module()
    }
}

/// What a pass gives: the module, and what it says that it has done.
#[derive(Drop)]
pub struct Changed {
    pub module: Checked,
    pub notes: List<Remark>,
}
