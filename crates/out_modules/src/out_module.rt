//! What the optimiser gives.
ghost use Rattle.std.specs.Prelude.{◌≡◌, IfOk};
ghost use Rattle.out_modules.specs.Outputs.{IsOutput};

use checked_modules::can_be_counted;
use ir_core::{Module, OutOfMemory};
use ir_tables::Indexed;
use std::alloc::Global;
use std::marker::Model;

/// A module that the optimiser may give, with tables of its names or without: some text spells it, and nothing is refused of it, but that
/// the flag of a kernel's init call may be 0, so that its workers run no state machine. Contracts see the module.
#[derive(Drop)]
pub struct OutModule {
    indexed: Indexed,
}

impl Model for OutModule {
    ghost use Rattle.std.specs.Coded.{codes};
    ghost use Rattle.ir_core.specs.contracts.types.Ty as ty;
    ghost use Rattle.ir_core.specs.contracts.module.Init as init;
    ghost use Rattle.ir_core.specs.declared.module.Module.{Module};
    ghost use Rattle.out_modules.specs.Outputs.{IsOutput};

    ghost Value = { Module };

    ghost coded = { Prim.hlevel (codes, ty.the_row.coded, init.the_row.coded) };

    ghost view = { λ o. o.indexed };

    ghost invariant = { λ o. IsOutput o.indexed };
}

impl OutModule {
    /// The module, without tables. It is known that some text spells it, and that nothing is refused of its names and types, of its
    /// wrappers and forks, of its clauses, of its size and of regions within regions, nor of its kernels, whose state machines may be on or
    /// off.
    pub fn new(m: Module) -> OutModule
        requires { IsOutput m }
        ensures { result ≡ m }
    {
        can_be_counted(&m);
        OutModule {
            indexed: Indexed::bare(m),
        }
    }

    /// The module, of which the same is known, with its tables.
    pub fn of(alloc: Global, m: Module) -> Result<OutModule, OutOfMemory>
        requires { IsOutput m }
        ensures { IfOk result (λ o. o ≡ m) }
    {
        Ok(OutModule {
            indexed: Indexed::of(alloc, m)?,
        })
    }

    /// The module.
    pub fn module(&self) -> &Module
        ensures same { result.now ≡ self.now }
        ensures rules { IsOutput self.now }
    {
        self.indexed.module()
    }

    /// The module with its tables, where they were made.
    pub fn indexed(&self) -> &Indexed
        ensures same { result.now ≡ self.now }
        ensures rules { IsOutput self.now }
    {
        &self.indexed
    }

    /// The module alone.
    pub fn into_module(self) -> Module
        ensures same { result ≡ self }
        ensures rules { IsOutput self }
    {
        self.indexed.into_module()
    }
}
