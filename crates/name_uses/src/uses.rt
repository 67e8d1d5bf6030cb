//! Tables of the names of a module's globals and functions by where they stand.
ghost use Rattle.std.specs.Prelude.{◌≡◌, ◌++◌, IfOk, OnOk};
ghost use Rattle.std.specs.List.{flat_map};
ghost use Rattle.ir_core.specs.declared.module.Module.{Module as ModuleData};
ghost use Rattle.ir_core.specs.Wrappers.{is_in, inst_callees, inst_wrappers, forked};
ghost use Rattle.ir_tables.specs.Names.{names_seen, found_place, HasPlaces};
ghost use Rattle.shapes.specs.Facts.{insts_in};
ghost use Rattle.shapes.specs.Insts.{insts_seen};
ghost use Rattle.shapes.specs.Uses as spec;
ghost use Rattle.name_uses.specs.Contents.{global_names};
ghost use Rattle.name_uses.specs.Tables.{AreUses};

use crate::contents::add_globals;
use crate::insts::{add_callees, add_elsewhere, add_forked, add_used, add_wrappers};
use ir_core::{Inst, List, Module, Name, OutOfMemory};
use ir_tables::{NameTable, place, table_of};
use std::alloc::Global;

/// The names of a module's globals and functions, by where they stand.
#[derive(Drop)]
pub struct Uses {
    /// In operands, as callees and in initializers.
    pub used: NameTable,
    /// As callees.
    pub called: NameTable,
    /// As the region functions of forks.
    pub forked: NameTable,
    /// As the wrappers of forks.
    pub wrapping: NameTable,
    /// Anywhere but as the wrappers of forks.
    pub elsewhere: NameTable,
}

/// The names in all operands, callees and initializers.
fn used(alloc: Global, m: &Module, insts: &[&Inst]) -> Result<NameTable, OutOfMemory>
    requires { insts_seen insts.now ≡ insts_in m.now }
    ensures { IfOk result (HasPlaces (spec.names_used m.now)) }
{
    let mut names = List::new(alloc);
    add_used(&mut names, insts)?;
    add_globals(&mut names, m.globals.as_slice())?;
    table_of(alloc, names.as_slice())
}

/// The names that stand anywhere but as a fork's wrapper.
fn elsewhere(alloc: Global, m: &Module, insts: &[&Inst]) -> Result<NameTable, OutOfMemory>
    requires { insts_seen insts.now ≡ insts_in m.now }
    ensures { IfOk result (HasPlaces (spec.names_elsewhere m.now)) }
{
    let mut names = List::new(alloc);
    add_elsewhere(&mut names, insts)?;
    add_globals(&mut names, m.globals.as_slice())?;
    table_of(alloc, names.as_slice())
}

/// The functions that are called.
fn called(alloc: Global, insts: &[&Inst]) -> Result<NameTable, OutOfMemory>
    ensures { IfOk result (HasPlaces (flat_map inst_callees (insts_seen insts.now))) }
{
    let mut names = List::new(alloc);
    add_callees(&mut names, insts)?;
    table_of(alloc, names.as_slice())
}

/// The region functions of forks.
fn forked(alloc: Global, insts: &[&Inst]) -> Result<NameTable, OutOfMemory>
    ensures { IfOk result (HasPlaces (flat_map spec.fork_names (insts_seen insts.now))) }
{
    let mut names = List::new(alloc);
    add_forked(&mut names, insts)?;
    table_of(alloc, names.as_slice())
}

/// The wrappers of forks.
fn wrapping(alloc: Global, insts: &[&Inst]) -> Result<NameTable, OutOfMemory>
    ensures { IfOk result (HasPlaces (flat_map inst_wrappers (insts_seen insts.now))) }
{
    let mut names = List::new(alloc);
    add_wrappers(&mut names, insts)?;
    table_of(alloc, names.as_slice())
}

/// Whether a table has a name.
pub fn has(table: &NameTable, name: &Name) -> bool
    ensures { (names : List Name) → HasPlaces names table.now → result ≡ is_in names name.now }
{
    place(table, name.as_slice()).is_some()
}

impl Uses {
    /// The names of a module with these instructions. `OutOfMemory` only where no memory was left.
    pub fn of(alloc: Global, m: &Module, insts: &[&Inst]) -> Result<Uses, OutOfMemory>
        requires { insts_seen insts.now ≡ insts_in m.now }
        ensures { IfOk result (AreUses m.now) }
    {
        Ok(Uses {
            used: used(alloc, m, insts)?,
            called: called(alloc, insts)?,
            forked: forked(alloc, insts)?,
            wrapping: wrapping(alloc, insts)?,
            elsewhere: elsewhere(alloc, m, insts)?,
        })
    }

    /// Whether a name stands in an operand, as a callee or in an initializer.
    pub fn is_used(&self, name: &Name) -> bool
        ensures { (m : ModuleData) → AreUses m self.now → result ≡ is_in (spec.names_used m) name.now }
    {
        has(&self.used, name)
    }

    /// Whether a function is called.
    pub fn is_called(&self, name: &Name) -> bool
        ensures { (m : ModuleData) → AreUses m self.now → result ≡ is_in (spec.names_called m) name.now }
    {
        has(&self.called, name)
    }

    /// Whether a fork names a function as its region function.
    pub fn is_forked(&self, name: &Name) -> bool
        ensures { (m : ModuleData) → AreUses m self.now → result ≡ is_in (spec.names_forked m) name.now }
    {
        has(&self.forked, name)
    }

    /// Whether a fork names a function as its wrapper.
    pub fn is_wrapping(&self, name: &Name) -> bool
        ensures { (m : ModuleData) → AreUses m self.now → result ≡ is_in (forked m) name.now }
    {
        has(&self.wrapping, name)
    }

    /// Whether a name stands anywhere but as a fork's wrapper.
    pub fn is_elsewhere(&self, name: &Name) -> bool
        ensures { (m : ModuleData) → AreUses m self.now → result ≡ is_in (spec.names_elsewhere m) name.now }
    {
        has(&self.elsewhere, name)
    }
}
