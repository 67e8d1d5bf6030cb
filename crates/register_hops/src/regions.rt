//! Region functions: those that a fork names, and those that a wrapper calls.
ghost use Rattle.std.specs.Prelude.{◌≡◌, ◌++◌, IfOk, OnOk};
ghost use Rattle.std.specs.List.{flat_map};
ghost use Rattle.ir_core.specs.declared.module.Module.{Module as ModuleData};
ghost use Rattle.ir_core.specs.Wrappers.{inst_callees, block_callees, callees};
ghost use Rattle.ir_tables.specs.Names.{names_seen, HasPlaces};
ghost use Rattle.name_uses.specs.Tables.{AreUses};
ghost use Rattle.register_hops.specs.Roots.{called_by_wrappers, is_region};

use ir_core::{Block, Function, Inst, Kind, List, Module, OutOfMemory, Value};
use ir_tables::{NameTable, table_of};
use name_uses::{Uses, has};
use std::alloc::Global;

/// Adds the name of the function that an instruction calls.
fn add_callee<'a>(names: &mut List<&'a [u8]>, inst: &'a Inst) -> Result<(), OutOfMemory>
    ensures { OnOk result (names_seen names.new ≡ names_seen names.old ++ inst_callees inst.now) }
{
    if let Kind::Call {
        callee: Value::Global(name),
        ..
    } = &inst.kind
    {
        names.push(name.as_slice())?;
    }
    Ok(())
}

/// Adds the names of the functions that a block calls.
fn add_block<'a>(names: &mut List<&'a [u8]>, block: &'a Block) -> Result<(), OutOfMemory>
    ensures { OnOk result (names_seen names.new ≡ names_seen names.old ++ block_callees block.now) }
{
    for inst in block.insts.as_slice() {
        add_callee(names, inst)?;
    }
    Ok(())
}

/// Adds the names of the functions that a function calls.
fn add_callees<'a>(names: &mut List<&'a [u8]>, f: &'a Function) -> Result<(), OutOfMemory>
    ensures { OnOk result (names_seen names.new ≡ names_seen names.old ++ callees f.now) }
{
    for block in f.blocks.as_slice() {
        add_block(names, block)?;
    }
    Ok(())
}

/// A table of the functions that wrappers call. `OutOfMemory` only where no memory was left.
pub fn called_by_wrappers(alloc: Global, m: &Module, uses: &Uses) -> Result<NameTable, OutOfMemory>
    requires { AreUses m.now uses.now }
    ensures { IfOk result (HasPlaces (called_by_wrappers m.now)) }
{
    let mut names = List::new(alloc);
    for f in m.functions.as_slice() {
        if uses.is_wrapper(f) {
            add_callees(&mut names, f)?;
        }
    }
    table_of(alloc, names.as_slice())
}

/// Whether a function is a region function.
pub fn is_region(uses: &Uses, called: &NameTable, f: &Function) -> bool
    ensures { (m : ModuleData) → AreUses m uses.now → HasPlaces (called_by_wrappers m) called.now → result ≡ is_region m f.now }
{
    uses.is_forked(&f.name) || has(called, &f.name)
}
