//! The registers that point into the stack of a kernel's first block: those of its allocas, and of getelementptrs of these.
ghost use Rattle.std.specs.Prelude.{◌≡◌, ◌++◌, ℕ, List as Listed, IfOk, OnOk};
ghost use Rattle.ir_core.specs.declared.instructions.Inst.{Inst as InstData};
ghost use Rattle.ir_tables.specs.Names.{names_seen, HasPlaces};
ghost use Rattle.shapes.specs.KernelShape as spec;
ghost use Rattle.kernel_shapes.specs.Own.{is_register_in, result_where, names_where, HasAllocas, HasOwnPointers};

use ir_core::{Inst, Kind, List, OutOfMemory, Value};
use ir_tables::{NameTable, table_of};
use name_uses::has;
use std::alloc::Global;

/// Whether an operand is one of the registers of a table.
pub fn is_register_in(table: &NameTable, value: &Value) -> bool
    ensures { (names : Listed (Listed ℕ)) → HasPlaces names table.now → result ≡ is_register_in names value.now }
{
    match value {
        Value::Local(name) => has(table, name),
        _ => false,
    }
}

fn add_where<'a>(names: &mut List<&'a [u8]>, holds: bool, inst: &'a Inst) -> Result<(), OutOfMemory>
    ensures { OnOk result (names_seen names.new ≡ names_seen names.old ++ result_where holds inst.now) }
{
    if let (true, Some(name)) = (holds, &inst.result) {
        names.push(name.as_slice())?;
    }
    Ok(())
}

fn makes_block(kind: &Kind) -> bool
    ensures { result ≡ spec.makes_block kind.now }
{
    matches!(kind, Kind::Alloca { .. })
}

/// The registers of the allocas among these.
fn allocas(alloc: Global, insts: &[Inst]) -> Result<NameTable, OutOfMemory>
    ensures { IfOk result (HasAllocas insts.now) }
{
    let mut names = List::new(alloc);
    for inst in insts {
        add_where(&mut names, makes_block(&inst.kind), inst)?;
    }
    table_of(alloc, names.as_slice())
}

/// Whether it makes a block, or goes into one.
fn is_own(allocas: &NameTable, kind: &Kind) -> bool
    ensures { (insts : Listed InstData) → HasAllocas insts allocas.now → result ≡ spec.makes_own insts kind.now }
{
    match kind {
        Kind::Alloca { .. } => true,
        Kind::Gep { base, .. } => is_register_in(allocas, &base.value),
        _ => false,
    }
}

/// The registers that point into the stack, of these instructions.
pub fn own_pointers(alloc: Global, insts: &[Inst]) -> Result<NameTable, OutOfMemory>
    ensures { IfOk result (HasOwnPointers insts.now) }
{
    let allocas = allocas(alloc, insts)?;
    let mut names = List::new(alloc);
    for inst in insts {
        add_where(&mut names, is_own(&allocas, &inst.kind), inst)?;
    }
    table_of(alloc, names.as_slice())
}
