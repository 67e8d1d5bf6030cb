//! The tables of a module.
ghost use Rattle.std.specs.Prelude.{◌≡◌, IfOk};
ghost use Rattle.ir_tables.specs.Table.{IsTable};
ghost use Rattle.ir_tables.specs.Indexed.{AreTables};

use crate::names::{Locals, NameTable, all_locals_of, table_of_all};
use crate::order::order_of;
use crate::table::{Places, Table, lay_out};
use ir_core::{List, Module, OutOfMemory, TypeDef};
use std::alloc::Global;

/// The named things of a module by their names, and the layouts of its named types.
#[derive(Drop)]
pub(crate) struct Tables {
    pub(crate) layouts: Table,
    pub(crate) types: NameTable,
    pub(crate) globals: NameTable,
    pub(crate) functions: NameTable,
    /// The names of each function, at its place.
    pub(crate) locals: List<Locals>,
}

/// The layouts of the types. A name that is given twice has none, nor has one that stands for a type that contains itself.
pub(crate) fn layouts_of(alloc: Global, types: &[TypeDef]) -> Result<Table, OutOfMemory>
    ensures { IfOk result (λ t. IsTable types.now t) }
{
    let places = Places::of(alloc, types)?;
    let order = order_of(alloc, types, &places)?;
    lay_out(alloc, types, places, order.as_slice())
}

impl Tables {
    /// The tables of a module.
    pub(crate) fn of(alloc: Global, m: &Module) -> Result<Tables, OutOfMemory>
        ensures { IfOk result (λ t. AreTables m.now t) }
    {
        Ok(Tables {
            layouts: layouts_of(alloc, m.types.as_slice())?,
            types: table_of_all(alloc, m.types.as_slice())?,
            globals: table_of_all(alloc, m.globals.as_slice())?,
            functions: table_of_all(alloc, m.functions.as_slice())?,
            locals: all_locals_of(alloc, m.functions.as_slice())?,
        })
    }
}
