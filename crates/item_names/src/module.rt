//! What is refused of the names and types of a module.
#![tactic(auto)]

ghost use Rattle.std.specs.Prelude.{◌≡◌, IfOk};
ghost use Rattle.std.specs.List.{flat_map};
ghost use Rattle.ir_core.specs.NameRefusals.{least, name_refusals};
ghost use Rattle.item_names.specs.Items.{of_inside};

use crate::items::of_items;
use ir_core::{Function, OutOfMemory, Refusal};
use ir_names::of_body;
use name_tables::{Tables, earlier};
use std::alloc::Global;

fn of_bodies<'a>(
    alloc: Global,
    tables: &'a Tables<'a>,
    functions: &'a [Function],
) -> Result<Option<Refusal>, OutOfMemory>
    ensures { IfOk result (λ r. r ≡ least (flat_map (of_inside tables.now) functions.now)) }
{
    let mut found = None;
    for f in functions {
        found = earlier(found, of_body(alloc, tables, f)?);
    }
    Ok(found)
}

/// The refusal that is told of the names and types of a module: that of the least line, and on one line that of the least number.
/// None where there is none. `OutOfMemory` only where no memory was left.
pub fn of_module<'a>(alloc: Global, tables: &'a Tables<'a>) -> Result<Option<Refusal>, OutOfMemory>
    ensures { IfOk result (λ r. r ≡ least (name_refusals tables.now)) }
{
    let items = of_items(alloc, tables)?;
    let bodies = of_bodies(alloc, tables, tables.module().functions.as_slice())?;
    Ok(earlier(items, bodies))
}
