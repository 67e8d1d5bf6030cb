//! What is refused of a module's items, all parts together.
#![tactic(auto)]

ghost use Rattle.std.specs.Prelude.{◌≡◌, IfOk};
ghost use Rattle.ir_core.specs.NameRefusals.{least};
ghost use Rattle.item_names.specs.Items.{item_refusals};

use crate::globals::of_globals;
use crate::headings::of_headings;
use crate::repeated::repeated_symbols;
use crate::types::of_types;
use ir_core::{OutOfMemory, Refusal};
use name_tables::{Tables, earlier};
use std::alloc::Global;

/// The refusal that is told of the names and types of a module's items: of its types, its globals, the headings of its functions
/// and the names of these. None where there is none. `OutOfMemory` only where no memory was left.
pub fn of_items(alloc: Global, tables: &Tables) -> Result<Option<Refusal>, OutOfMemory>
    ensures { IfOk result (λ r. r ≡ least (item_refusals tables.now)) }
{
    let m = tables.module();
    let types = of_types(alloc, tables)?;
    let symbols = repeated_symbols(alloc, m)?;
    let globals = of_globals(tables, m.globals.as_slice());
    let headings = of_headings(tables, m.functions.as_slice());
    Ok(earlier(earlier(earlier(types, symbols), globals), headings))
}
