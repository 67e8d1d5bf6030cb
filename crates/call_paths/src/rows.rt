//! Rows of marks: for each place of a graph the places that chains of hops lead to.
ghost use Rattle.std.specs.Prelude.{◌≡◌, ◌↔◌, ◌<◌, length, true, Some, slice_get, IfOk};
ghost use Rattle.reach.specs.Chains.{Leads};
ghost use Rattle.reach.specs.Marks.{HopsTo};
ghost use Rattle.call_paths.specs.Known.{IsRowOf, AreRowsOf};
ghost use Rattle.call_paths.specs.Rows.{IsMarkedIn};

use ir_core::{List, OutOfMemory};
use reach::Graph;
use std::alloc::Global;

/// Whether the mark at a place of a row is true.
pub fn is_marked(row: &[bool], at: usize) -> bool
    ensures { (result ≡ true) ↔ (slice_get row.now at ≡ Some true) }
{
    matches!(row.get(at), Some(true))
}

/// Whether the row of one place has a mark at the other.
pub fn is_marked_in(rows: &List<List<bool>>, from: usize, to: usize) -> bool
    ensures { (result ≡ true) ↔ IsMarkedIn rows.now from to }
{
    match rows.get(from) {
        Some(row) => is_marked(row.as_slice(), to),
        None => false,
    }
}

/// The row of one place. `OutOfMemory` only where no memory was left.
pub fn row_from(alloc: Global, graph: &Graph, from: usize) -> Result<List<bool>, OutOfMemory>
    requires { from < length graph.now }
    ensures { IfOk result (IsRowOf (Leads (HopsTo graph.now) from)) }
{
    let marks = graph.reached(alloc, &[from])?;
    Ok(List::from_vec(marks))
}

/// The rows of all places. `OutOfMemory` only where no memory was left.
pub fn all_rows(alloc: Global, graph: &Graph) -> Result<List<List<bool>>, OutOfMemory>
    ensures { IfOk result (AreRowsOf (Leads (HopsTo graph.now)) (length graph.now)) }
{
    let mut rows = List::new(alloc);
    for from in 0..graph.len() {
        let row = row_from(alloc, graph, from)?;
        rows.push(row)?;
    }
    Ok(rows)
}
