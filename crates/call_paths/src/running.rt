//! What kernels run: the functions that calls and forks lead to.
ghost use Rattle.std.specs.Prelude.{◌≡◌, ◌<◌, length, IfOk, OnOk};
ghost use Rattle.std.specs.List.{flat_map};
ghost use Rattle.shapes.specs.CallPaths.{Calls};
ghost use Rattle.shapes.specs.Insts.{insts_seen};
ghost use Rattle.call_graph.specs.Graphs.{IsGraphOf, Adds};
ghost use Rattle.call_graph.specs.Targets as targets;
ghost use Rattle.call_paths.specs.Known.{IsRowOf, AreRowsOf};
ghost use Rattle.call_paths.specs.Runs.{CallsOrForks, Runs};

use crate::rows::row_from;
use call_graph::forked;
use ir_core::{Inst, List, OutOfMemory};
use ir_tables::Indexed;
use reach::Graph;
use shape_facts::{insts_of, is_kernel};
use std::alloc::Global;

/// Adds hops from a function, which has these instructions, to the region functions that they fork.
fn add_forks(
    graph: &mut Graph,
    m: &Indexed,
    from: usize,
    insts: &[&Inst],
) -> Result<(), OutOfMemory>
    requires size { length graph.old ≡ length m.now.functions }
    requires from { from < length m.now.functions }
    ensures { OnOk result (Adds from (flat_map (targets.forked m.now) (insts_seen insts.now)) graph.old graph.new) }
{
    for inst in insts {
        if let Some(to) = forked(m, inst) {
            graph.add(from, to)?;
        }
    }
    Ok(())
}

/// The graph of the calls, with the forks of all functions added.
fn with_forks(alloc: Global, m: &Indexed, calls: Graph) -> Result<Graph, OutOfMemory>
    requires { IsGraphOf (Calls m.now) (length m.now.functions) calls }
    ensures { IfOk result (IsGraphOf (CallsOrForks m.now) (length m.now.functions)) }
{
    let mut graph = calls;
    for (from, f) in m.module().functions.as_slice().iter().enumerate() {
        let insts = insts_of(alloc, f)?;
        add_forks(&mut graph, m, from, insts.as_slice())?;
    }
    Ok(graph)
}

/// The row of a function: the functions that it runs, if it is a kernel.
fn runs_from(
    alloc: Global,
    m: &Indexed,
    graph: &Graph,
    at: usize,
) -> Result<List<bool>, OutOfMemory>
    requires at { at < length m.now.functions }
    requires graph { IsGraphOf (CallsOrForks m.now) (length m.now.functions) graph.now }
    ensures { IfOk result (IsRowOf (Runs m.now at)) }
{
    let f = &m.module().functions.as_slice()[at];
    if is_kernel(f) {
        row_from(alloc, graph, at)
    } else {
        Ok(List::new(alloc))
    }
}

/// For each kernel the functions that it runs, and for each other function none. `OutOfMemory` only where no memory was left.
pub fn runs(alloc: Global, m: &Indexed, calls: Graph) -> Result<List<List<bool>>, OutOfMemory>
    requires { IsGraphOf (Calls m.now) (length m.now.functions) calls }
    ensures { IfOk result (AreRowsOf (Runs m.now) (length m.now.functions)) }
{
    let graph = with_forks(alloc, m, calls)?;
    let mut rows = List::new(alloc);
    for at in 0..graph.len() {
        let row = runs_from(alloc, m, &graph, at)?;
        rows.push(row)?;
    }
    Ok(rows)
}
