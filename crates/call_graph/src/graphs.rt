//! The calls of a module's functions, as a graph over their places.
ghost use Rattle.std.specs.Prelude.{◌≡◌, ◌<◌, map, length, IfOk, OnOk};
ghost use Rattle.std.specs.List.{flat_map};
ghost use Rattle.name_uses.specs.Tables.{AreUses};
ghost use Rattle.shapes.specs.CallPaths.{Calls};
ghost use Rattle.shapes.specs.Insts.{insts_seen};
ghost use Rattle.call_graph.specs.Graphs.{IsGraphOf, Adds};
ghost use Rattle.call_graph.specs.Targets.{is_on_paths, as_list, called};

use crate::paths::{on_paths, path_place};
use ir_core::{Inst, Kind, OutOfMemory, Value};
use ir_tables::Indexed;
use name_uses::Uses;
use reach::Graph;
use shape_facts::insts_of;
use std::alloc::Global;

/// The place of the function that an instruction calls, if it stands on call paths.
fn called(m: &Indexed, paths: &[bool], inst: &Inst) -> Option<usize>
    requires { paths.now ≡ map (is_on_paths m.now) m.now.functions }
    ensures { as_list result ≡ called m.now inst.now }
{
    match &inst.kind {
        Kind::Call {
            callee: Value::Global(name),
            ..
        } => path_place(m, paths, name),
        _ => None,
    }
}

/// Adds the calls of a function, which has these instructions.
fn add_calls(
    graph: &mut Graph,
    m: &Indexed,
    paths: &[bool],
    from: usize,
    insts: &[&Inst],
) -> Result<(), OutOfMemory>
    requires size { length graph.old ≡ length m.now.functions }
    requires from { from < length m.now.functions }
    requires paths { paths.now ≡ map (is_on_paths m.now) m.now.functions }
    ensures { OnOk result (Adds from (flat_map (called m.now) (insts_seen insts.now)) graph.old graph.new) }
{
    for inst in insts {
        if let Some(to) = called(m, paths, inst) {
            graph.add(from, to)?;
        }
    }
    Ok(())
}

/// The calls between the functions that are marked.
fn marked_calls(alloc: Global, m: &Indexed, paths: &[bool]) -> Result<Graph, OutOfMemory>
    requires { paths.now ≡ map (is_on_paths m.now) m.now.functions }
    ensures { IfOk result (IsGraphOf (Calls m.now) (length m.now.functions)) }
{
    let functions = m.module().functions.as_slice();
    let mut graph = Graph::new(alloc, functions.len())?;
    for (from, f) in functions.iter().enumerate() {
        if paths[from] {
            let insts = insts_of(alloc, f)?;
            add_calls(&mut graph, m, paths, from, insts.as_slice())?;
        }
    }
    Ok(graph)
}

/// The calls between functions on call paths. `OutOfMemory` only where no memory was left.
pub fn calls(alloc: Global, m: &Indexed, uses: &Uses) -> Result<Graph, OutOfMemory>
    requires { AreUses m.now uses.now }
    ensures { IfOk result (IsGraphOf (Calls m.now) (length m.now.functions)) }
{
    let paths = on_paths(alloc, m, uses)?;
    marked_calls(alloc, m, paths.as_slice())
}
