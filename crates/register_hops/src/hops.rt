//! The hops of instructions, of functions and of a module.
ghost use Rattle.std.specs.Prelude.{◌≡◌, ◌++◌, drop, IfOk, OnOk};
ghost use Rattle.std.specs.List.{flat_map};
ghost use Rattle.shapes.specs.Facts.{insts_of};
ghost use Rattle.shapes.specs.Insts.{insts_seen};
ghost use Rattle.register_hops.specs.Hops as spec;
ghost use Rattle.register_hops.specs.Nodes.{value_node};

use crate::calls::add_call;
use crate::nodes::{Node, result_node, value_node};
use ir_core::{Edge, Inst, Kind, List, OutOfMemory, Ty, Typed};
use name_tables::is_ptr;
use register_numbers::Numbering;
use shape_facts::insts_of;
use std::alloc::Global;

/// A pointer that is at one node is at the other, too.
#[derive(Clone, Copy)]
pub struct Hop {
    pub from: Node,
    pub to: Node,
}

/// Adds the hop between two nodes, if there are both.
pub(crate) fn add_hop(
    hops: &mut List<Hop>,
    from: Option<Node>,
    to: Option<Node>,
) -> Result<(), OutOfMemory>
    ensures { OnOk result (hops.new ≡ hops.old ++ spec.hop from to) }
{
    if let Some(from) = from {
        if let Some(to) = to {
            hops.push(Hop { from, to })?;
        }
    }
    Ok(())
}

/// Adds the hops of a phi.
fn add_edges(
    hops: &mut List<Hop>,
    numbering: &Numbering,
    at: usize,
    given: Option<Node>,
    edges: &[Edge],
) -> Result<(), OutOfMemory>
    ensures { OnOk result (hops.new ≡ hops.old ++ flat_map (spec.edge_hops numbering.now at given) edges.now) }
{
    for edge in edges {
        add_hop(hops, value_node(numbering, at, &edge.value), given)?;
    }
    Ok(())
}

/// Adds the hops of a select.
fn add_either(
    hops: &mut List<Hop>,
    numbering: &Numbering,
    at: usize,
    given: Option<Node>,
    a: &Typed,
    b: &Typed,
) -> Result<(), OutOfMemory>
    ensures { OnOk result (hops.new ≡ hops.old ++ (spec.hop (value_node numbering.now at a.now.value) given ++ spec.hop (value_node numbering.now at b.now.value) given)) }
{
    add_hop(hops, value_node(numbering, at, &a.value), given)?;
    add_hop(hops, value_node(numbering, at, &b.value), given)
}

/// Adds the hop of a store, if it stores a pointer.
fn add_store(
    hops: &mut List<Hop>,
    numbering: &Numbering,
    at: usize,
    value: &Typed,
) -> Result<(), OutOfMemory>
    ensures { OnOk result (hops.new ≡ hops.old ++ spec.store_hops numbering.now at value.now) }
{
    if is_ptr(&value.ty) {
        let from = value_node(numbering, at, &value.value);
        add_hop(hops, from, Some(Node::Stored(at)))?;
    }
    Ok(())
}

/// Adds the hop of a load, if it loads a pointer.
fn add_load(
    hops: &mut List<Hop>,
    at: usize,
    given: Option<Node>,
    ty: &Ty,
) -> Result<(), OutOfMemory>
    ensures { OnOk result (hops.new ≡ hops.old ++ spec.load_hops at given ty.now) }
{
    if is_ptr(ty) {
        add_hop(hops, Some(Node::Loaded(at)), given)?;
    }
    Ok(())
}

/// Adds the hop of a return, if it returns a value.
fn add_return(
    hops: &mut List<Hop>,
    numbering: &Numbering,
    at: usize,
    value: &Option<Typed>,
) -> Result<(), OutOfMemory>
    ensures { OnOk result (hops.new ≡ hops.old ++ spec.return_hops numbering.now at value.now) }
{
    match value {
        Some(value) => {
            let from = value_node(numbering, at, &value.value);
            add_hop(hops, from, Some(Node::Returned(at)))
        }
        None => Ok(()),
    }
}

/// Adds the hops of what an instruction does, with the node of its result.
fn add_kind(
    hops: &mut List<Hop>,
    numbering: &Numbering,
    at: usize,
    given: Option<Node>,
    kind: &Kind,
) -> Result<(), OutOfMemory>
    ensures { OnOk result (hops.new ≡ hops.old ++ spec.kind_hops numbering.now at given kind.now) }
{
    match kind {
        Kind::Gep { base, .. } => add_hop(hops, value_node(numbering, at, &base.value), given),
        Kind::Select { a, b, .. } => add_either(hops, numbering, at, given, a, b),
        Kind::Phi { edges, .. } => add_edges(hops, numbering, at, given, edges.as_slice()),
        Kind::Call { callee, args, .. } => {
            add_call(hops, numbering, at, given, callee, args.as_slice())
        }
        Kind::Store { value, .. } => add_store(hops, numbering, at, value),
        Kind::Load { ty, .. } => add_load(hops, at, given, ty),
        Kind::Ret { value } => add_return(hops, numbering, at, value),
        _ => Ok(()),
    }
}

/// Adds the hops of these instructions of the function at a place.
fn add_insts(
    hops: &mut List<Hop>,
    numbering: &Numbering,
    at: usize,
    insts: &[&Inst],
) -> Result<(), OutOfMemory>
    ensures { OnOk result (hops.new ≡ hops.old ++ flat_map (spec.inst_hops numbering.now at) (insts_seen insts.now)) }
{
    for inst in insts {
        let given = result_node(numbering, at, &inst.result);
        add_kind(hops, numbering, at, given, &inst.kind)?;
    }
    Ok(())
}

/// The hops of a module, instruction by instruction. `OutOfMemory` only where no memory was left.
pub fn hops_in(alloc: Global, numbering: &Numbering) -> Result<List<Hop>, OutOfMemory>
    ensures { IfOk result (λ hops. hops ≡ spec.all_hops numbering.now) }
{
    let mut hops = List::new(alloc);
    let functions = numbering.indexed().module().functions.as_slice();
    for (at, f) in functions.iter().enumerate() {
        let insts = insts_of(alloc, f)?;
        add_insts(&mut hops, numbering, at, insts.as_slice())?;
    }
    Ok(hops)
}
