//! Searches over the nodes: which of them hops lead to from the roots.
ghost use Rattle.std.specs.Prelude.{◌≡◌, ◌<◌, map, take, IfOk};
ghost use Rattle.call_graph.specs.Graphs.{IsGraphOf};
ghost use Rattle.register_hops.specs.Numbered.{node_number, node_count, IsNode, AreNodes, JoinNodes, AreReached, AreReachedRegisters, HopsBetween};
ghost use Rattle.register_numbers.specs.Numbers.{register_count};

use crate::hops::Hop;
use crate::nodes::Node;
use ir_core::{List, OutOfMemory};
use reach::Graph;
use register_numbers::Numbering;
use std::alloc::Global;

/// How many nodes there are. `OutOfMemory` where there are more than 2^64-1.
fn node_count(numbering: &Numbering) -> Result<usize, OutOfMemory>
    ensures { IfOk result (λ n. n ≡ node_count numbering.now) }
{
    let functions = numbering.indexed().module().functions.len();
    let Some(many) = functions.checked_mul(6) else {
        return Err(OutOfMemory);
    };
    let Some(behind) = many.checked_add(2) else {
        return Err(OutOfMemory);
    };
    match numbering.count().checked_add(behind) {
        Some(count) => Ok(count),
        None => Err(OutOfMemory),
    }
}

/// The number of a node, of so many.
fn node_number(numbering: &Numbering, _count: usize, node: Node) -> usize
    requires count { _count ≡ node_count numbering.now }
    requires node { IsNode numbering.now node }
    ensures same { result ≡ node_number numbering.now node }
    ensures within { result < _count }
{
    let registers = numbering.count();
    match node {
        Node::Register(number) => number,
        Node::Elsewhere => registers,
        Node::Region => registers + 1,
        Node::Returned(f) => registers + 6 * f + 2,
        Node::Stored(f) => registers + 6 * f + 3,
        Node::Loaded(f) => registers + 6 * f + 4,
        Node::Main(f) => registers + 6 * f + 5,
    }
}

/// The hops as a graph over the numbers of nodes, of which there are so many.
fn graph_of(
    alloc: Global,
    numbering: &Numbering,
    count: usize,
    hops: &[Hop],
) -> Result<Graph, OutOfMemory>
    requires count { count ≡ node_count numbering.now }
    requires hops { JoinNodes numbering.now hops.now }
    ensures { IfOk result (IsGraphOf (HopsBetween numbering.now hops.now) count) }
{
    let mut graph = Graph::new(alloc, count)?;
    for hop in hops {
        let from = node_number(numbering, count, hop.from);
        let to = node_number(numbering, count, hop.to);
        graph.add(from, to)?;
    }
    Ok(graph)
}

/// The numbers of these nodes.
fn numbers_of(
    alloc: Global,
    numbering: &Numbering,
    count: usize,
    nodes: &[Node],
) -> Result<List<usize>, OutOfMemory>
    requires count { count ≡ node_count numbering.now }
    requires nodes { AreNodes numbering.now nodes.now }
    ensures { IfOk result (λ numbers. numbers ≡ map (node_number numbering.now) nodes.now) }
{
    let mut numbers = List::new(alloc);
    for node in nodes {
        numbers.push(node_number(numbering, count, *node))?;
    }
    Ok(numbers)
}

/// For each node, by its number, whether hops lead to it from the roots.
fn reached(
    alloc: Global,
    numbering: &Numbering,
    hops: &[Hop],
    roots: &[Node],
) -> Result<Vec<bool>, OutOfMemory>
    requires hops { JoinNodes numbering.now hops.now }
    requires roots { AreNodes numbering.now roots.now }
    ensures { IfOk result (λ marks. AreReached numbering.now hops.now roots.now marks.items) }
{
    let count = node_count(numbering)?;
    let graph = graph_of(alloc, numbering, count, hops)?;
    let numbers = numbers_of(alloc, numbering, count, roots)?;
    graph.reached(alloc, numbers.as_slice())
}

/// The marks of the registers alone.
fn registers_of(numbering: &Numbering, marks: Vec<bool>) -> List<bool>
    ensures { result ≡ take (register_count numbering.now) marks.items }
{
    let mut marks = marks;
    marks.truncate(numbering.count());
    List::from_vec(marks)
}

/// For each register, by its number, whether hops lead to it from the roots. `OutOfMemory` only where no memory was left.
pub fn reached_registers(
    alloc: Global,
    numbering: &Numbering,
    hops: &[Hop],
    roots: &[Node],
) -> Result<List<bool>, OutOfMemory>
    requires hops { JoinNodes numbering.now hops.now }
    requires roots { AreNodes numbering.now roots.now }
    ensures { IfOk result (AreReachedRegisters numbering.now hops.now roots.now) }
{
    let marks = reached(alloc, numbering, hops, roots)?;
    Ok(registers_of(numbering, marks))
}
