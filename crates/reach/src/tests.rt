//! Small graphs, with the nodes that are reached counted by hand.
use crate::graph::Graph;
use ir_core::OutOfMemory;
use std::alloc::Global;
use std::process::Abort;
use std::test::Fail;

/// How many nodes there are, the hops, the roots, and whether each node is reached.
struct Case {
    nodes: usize,
    hops: &'static [(usize, usize)],
    roots: &'static [usize],
    reached: &'static [bool],
}

const CASES: [Case; 6] = [
    // No node at all.
    Case {
        nodes: 0,
        hops: &[],
        roots: &[],
        reached: &[],
    },
    // No root.
    Case {
        nodes: 2,
        hops: &[(0, 1)],
        roots: &[],
        reached: &[false, false],
    },
    // A circle, and a node behind it that only hops into it.
    Case {
        nodes: 4,
        hops: &[(0, 1), (1, 2), (2, 0), (3, 0)],
        roots: &[1],
        reached: &[true, true, true, false],
    },
    // A root that is given twice, a hop twice, and a hop to the node itself.
    Case {
        nodes: 3,
        hops: &[(0, 0), (0, 2), (0, 2)],
        roots: &[0, 0],
        reached: &[true, false, true],
    },
    // Two roots.
    Case {
        nodes: 5,
        hops: &[(4, 3), (0, 1), (2, 4)],
        roots: &[0, 4],
        reached: &[true, true, false, true, true],
    },
    // A fork whose arms meet again.
    Case {
        nodes: 5,
        hops: &[(0, 1), (0, 2), (1, 3), (2, 3), (3, 4)],
        roots: &[0],
        reached: &[true, true, true, true, true],
    },
];

fn graph_of(rt: &impl Abort, alloc: Global, case: &Case) -> Result<Graph, OutOfMemory> {
    let mut graph = Graph::new(alloc, case.nodes)?;
    for (from, to) in case.hops {
        assert!(rt; *from < graph.len() && *to < graph.len());
        graph.add(*from, *to)?;
    }
    Ok(graph)
}

#[test]
fn small_graphs(rt: HostRuntime) -> Result<(), Fail> {
    for case in &CASES {
        let graph = graph_of(&rt, rt.alloc(), case)?;
        assert_eq!(rt; graph.len(), case.nodes);
        assert!(rt; case.roots.iter().all(|root| *root < graph.len()));
        let reached = graph.reached(rt.alloc(), case.roots)?;
        assert_eq!(rt; reached.as_slice(), case.reached);
    }
    Ok(())
}
