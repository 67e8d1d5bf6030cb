//! Graphs over numbered nodes, and which of the nodes are reached.
ghost use Rattle.std.specs.Prelude.{◌≡◌, ◌<◌, [], length, replicate, IfOk, OnOk, OnErr};
ghost use Rattle.std.specs.List.{All};
ghost use Rattle.reach.specs.Marks.{Marks, hop_added};

use crate::search::Search;
use ir_core::{List, OutOfMemory};
use std::alloc::Global;
use std::marker::Model;

/// A graph over nodes that are numbered from 0, seen as the nodes that each node hops to.
#[derive(Drop)]
pub struct Graph {
    hops: Vec<List<usize>>,
}

impl Model for Graph {
    ghost use Rattle.std.specs.Prelude.{List as Listed, ℕ};
    ghost use Rattle.reach.specs.Marks.{HopsWithin};

    ghost Value = { Listed (Listed ℕ) };

    ghost view = { λ g. g.hops.items };

    ghost invariant = { λ g. HopsWithin g.hops.items };
}

impl Graph {
    /// A graph of so many nodes, without hops. Errors: want of memory.
    pub fn new(alloc: Global, nodes: usize) -> Result<Graph, OutOfMemory>
        ensures { IfOk result (λ g. g ≡ replicate nodes []) }
    {
        let mut hops = Vec::with_capacity(alloc, nodes)?;
        for _node in 0..nodes {
            // There is room for it, so that this takes no memory.
            let _ = hops.push(List::new(alloc));
        }
        Ok(Graph { hops })
    }

    /// How many nodes there are.
    pub fn len(&self) -> usize
        ensures { result ≡ length self.now }
    {
        self.hops.len()
    }

    /// Adds a hop from a node to another one, or to itself. Errors: want of memory, and then nothing has changed.
    pub fn add(&mut self, from: usize, to: usize) -> Result<(), OutOfMemory>
        requires from { from < length self.old }
        requires to { to < length self.old }
        ensures ok { OnOk result (self.new ≡ hop_added self.old from to) }
        ensures err { OnErr result (self.new ≡ self.old) }
    {
        self.hops[from].push(to)?;
        Ok(())
    }

    /// For each node, whether a chain of hops leads to it from one of the roots; each root is reached, too.
    /// It follows a node at most once, and takes memory twice, before it begins. Errors: want of memory.
    pub fn reached(&self, alloc: Global, roots: &[usize]) -> Result<Vec<bool>, OutOfMemory>
        requires { All (λ root. root < length self.now) roots.now }
        ensures { IfOk result (λ marks. Marks self.now roots.now marks.items) }
    {
        let mut search = Search::new(alloc, self.len())?;
        search.mark_all(roots);
        while let Some(node) = search.take_waiting() {
            search.mark_all(self.hops[node].as_slice());
        }
        Ok(search.into_marks())
    }
}
