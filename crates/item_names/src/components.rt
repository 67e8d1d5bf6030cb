//! Ranks of named types by which circles are found: types that contain each other have one rank, and a part of no circle with
//! the type that has it has a lower one. No proof rests on the ranks: they are tested before they are used, and bear the cost alone.
use ir_core::{List, OutOfMemory};
use std::alloc::Global;

/// Where a search in depth is with a type. Numbers and ranks are counted from 1, and 0 is none yet.
#[derive(Clone, Copy)]
struct Node {
    /// How many types were visited before, and this one.
    number: usize,
    /// The least number that is reached from here, as far as is known.
    low: usize,
    /// Which of its parts is looked at next.
    next: usize,
    rank: usize,
}

/// A search in depth for the strongly connected components of the types, after Tarjan.
#[derive(Drop)]
struct Search {
    nodes: Vec<Node>,
    /// From where the search began to where it is, each type a part of the one before.
    way: List<usize>,
    /// Visited, and without a rank yet.
    open: List<usize>,
    visited: usize,
    components: usize,
}

impl Search {
    fn new(alloc: Global, types: usize) -> Result<Search, OutOfMemory> {
        let mut nodes = Vec::new(alloc);
        for _ in 0..types {
            let node = Node {
                number: 0,
                low: 0,
                next: 0,
                rank: 0,
            };
            if nodes.push(node).is_err() {
                return Err(OutOfMemory);
            }
        }
        Ok(Search {
            nodes,
            way: List::new(alloc),
            open: List::new(alloc),
            visited: 0,
            components: 0,
        })
    }

    fn visit(&mut self, at: usize) -> Result<(), OutOfMemory> {
        self.visited = self.visited.saturating_add(1);
        let number = self.visited;
        if let Some(node) = self.nodes.get_mut(at) {
            node.number = number;
            node.low = number;
        }
        self.way.push(at)?;
        self.open.push(at)?;
        Ok(())
    }

    fn lower(&mut self, at: usize, low: usize) {
        if let Some(node) = self.nodes.get_mut(at) {
            if low < node.low {
                node.low = low;
            }
        }
    }

    fn follow(&mut self, at: usize, part: usize) -> Result<(), OutOfMemory> {
        if let Some(node) = self.nodes.get(part).copied() {
            if node.number == 0 {
                self.visit(part)?;
            } else if node.rank == 0 {
                self.lower(at, node.number);
            }
        }
        Ok(())
    }

    // The open types from the one at a place on contain each other.
    fn close(&mut self, first: usize) {
        self.components = self.components.saturating_add(1);
        let rank = self.components;
        for _ in 0..self.open.len() {
            let Some(at) = self.open.pop() else {
                break;
            };
            if let Some(node) = self.nodes.get_mut(at) {
                node.rank = rank;
            }
            if at == first {
                break;
            }
        }
    }

    fn leave(&mut self, at: usize, node: Node) {
        self.way.pop();
        if node.low == node.number {
            self.close(at);
        }
        if let Some(before) = self.way.as_slice().last().copied() {
            self.lower(before, node.low);
        }
    }

    fn step(&mut self, parts: &[List<usize>], at: usize) -> Result<(), OutOfMemory> {
        let Some(node) = self.nodes.get_mut(at) else {
            return Ok(());
        };
        let now = *node;
        node.next = now.next.saturating_add(1);
        match part_at(parts, at, now.next) {
            Some(part) => self.follow(at, part),
            None => {
                self.leave(at, now);
                Ok(())
            }
        }
    }

    fn run(&mut self, parts: &[List<usize>], steps: usize) -> Result<(), OutOfMemory> {
        for _ in 0..steps {
            let Some(at) = self.way.as_slice().last().copied() else {
                break;
            };
            self.step(parts, at)?;
        }
        Ok(())
    }

    fn is_new(&self, at: usize) -> bool {
        match self.nodes.get(at) {
            None => false,
            Some(node) => node.number == 0,
        }
    }
}

fn part_at(parts: &[List<usize>], at: usize, next: usize) -> Option<usize> {
    parts.get(at)?.get(next).copied()
}

// Each type is left once, and each part followed once.
fn steps_of(parts: &[List<usize>]) -> usize {
    let mut steps = parts.len();
    for some in parts {
        steps = steps.saturating_add(some.len());
    }
    steps
}

/// The rank of each type; `parts` has for each the places of its parts.
pub(crate) fn ranks_of(alloc: Global, parts: &[List<usize>]) -> Result<List<usize>, OutOfMemory> {
    let mut search = Search::new(alloc, parts.len())?;
    let steps = steps_of(parts);
    for at in 0..parts.len() {
        if search.is_new(at) {
            search.visit(at)?;
            search.run(parts, steps)?;
        }
    }
    let mut ranks = List::new(alloc);
    for node in &search.nodes {
        ranks.push(node.rank)?;
    }
    Ok(ranks)
}
