//! A search: the marks of the nodes that were reached, and those of them that wait to be followed.
ghost use Rattle.std.specs.Prelude.{◌≡◌, ◌<◌, [], ◌∷◌, length, replicate, false, IfOk};
ghost use Rattle.std.specs.List.{All};
ghost use Rattle.reach.specs.Searches.{Spreads, HasRoom, IsTaken};

use ir_core::OutOfMemory;
use std::alloc::Global;

/// Each node that waits has a mark, so that there is room for all of them from the start.
#[derive(Drop)]
pub(crate) struct Search {
    marks: Vec<bool>,
    waiting: Vec<usize>,
}

impl Search {
    /// A search among so many nodes, of which none is marked. Errors: want of memory.
    pub(crate) fn new(alloc: Global, nodes: usize) -> Result<Search, OutOfMemory>
        ensures marks { IfOk result (λ s. s.marks.items ≡ replicate nodes false) }
        ensures waiting { IfOk result (λ s. s.waiting.items ≡ []) }
        ensures room { IfOk result (λ s. HasRoom s) }
    {
        let marks = Vec::from_elem(alloc, false, nodes)?;
        let waiting = Vec::with_capacity(alloc, nodes)?;
        Ok(Search { marks, waiting })
    }

    /// Marks a node; if it had no mark, it waits now.
    fn mark(&mut self, node: usize)
        requires node { node < length self.old.marks.items }
        requires room { HasRoom self.old }
        ensures spread { Spreads self.old (node ∷ []) self.new }
        ensures room { HasRoom self.new }
    {
        if !self.marks[node] {
            self.marks[node] = true;
            // There is room for it, so that this takes no memory.
            let _ = self.waiting.push(node);
        }
    }

    /// Marks these nodes; those that had no mark wait now.
    pub(crate) fn mark_all(&mut self, nodes: &[usize])
        requires nodes { All (λ node. node < length self.old.marks.items) nodes.now }
        requires room { HasRoom self.old }
        ensures spread { Spreads self.old nodes.now self.new }
        ensures room { HasRoom self.new }
    {
        for node in nodes {
            self.mark(*node);
        }
    }

    /// The last of the nodes that wait, which waits no more.
    pub(crate) fn take_waiting(&mut self) -> Option<usize>
        requires { HasRoom self.old }
        ensures marks { self.new.marks.items ≡ self.old.marks.items }
        ensures waiting { IsTaken self.old.waiting.items result self.new.waiting.items }
        ensures room { HasRoom self.new }
    {
        self.waiting.pop()
    }

    /// The marks, at the search's end.
    pub(crate) fn into_marks(self) -> Vec<bool>
        ensures { result ≡ self.marks }
    {
        self.marks
    }
}
