//! Captured words, gathered one after another.
ghost use Rattle.std.specs.Prelude.{◌≡◌, ◌<◌, ◌≤◌, [], ◌∷◌, ◌++◌, length, slice_get, IfSome};
ghost use Rattle.captures.specs.Captured.{IsShared};

use mem_model::Ptr;
use smallvec::SmallVec;
use std::alloc::Global;
use std::marker::Model;

/// How many bytes a captured word takes.
pub(crate) const WORD_SIZE: i64 = 8;

/// A captured word. Contracts see the pointer.
#[derive(Clone, Copy)]
struct Slot {
    word: Ptr,
}

impl Model for Slot {
    ghost use Rattle.mem_model.specs.declared.memory.Ptr.{Ptr};

    ghost Value = { Ptr };

    ghost view = { λ s. s.word };

    ghost inverse = { λ p. record { word = p } };
}

impl Default for Slot {
    ghost use Rattle.mem_model.specs.declared.memory.Ptr.TheVariants.{Num as Number};

    ghost is_default = { λ s. s ≡ Number 0 };

    /// A place that holds no word yet has null.
    fn default() -> Slot {
        Slot { word: Ptr::Num(0) }
    }
}

/// The words that a region captures, in their order: at most 64, which take no memory. None is an address in a stack. Contracts see the
/// pointers.
#[derive(Drop)]
pub struct Captures {
    words: SmallVec<Slot, 64>,
}

impl Model for Captures {
    ghost use Rattle.std.specs.Prelude.{◌≡◌, List};
    ghost use Rattle.mem_model.specs.declared.memory.Ptr.{Ptr};
    ghost use Rattle.captures.specs.Captured.{AreCaptured};

    ghost Value = { List Ptr };

    ghost view = { λ c. c.words.items };

    ghost invariant = { λ c. (c.words.capacity ≡ 64) × AreCaptured c.words.items };
}

impl Captures {
    /// No words.
    pub(crate) fn new(alloc: Global) -> Captures
        ensures { result ≡ [] }
    {
        Captures {
            words: SmallVec::new(alloc),
        }
    }

    /// Adds a word at the end.
    pub(crate) fn push(&mut self, word: Ptr)
        requires room { length self.old < 64 }
        requires shared { IsShared word }
        ensures { self.new ≡ self.old ++ word ∷ [] }
    {
        self.words.push_reserved(Slot { word });
    }

    /// How many words there are.
    pub fn len(&self) -> usize
        ensures value { result ≡ length self.now }
        ensures small { result ≤ 64 }
    {
        self.words.len()
    }

    /// The word at a place, from 0; none behind the last one.
    pub fn get(&self, at: usize) -> Option<Ptr>
        ensures value { result ≡ slice_get self.now at }
        ensures shared { IfSome result IsShared }
    {
        match self.words.as_slice().get(at) {
            None => None,
            Some(slot) => Some(slot.word),
        }
    }
}
