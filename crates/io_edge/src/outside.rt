//! The world outside: inputs that are read by name, and sinks that take bytes.
ghost use Rattle.std.specs.Prelude.{◌≡◌, ◌≢◌, ◌↔◌, ℕ, ◌<◌, ◌≤◌, List, [], length, take, IfOk, OnErr, Option};
ghost use Rattle.io_edge.specs.Outside.{GivesFrom, Grows, HasCause};

use thiserror::Error;

/// A read of a named input failed. It comes only where that name's count of faults rose.
#[derive(Debug, Drop, Error)]
#[error("an input failed")]
pub struct InputFailed;

/// A write into a sink failed. It comes only where the sink's count of faults rose.
#[derive(Debug, Drop, Error)]
#[error("a sink failed")]
pub struct SinkFailed;

/// Inputs that are read by name.
///
/// Their meanings are which names they serve, what they hold under a name (none where they do not tell), and for
/// each name a count of faults, which never falls and stays at 2^64-1 once it is there.
pub trait Inputs {
    ghost served: { Self → List ℕ → Type 0 };

    ghost held: { Self → List ℕ → Option (List ℕ) };

    ghost faults: { Self → List ℕ → ℕ };

    /// Reads bytes of the input of this name, from the place `at` on (counted in bytes from 0, at most 33,554,432),
    /// into the front of the buffer, and answers how many. None for a buffer that has room means that the place is at or
    /// past the end, where the input tells what it holds. It fails only where the name's count of faults rose.
    fn read(&mut self, name: &str, at: u64, buf: &mut [u8]) -> Result<usize, InputFailed>
        requires served { served self.old name.now }
        requires near { at ≤ 33554432 }
        ensures within { IfOk result (λ count. count ≤ length buf.new) }
        ensures bytes { IfOk result (λ count. GivesFrom (held self.old name.now) at buf.new count) }
        ensures serves { (other : List ℕ) → served self.old other ↔ served self.new other }
        ensures holds { (other : List ℕ) → held self.new other ≡ held self.old other }
        ensures others { (other : List ℕ) → other ≢ name.now → faults self.new other ≡ faults self.old other }
        ensures cause { HasCause (faults self.old name.now) (faults self.new name.now) result };
}

/// A sink of bytes.
///
/// Its meanings are what it has taken (none where it does not tell), and a count of faults, which never falls and stays
/// at 2^64-1 once it is there.
pub trait Sink {
    ghost taken: { Self → Option (List ℕ) };

    ghost faults: { Self → ℕ };

    /// Takes bytes from the front of the piece, at least one of a piece that is not empty, and answers how many.
    /// It fails only where the count of faults rose, and has then taken nothing.
    fn write(&mut self, piece: &[u8]) -> Result<usize, SinkFailed>
        ensures within { IfOk result (λ count. count ≤ length piece.now) }
        ensures some { IfOk result (λ count. 0 < length piece.now → 0 < count) }
        ensures takes { IfOk result (λ count. Grows (taken self.old) (taken self.new) (take count piece.now)) }
        ensures nothing { OnErr result (Grows (taken self.old) (taken self.new) []) }
        ensures cause { HasCause (faults self.old) (faults self.new) result };
}
