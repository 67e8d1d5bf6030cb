//! What a call answers in place of a value.
ghost use Rattle.std.specs.Prelude.{◌≡◌};

use std::alloc::AllocError;
use thiserror::Error;

/// There was not enough memory. It is the only answer of a call that refuses nothing.
#[derive(Debug, Drop, Error)]
#[error("out of memory")]
pub struct OutOfMemory;

impl From<AllocError> for OutOfMemory {
    fn from(_: AllocError) -> OutOfMemory {
        OutOfMemory
    }
}

/// Why a call that can refuse has given nothing: it refused, or there was not enough memory.
#[derive(Debug, Drop)]
pub enum Or<E> {
    Refused(E),
    Memory,
}

impl<E> From<AllocError> for Or<E> {
    ghost use Rattle.ir_core.specs.declared.answers.Or.TheVariants.{Memory};

    ghost from_gives = { λ _ e. e ≡ Memory };

    fn from(_: AllocError) -> Or<E> {
        Or::Memory
    }
}

impl<E> From<OutOfMemory> for Or<E> {
    ghost use Rattle.ir_core.specs.declared.answers.Or.TheVariants.{Memory};

    ghost from_gives = { λ _ e. e ≡ Memory };

    fn from(_: OutOfMemory) -> Or<E> {
        Or::Memory
    }
}
