//! What a step answers, and how a state stands.
use thiserror::Error;

/// Why a step can't be made. A trap ends the whole run.
#[derive(Clone, Copy)]
pub enum Trap {
    /// A result doesn't fit, and a flag says that it does.
    Overflow,
    Division,
    Shift,
    /// A pointer is a number, or names a block that isn't there.
    NoBlock,
    Released,
    OutOfBlock,
    /// A write to a constant.
    Constant,
    /// A stack address would leave its thread.
    StackLeak,
    NotStack,
    NotNumber,
    TooLarge,
    Unreachable,
    /// A register is read before it is assigned.
    Unassigned,
}

/// A kind of barrier. Unlike kinds never open each other.
#[derive(Clone, Copy)]
pub enum Barrier {
    /// `__kmpc_barrier` in a region: it opens when all region threads wait at it.
    Explicit,
    /// At the ends of a fork: it opens when every machine thread that has not ended waits at it.
    Team,
    /// At the end of a fork in SPMD mode: it opens when all machine threads wait at it.
    Join,
    /// Round a guarded instruction in SPMD mode: likewise.
    Guard,
}

/// How a state stands.
#[derive(Clone, Copy)]
pub enum End {
    Running,
    Ended,
    Stuck,
    /// A thread's step at this line has trapped.
    Trapped { thread: u32, line: u32, trap: Trap },
}

/// What a step was.
#[derive(Clone, Copy)]
pub enum Moved {
    Local,
    Event,
    Trapped,
}

/// The thread can't make a step in this state.
#[derive(Debug, Drop, Error)]
#[error("the thread is not ready")]
pub struct NotReady;
