//! How far a call has come in an instruction that takes several steps.

/// Where a worker stands in the loop that the runtime itself runs in `__kmpc_target_init`.
#[derive(Clone, Copy)]
pub enum LoopPoint {
    /// It waits to be woken.
    Sleeps,
    /// It asks for the published work.
    Asks,
    /// It was given the place of a wrapper or null, and makes so many steps before the one that acts on it.
    Considers(u32, Option<u32>),
    /// The wrapper runs.
    Works,
    /// The wrapper has returned.
    HasWorked,
    /// The region ends.
    EndsRegion,
    /// The region has ended.
    HasEnded,
    /// It waits for the others.
    Rests,
    /// All have come, and the next turn is due.
    HasRested,
}

/// How far a call has come in the instruction at which it stands.
#[derive(Clone, Copy)]
pub enum Phase {
    /// The instruction is about to begin.
    Begins,
    /// A fork of a generic kernel: the work is published.
    Published,
    /// A fork of a generic kernel: the workers are awake.
    Woken,
    /// A fork of an SPMD kernel: all threads have come to it.
    Gathered,
    /// A fork of an SPMD kernel: the region function runs.
    InRegion,
    /// A fork of an SPMD kernel: the region function has returned.
    HasLeft,
    /// The runtime's own loop.
    Loops(LoopPoint),
}
