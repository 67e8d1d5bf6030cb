//! What machine threads share, and what an event answers.
use ir_core::List;
use mem_model::{Memory, Trap};
use team_model::{Pair, Stand, Trapping};

/// What machine threads share.
#[derive(Drop)]
pub struct TeamShared {
    /// The memory, of which the capture area is a block.
    pub memory: Memory,
    /// How many heap blocks were made.
    pub heaps: u64,
    /// How each machine thread stands, in the order of their numbers.
    pub stands: List<Stand>,
    /// The work slot: the place of the published wrapper among the module's functions, or none for null.
    pub slot: Option<u32>,
    /// The trap that has ended the run.
    pub trapped: Option<Trapping>,
    /// The printed values in their order.
    pub prints: List<u64>,
    /// Which thread has made how many steps with each event, in the order of the events.
    pub history: List<Pair>,
}

/// What came of an event.
#[derive(Clone, Copy)]
pub enum Answer {
    /// The thread goes on, or has ended.
    Went,
    /// The thread waits at a barrier.
    Wait,
    Trapped(Trap),
}
