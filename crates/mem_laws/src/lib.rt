//! Laws of memory, of a thread's next step and of regions, of which each is a check of the definitions: a function whose contract is the
//! law. They take no code of the program.
#![tactic(auto)]

mod memory_laws;
mod region_laws;
mod step_laws;

pub use memory_laws::{
    address_is_no_number, allocate_goes, allocate_large, constant_traps, leak_traps, load_fits,
    load_reads, missing_traps, new_block, new_block_apart, new_bytes, number_traps,
    other_block_stays, other_bytes_stay, outside_traps, release_apart, release_goes,
    release_heap_only, release_missing, release_part, release_then_traps, release_twice,
    released_traps, store_goes, store_keeps_blocks, store_then_load, tells_blocks, tells_pointers,
    word_comes_back,
};
pub use region_laws::{captured_words, formed_words, regions};
pub use step_laws::{atomic_changes, branches, calls, stack_blocks};
