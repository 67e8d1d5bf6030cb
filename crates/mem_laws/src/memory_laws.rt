//! Laws of the memory.
ghost use Rattle.mem_model.specs.MemoryLaws.{NumberTraps, MissingTraps, ReleasedTraps, OutsideTraps, ConstantTraps, LeakTraps, AllocateLarge, ReleaseHeapOnly, ReleaseMissing, ReleaseTwice, ReleasePart, WordComesBack, StoreThenLoad, OtherBlockStays, OtherBytesStay, StoreKeepsBlocks, LoadReads, StoreGoes, AllocateGoes, NewBlock, NewBytes, NewBlockApart, ReleaseGoes, ReleaseThenTraps, ReleaseApart, SameBlock, SamePointer, LoadFits, AddressIsNoNumber};

/// A load and a store at a pointer that is a number trap.
pub fn number_traps()
    ensures { NumberTraps }
{}

/// A load and a store at a block that isn't there trap.
pub fn missing_traps()
    ensures { MissingTraps }
{}

/// A released block traps, whatever the offset.
pub fn released_traps()
    ensures { ReleasedTraps }
{}

/// Bytes that don't lie whole in their block trap, also where it is constant.
pub fn outside_traps()
    ensures { OutsideTraps }
{}

/// A store to a constant traps, also of a stack address.
pub fn constant_traps()
    ensures { ConstantTraps }
{}

/// A stack address traps where all other tests pass.
pub fn leak_traps()
    ensures { LeakTraps }
{}

/// No block is above the limit.
pub fn allocate_large()
    ensures { AllocateLarge }
{}

/// Only a heap block is released.
pub fn release_heap_only()
    ensures { ReleaseHeapOnly }
{}

/// A block is released only if it is there.
pub fn release_missing()
    ensures { ReleaseMissing }
{}

/// A block is released once.
pub fn release_twice()
    ensures { ReleaseTwice }
{}

/// A block is released whole.
pub fn release_part()
    ensures { ReleasePart }
{}

/// The bytes of a word hold that word.
pub fn word_comes_back()
    ensures { WordComesBack }
{}

/// A load behind a store of the same cell gives the word that was stored.
pub fn store_then_load()
    ensures { StoreThenLoad }
{}

/// A store changes no load of another block.
pub fn other_block_stays()
    ensures { OtherBlockStays }
{}

/// A store changes no load of other bytes of its block.
pub fn other_bytes_stay()
    ensures { OtherBytesStay }
{}

/// A store changes no block's size, nor whether it is constant or released.
pub fn store_keeps_blocks()
    ensures { StoreKeepsBlocks }
{}

/// Where all tests pass, a load reads the block's bytes, also of a constant.
pub fn load_reads()
    ensures { LoadReads }
{}

/// Where all tests pass, a store goes through.
pub fn store_goes()
    ensures { StoreGoes }
{}

/// A block up to the limit is made.
pub fn allocate_goes()
    ensures { AllocateGoes }
{}

/// A new block has its size, and is not released.
pub fn new_block()
    ensures { NewBlock }
{}

/// All bytes of a new block are zero.
pub fn new_bytes()
    ensures { NewBytes }
{}

/// A new block changes no load of another.
pub fn new_block_apart()
    ensures { NewBlockApart }
{}

/// A heap block that is there is released, once and whole.
pub fn release_goes()
    ensures { ReleaseGoes }
{}

/// Every load and store of a released block traps.
pub fn release_then_traps()
    ensures { ReleaseThenTraps }
{}

/// A load of another block than the released one gives what it gave.
pub fn release_apart()
    ensures { ReleaseApart }
{}

/// The test on block names tells them apart.
pub fn tells_blocks()
    ensures { SameBlock }
{}

/// The test on pointers tells them apart.
pub fn tells_pointers()
    ensures { SamePointer }
{}

/// An integer that is loaded is below 2 to its width.
pub fn load_fits()
    ensures { LoadFits }
{}

/// Where an address was stored, no integer is loaded.
pub fn address_is_no_number()
    ensures { AddressIsNoNumber }
{}
