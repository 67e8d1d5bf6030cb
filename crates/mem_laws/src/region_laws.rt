//! Laws of regions.
ghost use Rattle.mem_laws.specs.RegionLaws.{NotStackTraps, NoneIsRead, LeakBeforeLater, AddressUnderWidth, EntryTraps, ForkTellsWords, BarrierOutside, RegionBlocks, RegionReturns};

/// A fork whose words stand in no stack traps, where there are any. A stack address among the words traps before any word behind
/// it is looked at.
pub fn captured_words()
    ensures elsewhere { NotStackTraps }
    ensures none { NoneIsRead }
    ensures leak { LeakBeforeLater }
{}

/// An address under a width traps where the region function is entered, and not where a fork tells its words.
pub fn formed_words()
    ensures width { AddressUnderWidth }
    ensures entry { EntryTraps }
    ensures told { ForkTellsWords }
{}

/// The region function begins on the thread's number and 0, its return leaves the region, and outside of a region a barrier is
/// nothing.
pub fn regions()
    ensures barrier { BarrierOutside }
    ensures blocks { RegionBlocks }
    ensures back { RegionReturns }
{}
