//! The blocks of a memory: those whose names are counted lie at their numbers, all others in a tree by name.
ghost use Rattle.std.specs.Prelude.{◌≡◌, ◌<◌, [], length, MatchResult, OnOk};
ghost use Rattle.std.specs.Option.{option_copied, option_copied_mut};
ghost use Rattle.std.specs.Borrow.{sem};
ghost use Rattle.mem_model.specs.Rows.{IsEmpty, in_slots, block_in, Puts, SameSlots, HasPut, SameBlocks, LendsSlot, LendsBlock};

use crate::block::Block;
use crate::memory::BlockName;
use ir_core::OutOfMemory;
use std::alloc::Global;
use std::collections::BTreeMap;

/// The blocks of one kind, each at its number. A row takes memory for all numbers up to its greatest.
#[derive(Drop)]
struct Row {
    slots: Vec<Option<Block>>,
}

impl Row {
    /// A row without blocks.
    fn new(alloc: Global) -> Row
        ensures { result.slots.items ≡ [] }
    {
        Row {
            slots: Vec::new(alloc),
        }
    }

    /// The block of a number.
    fn get(&self, number: u64) -> Option<&Block>
        ensures { option_copied result ≡ in_slots self.now.slots.items number }
    {
        self.slots.get(number as usize)?.as_ref()
    }

    /// The block of a number, to change it.
    fn get_mut(&mut self, number: u64) -> Option<&mut Block>
        ensures* writes_back { sem 𝓛 (LendsSlot self.entry number result) }
        ensures value { option_copied_mut result ≡ in_slots self.old.slots.items number }
    {
        let slot = self.slots.get_mut(number as usize)?;
        slot.as_mut()
    }

    /// Makes the row reach up to a number. For want of memory it may reach less far.
    fn reach(&mut self, number: usize) -> Result<(), OutOfMemory>
        ensures reaches { OnOk result (number < length self.new.slots.items) }
        ensures same { SameSlots self.old.slots.items self.new.slots.items }
    {
        while self.slots.len() <= number {
            if self.slots.push(None).is_err() {
                return Err(OutOfMemory);
            }
        }
        Ok(())
    }

    /// Puts a block at a number, or for want of memory nowhere.
    fn insert(&mut self, number: u64, block: Block) -> Result<(), OutOfMemory>
        ensures { MatchResult result (λ _. Puts self.old.slots.items number block self.new.slots.items) (λ _. SameSlots self.old.slots.items self.new.slots.items) }
    {
        self.reach(number as usize)?;
        self.slots[number as usize] = Some(block);
        Ok(())
    }
}

/// The blocks of a memory. A counted one is found in the same time, however many there are.
#[derive(Drop)]
pub(crate) struct Blocks {
    args: Row,
    globals: Row,
    heap: Row,
    others: BTreeMap<BlockName, Block>,
}

impl Blocks {
    /// No blocks.
    pub(crate) fn new(alloc: Global) -> Blocks
        ensures { IsEmpty result }
    {
        Blocks {
            args: Row::new(alloc),
            globals: Row::new(alloc),
            heap: Row::new(alloc),
            others: BTreeMap::new(alloc),
        }
    }

    /// The block of a name.
    pub(crate) fn get(&self, name: BlockName) -> Option<&Block>
        ensures { option_copied result ≡ block_in self.now name }
    {
        match name {
            BlockName::Arg(number) => self.args.get(u64::from(number)),
            BlockName::Global(number) => self.globals.get(u64::from(number)),
            BlockName::Heap(number) => self.heap.get(number),
            BlockName::Stack(..) | BlockName::Captures | BlockName::Code(_) => {
                self.others.get(&name)
            }
        }
    }

    /// The block of a name, to change it.
    pub(crate) fn get_mut(&mut self, name: BlockName) -> Option<&mut Block>
        ensures* writes_back { sem 𝓛 (LendsBlock self.entry name result) }
        ensures value { option_copied_mut result ≡ block_in self.old name }
    {
        match name {
            BlockName::Arg(number) => self.args.get_mut(u64::from(number)),
            BlockName::Global(number) => self.globals.get_mut(u64::from(number)),
            BlockName::Heap(number) => self.heap.get_mut(number),
            BlockName::Stack(..) | BlockName::Captures | BlockName::Code(_) => {
                self.others.get_mut(&name)
            }
        }
    }

    /// Puts a block under a name, or for want of memory nowhere.
    pub(crate) fn insert(&mut self, name: BlockName, block: Block) -> Result<(), OutOfMemory>
        ensures { MatchResult result (λ _. HasPut self.old name block self.new) (λ _. SameBlocks self.old self.new) }
    {
        match name {
            BlockName::Arg(number) => self.args.insert(u64::from(number), block),
            BlockName::Global(number) => self.globals.insert(u64::from(number), block),
            BlockName::Heap(number) => self.heap.insert(number, block),
            BlockName::Stack(..) | BlockName::Captures | BlockName::Code(_) => {
                match self.others.insert(name, block) {
                    Ok(_) => Ok(()),
                    Err(_) => Err(OutOfMemory),
                }
            }
        }
    }
}
