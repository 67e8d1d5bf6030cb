//! Names that a function doesn't have yet, and the names of a machine's blocks and registers.
ghost use Rattle.std.specs.Prelude.{◌≡◌, ◌++◌, map, IfOk, OnOk, length, ℕ, List};
ghost use Rattle.std.specs.List.{flat_map};
ghost use Rattle.ir_core.specs.Places.{Name as NameData, param_name, inst_results};
ghost use Rattle.ir_core.specs.Wrappers.{is_in};
ghost use Rattle.ir_tables.specs.Names.{names_seen};
ghost use Rattle.state_machine.specs.Fresh.{block_names, taken_names, numbered, least_free, fresh, IsTaken};
ghost use Rattle.state_machine.specs.Machine.{names_beside};

use ir_core::{Block, Function, Inst, List, Name, OutOfMemory, Param};
use ir_tables::{NameTable, place, table_of};
use itoa::Buffer;
use std::alloc::Global;

/// The names of a function's parameters, blocks and registers.
#[derive(Drop)]
pub struct Taken {
    table: NameTable,
    /// How many names were given, those that stand twice with them.
    count: usize,
}

/// The names of those blocks and registers of a machine that stand once.
#[derive(Drop)]
pub struct Names {
    pub begin: Name,
    pub activity: Name,
    pub none: Name,
    pub end: Name,
    pub wait: Name,
    pub address: Name,
    pub active: Name,
    pub work: Name,
    pub done: Name,
}

fn add_params<'a>(names: &mut List<&'a [u8]>, params: &'a [Param]) -> Result<(), OutOfMemory>
    ensures { OnOk result (names_seen names.new ≡ names_seen names.old ++ map param_name params.now) }
{
    for param in params {
        names.push(param.name.as_slice())?;
    }
    Ok(())
}

fn add_result<'a>(names: &mut List<&'a [u8]>, inst: &'a Inst) -> Result<(), OutOfMemory>
    ensures { OnOk result (names_seen names.new ≡ names_seen names.old ++ inst_results inst.now) }
{
    if let Some(name) = &inst.result {
        names.push(name.as_slice())?;
    }
    Ok(())
}

fn add_results<'a>(names: &mut List<&'a [u8]>, insts: &'a [Inst]) -> Result<(), OutOfMemory>
    ensures { OnOk result (names_seen names.new ≡ names_seen names.old ++ flat_map inst_results insts.now) }
{
    for inst in insts {
        add_result(names, inst)?;
    }
    Ok(())
}

fn add_block<'a>(names: &mut List<&'a [u8]>, block: &'a Block) -> Result<(), OutOfMemory>
    ensures { OnOk result (names_seen names.new ≡ names_seen names.old ++ block_names block.now) }
{
    names.push(block.name.as_slice())?;
    add_results(names, block.insts.as_slice())
}

fn add_blocks<'a>(names: &mut List<&'a [u8]>, blocks: &'a [Block]) -> Result<(), OutOfMemory>
    ensures { OnOk result (names_seen names.new ≡ names_seen names.old ++ flat_map block_names blocks.now) }
{
    for block in blocks {
        add_block(names, block)?;
    }
    Ok(())
}

/// The names that a function has.
pub fn taken_of(alloc: Global, f: &Function) -> Result<Taken, OutOfMemory>
    ensures { IfOk result (λ t. IsTaken (taken_names f.now) t) }
{
    let mut names = List::new(alloc);
    add_params(&mut names, f.params.as_slice())?;
    add_blocks(&mut names, f.blocks.as_slice())?;
    Ok(Taken {
        table: table_of(alloc, names.as_slice())?,
        count: names.len(),
    })
}

fn is_taken(taken: &Taken, name: &[u8]) -> bool
    ensures { (names : List NameData) → IsTaken names taken.now → result ≡ is_in names name.now }
{
    place(&taken.table, name).is_some()
}

/// A stem with a number behind a point.
pub fn numbered(alloc: Global, stem: &[u8], n: usize) -> Result<Name, OutOfMemory>
    ensures { IfOk result (λ x. x ≡ numbered stem.now n) }
{
    let mut digits = Buffer::new();
    let mut bytes = Vec::from_slice(alloc, stem)?;
    bytes.extend_from_slice(b".")?;
    bytes.extend_from_slice(digits.format(n).as_bytes())?;
    Ok(Name::from_slice(alloc, bytes.as_slice())?)
}

// The stem with the least number from 1 on with which it is free.
fn least_free(alloc: Global, taken: &Taken, stem: &[u8]) -> Result<Name, OutOfMemory>
    ensures { (names : List NameData) → IsTaken names taken.now → IfOk result (λ x. x ≡ numbered stem.now (least_free names stem.now 1 (length names))) }
{
    for n in 0..taken.count {
        let name = numbered(alloc, stem, n + 1)?;
        if !is_taken(taken, name.as_slice()) {
            return Ok(name);
        }
    }
    // There is no room for so many names that this number doesn't fit.
    let last = taken.count.checked_add(1).ok_or(OutOfMemory)?;
    numbered(alloc, stem, last)
}

/// The stem, or where that is taken the stem with a point and the least free number from 1 on.
pub fn fresh(alloc: Global, taken: &Taken, stem: &[u8]) -> Result<Name, OutOfMemory>
    ensures { (names : List NameData) → IsTaken names taken.now → IfOk result (λ x. x ≡ fresh names stem.now) }
{
    if is_taken(taken, stem) {
        least_free(alloc, taken, stem)
    } else {
        Ok(Name::from_slice(alloc, stem)?)
    }
}

/// The names of the machine of a function with these names.
pub fn names_of(alloc: Global, taken: &Taken) -> Result<Names, OutOfMemory>
    ensures { (names : List NameData) → IsTaken names taken.now → IfOk result (λ n. n ≡ names_beside names) }
{
    Ok(Names {
        begin: fresh(alloc, taken, b"worker.begin")?,
        activity: fresh(alloc, taken, b"worker.activity")?,
        none: fresh(alloc, taken, b"worker.none")?,
        end: fresh(alloc, taken, b"worker.end")?,
        wait: fresh(alloc, taken, b"worker.wait")?,
        address: fresh(alloc, taken, b"worker.fn.addr")?,
        active: fresh(alloc, taken, b"worker.active")?,
        work: fresh(alloc, taken, b"worker.fn")?,
        done: fresh(alloc, taken, b"worker.done")?,
    })
}
