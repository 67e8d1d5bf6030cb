//! A kernel with its machine.
ghost use Rattle.std.specs.Prelude.{◌≡◌, ◌++◌, IfOk, OnOk, map, List};
ghost use Rattle.ir_core.specs.MachineOff.{block_off};
ghost use Rattle.ir_core.specs.Places.{Name as NameData};
ghost use Rattle.state_machine.specs.Fresh.{taken_names, IsTaken};
ghost use Rattle.state_machine.specs.Machine as spec;

use crate::blocks::add_machine;
use crate::insts::gives;
use crate::names::{Names, Taken, names_of, taken_of};
use crate::off::{block_off, kind_off};
use crate::plan::Machine;
use ir_core::{Block, Copies, Function, Inst, Kind, List, Name, OutOfMemory, Ty};
use std::alloc::Global;

// Where a branch that went to the exit goes to.
fn target_to(alloc: Global, exit: &Name, begin: &Name, to: Name) -> Result<Name, OutOfMemory>
    ensures { IfOk result (λ x. x ≡ spec.target_to exit.now begin.now to) }
{
    if to.as_slice() == exit.as_slice() {
        begin.copy(alloc)
    } else {
        Ok(to)
    }
}

fn kind_to(alloc: Global, exit: &Name, begin: &Name, kind: Kind) -> Result<Kind, OutOfMemory>
    ensures { IfOk result (λ k. k ≡ spec.kind_to exit.now begin.now kind) }
{
    match kind {
        Kind::CondBr { cond, yes, no } => Ok(Kind::CondBr {
            cond,
            yes: target_to(alloc, exit, begin, yes)?,
            no: target_to(alloc, exit, begin, no)?,
        }),
        kind => Ok(kind),
    }
}

fn inst_to(alloc: Global, exit: &Name, begin: &Name, inst: &Inst) -> Result<Inst, OutOfMemory>
    ensures { IfOk result (λ i. i ≡ spec.inst_to exit.now begin.now inst.now) }
{
    let kind = kind_off(alloc, &inst.kind)?;
    Ok(Inst {
        result: inst.result.copy(alloc)?,
        kind: kind_to(alloc, exit, begin, kind)?,
        line: inst.line,
    })
}

fn add_entry(
    out: &mut List<Inst>,
    alloc: Global,
    exit: &Name,
    begin: &Name,
    insts: &[Inst],
) -> Result<(), OutOfMemory>
    ensures { OnOk result (out.new ≡ out.old ++ map (spec.inst_to exit.now begin.now) insts.now) }
{
    for inst in insts {
        out.push(inst_to(alloc, exit, begin, inst)?)?;
    }
    Ok(())
}

// The first block of a kernel.
fn entry_with(
    alloc: Global,
    line: u32,
    names: &Names,
    exit: &Name,
    block: &Block,
) -> Result<Block, OutOfMemory>
    ensures { IfOk result (λ b. b ≡ spec.entry_with line names.now exit.now block.now) }
{
    let room = Kind::Alloca {
        ty: Ty::Ptr,
        align: 0,
    };
    let mut insts = List::new(alloc);
    insts.push(gives(alloc, line, &names.address, room)?)?;
    add_entry(
        &mut insts,
        alloc,
        exit,
        &names.begin,
        block.insts.as_slice(),
    )?;
    Ok(Block {
        name: block.name.copy(alloc)?,
        insts,
        line: block.line,
    })
}

fn add_blocks(out: &mut List<Block>, alloc: Global, blocks: &[Block]) -> Result<(), OutOfMemory>
    ensures { OnOk result (out.new ≡ out.old ++ map block_off blocks.now) }
{
    for block in blocks {
        out.push(block_off(alloc, block)?)?;
    }
    Ok(())
}

fn blocks_with(
    alloc: Global,
    taken: &Taken,
    machine: &Machine,
    blocks: &[Block],
) -> Result<List<Block>, OutOfMemory>
    ensures { (all : List NameData) → IsTaken all taken.now → IfOk result (λ bs. bs ≡ spec.blocks_with all machine.now blocks.now) }
{
    let mut out = List::new(alloc);
    if let [first, more @ ..] = blocks {
        let names = names_of(alloc, taken)?;
        out.push(entry_with(alloc, machine.line, &names, &machine.exit, first)?)?;
        add_blocks(&mut out, alloc, more)?;
        add_machine(&mut out, alloc, taken, &names, machine)?;
    }
    Ok(out)
}

/// The kernel with its machine.
pub fn kernel_with(alloc: Global, machine: &Machine, f: &Function) -> Result<Function, OutOfMemory>
    ensures { IfOk result (λ g. g ≡ spec.kernel_with machine.now f.now) }
{
    let taken = taken_of(alloc, f)?;
    Ok(Function {
        name: f.name.copy(alloc)?,
        words: f.words.copy(alloc)?,
        ret: f.ret.copy(alloc)?,
        params: f.params.copy(alloc)?,
        groups: f.groups.copy(alloc)?,
        blocks: blocks_with(alloc, &taken, machine, f.blocks.as_slice())?,
        line: f.line,
    })
}
