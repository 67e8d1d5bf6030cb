//! The instructions of a function and of a module, in the order of the text.
ghost use Rattle.std.specs.Prelude.{◌≡◌, ◌++◌, map, IfOk, OnOk};
ghost use Rattle.std.specs.List.{flat_map};
ghost use Rattle.shapes.specs.Facts as spec;
ghost use Rattle.shapes.specs.Insts.{insts_seen, block_insts};

use ir_core::{Block, Function, Inst, List, Module, OutOfMemory};
use std::alloc::Global;

fn add_block<'a>(insts: &mut List<&'a Inst>, block: &'a Block) -> Result<(), OutOfMemory>
    ensures { OnOk result (insts_seen insts.new ≡ insts_seen insts.old ++ block_insts block.now) }
{
    for inst in block.insts.as_slice() {
        insts.push(inst)?;
    }
    Ok(())
}

fn add_function<'a>(insts: &mut List<&'a Inst>, f: &'a Function) -> Result<(), OutOfMemory>
    ensures { OnOk result (insts_seen insts.new ≡ insts_seen insts.old ++ spec.insts_of f.now) }
{
    for block in f.blocks.as_slice() {
        add_block(insts, block)?;
    }
    Ok(())
}

/// The instructions of a function. `OutOfMemory` only where no memory was left.
pub fn insts_of<'a>(alloc: Global, f: &'a Function) -> Result<List<&'a Inst>, OutOfMemory>
    ensures { IfOk result (λ insts. insts_seen insts ≡ spec.insts_of f.now) }
{
    let mut insts = List::new(alloc);
    add_function(&mut insts, f)?;
    Ok(insts)
}

/// The instructions of a module. `OutOfMemory` only where no memory was left.
pub fn insts_in<'a>(alloc: Global, m: &'a Module) -> Result<List<&'a Inst>, OutOfMemory>
    ensures { IfOk result (λ insts. insts_seen insts ≡ spec.insts_in m.now) }
{
    let mut insts = List::new(alloc);
    for f in m.functions.as_slice() {
        add_function(&mut insts, f)?;
    }
    Ok(insts)
}
