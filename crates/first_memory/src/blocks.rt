//! The blocks of the memory at the start of a run.
ghost use Rattle.std.specs.Prelude.{◌≡◌, IfOk, OnOk, None};
ghost use Rattle.std.specs.FinMap as fin;
ghost use Rattle.mem_model.specs.declared.memory.BlockName.TheVariants.{Arg as ArgBlock, Global as GlobalBlock};
ghost use Rattle.mem_model.specs.Memory.{with_block};
ghost use Rattle.mem_model.specs.Globals.{contents, with_globals};
ghost use Rattle.mem_model.specs.Launching as spec;
ghost use Rattle.mem_model.specs.Launching.{with_buffer, with_buffers};
ghost use Rattle.first_memory.specs.Blocks.{HasNoArgs, HasNoGlobals};

use crate::contents::{add_bytes, contents_of, number_of};
use ir_core::OutOfMemory;
use ir_tables::Indexed;
use mem_model::{Arg, BlockName, Launch, Memory};
use std::alloc::Global;

/// Puts a block for the argument at a place, where it is a buffer.
fn put_buffer(alloc: Global, memory: &mut Memory, at: usize, arg: &Arg) -> Result<(), OutOfMemory>
    requires { fin.get memory.old.blocks (ArgBlock at) ≡ None }
    ensures { OnOk result (memory.new ≡ with_buffer at arg.now memory.old) }
{
    match arg {
        Arg::Buffer(bytes) => {
            let name = BlockName::Arg(number_of(at)?);
            let mut block = Vec::new(alloc);
            add_bytes(&mut block, bytes.as_slice())?;
            memory.put_block(name, block, false)
        }
        Arg::Int(_) | Arg::Null => Ok(()),
    }
}

/// Puts a block for each argument that is a buffer.
fn put_buffers(alloc: Global, memory: &mut Memory, args: &[Arg]) -> Result<(), OutOfMemory>
    requires fresh { HasNoArgs memory.old 0 }
    ensures { OnOk result (memory.new ≡ with_buffers 0 args.now memory.old) }
{
    for (at, arg) in args.iter().enumerate() {
        put_buffer(alloc, memory, at, arg)?;
    }
    Ok(())
}

/// Puts a block for the global at a place.
fn put_global(
    alloc: Global,
    m: &Indexed,
    memory: &mut Memory,
    at: usize,
    global: &ir_core::Global,
) -> Result<(), OutOfMemory>
    requires { fin.get memory.old.blocks (GlobalBlock at) ≡ None }
    ensures { OnOk result (memory.new ≡ with_block memory.old (GlobalBlock at) global.now.constant (contents m.now global.now.ty global.now.init)) }
{
    let name = BlockName::Global(number_of(at)?);
    memory.put_block(name, contents_of(alloc, m, global)?, global.constant)
}

/// Puts a block for each global.
fn put_globals(alloc: Global, m: &Indexed, memory: &mut Memory) -> Result<(), OutOfMemory>
    requires fresh { HasNoGlobals memory.old 0 }
    ensures { OnOk result (memory.new ≡ with_globals m.now 0 m.now.globals memory.old) }
{
    for (at, global) in m.module().globals.as_slice().iter().enumerate() {
        put_global(alloc, m, memory, at, global)?;
    }
    Ok(())
}

/// The memory at the start of a run of a launch: a block for each argument that is a buffer, and a block for each global, which holds its
/// initializer by the layout of its type, with zero bytes as padding.
///
/// # Errors
///
/// For want of memory.
pub fn first_memory(alloc: Global, m: &Indexed, l: &Launch) -> Result<Memory, OutOfMemory>
    ensures { IfOk result (λ memory. memory ≡ spec.first_memory m.now l.now) }
{
    let mut memory = Memory::new(alloc);
    put_buffers(alloc, &mut memory, l.args.as_slice())?;
    put_globals(alloc, m, &mut memory)?;
    Ok(memory)
}
