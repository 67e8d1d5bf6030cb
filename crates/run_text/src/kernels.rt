//! Kernels by their names.
ghost use Rattle.std.specs.Prelude.{◌≡◌, None, Some, IfOk, MatchOption, ◌&&◌};
ghost use Rattle.std.specs.List.{flat_map};
ghost use Rattle.std.specs.Str.{bytes_eq};
ghost use Rattle.ir_core.specs.EntryPoints.{target_init};
ghost use Rattle.ir_core.specs.Text.{name_text};
ghost use Rattle.ir_core.specs.Wrappers.{is_in, inst_callees, block_callees};
ghost use Rattle.mem_model.specs.Launching.{is_kernel};
ghost use Rattle.run_text.specs.Calls.{block_calls, any_block};
ghost use Rattle.run_text.specs.LaunchText.{first_function, kernel_named};

use crate::names::write_name;
use crate::writer::Writer;
use ir_core::{Block, Function, Inst, Kind, Module, Name, OutOfMemory, Value};
use std::alloc::Global;

fn calls_init(inst: &Inst) -> bool
    ensures { result ≡ is_in (inst_callees inst.now) target_init }
{
    match &inst.kind {
        Kind::Call {
            callee: Value::Global(name),
            ..
        } => b"__kmpc_target_init".as_slice() == name.as_slice(),
        _ => false,
    }
}

fn any_calls_init(insts: &[Inst]) -> bool
    ensures { result ≡ is_in (flat_map inst_callees insts.now) target_init }
{
    for inst in insts {
        if calls_init(inst) {
            return true;
        }
    }
    false
}

fn block_calls_init(block: &Block) -> bool
    ensures { result ≡ block_calls block.now }
{
    any_calls_init(block.insts.as_slice())
}

fn any_block_calls_init(blocks: &[Block]) -> bool
    ensures { result ≡ any_block block_calls blocks.now }
{
    for block in blocks {
        if block_calls_init(block) {
            return true;
        }
    }
    false
}

/// A kernel is a function that calls `__kmpc_target_init`.
fn is_kernel(f: &Function) -> bool
    ensures { result ≡ is_kernel f.now }
{
    any_block_calls_init(f.blocks.as_slice())
}

/// Whether a name has this spelling.
fn is_spelled(alloc: Global, name: &Name, spelling: &[u8]) -> Result<bool, OutOfMemory>
    ensures { IfOk result (λ b. b ≡ bytes_eq (name_text name.now) spelling.now) }
{
    let mut text = Writer::new(alloc);
    write_name(&mut text, name)?;
    Ok(text.into_list().as_slice() == spelling)
}

/// Whether a function is a kernel whose name has this spelling.
fn is_kernel_spelled(alloc: Global, f: &Function, spelling: &[u8]) -> Result<bool, OutOfMemory>
    ensures { IfOk result (λ b. b ≡ (is_kernel f.now && bytes_eq (name_text f.now.name) spelling.now)) }
{
    if is_kernel(f) {
        is_spelled(alloc, &f.name, spelling)
    } else {
        Ok(false)
    }
}

/// The kernel whose name has this spelling in the canonical text, without the `@`.
pub(crate) fn kernel_named<'m>(
    alloc: Global,
    m: &'m Module,
    spelling: &[u8],
) -> Result<Option<&'m Function>, OutOfMemory>
    ensures { IfOk result (λ o. MatchOption o (kernel_named m.now spelling.now ≡ None) (λ f. kernel_named m.now spelling.now ≡ Some f.now)) }
{
    for f in m.functions.as_slice() {
        if is_kernel_spelled(alloc, f, spelling)? {
            return Ok(Some(f));
        }
    }
    Ok(None)
}
