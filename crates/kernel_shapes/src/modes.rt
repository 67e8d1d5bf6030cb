//! In which mode a kernel says that it runs: the operand of its init call, and the global that is named after it.
ghost use Rattle.std.specs.Prelude.{◌≡◌, ◌++◌, codes, IfOk};
ghost use Rattle.std.specs.List.{flat_map};
ghost use Rattle.std.specs.Option.{option_copied};
ghost use Rattle.ir_core.specs.declared.module.Module.{Module as ModuleData};
ghost use Rattle.ir_core.specs.NameRefusals.{least};
ghost use Rattle.name_uses.specs.Tables.{AreUses};
ghost use Rattle.shapes.specs.Insts.{insts_seen};
ghost use Rattle.shapes.specs.KernelShape as spec;

use ir_core::{
    Construct, Function, Global as Variable, Init, Inst, Name, OutOfMemory, Refusal, Rtl,
};
use ir_tables::Indexed;
use name_tables::{earlier, is_int_of};
use name_uses::Uses;
use shape_facts::{has_constant, is_call_of, rule};
use std::alloc::Global;

/// The name of the global that says in which mode a kernel runs.
fn exec_mode_name(alloc: Global, f: &Function) -> Result<Name, OutOfMemory>
    ensures { IfOk result (λ name. name ≡ spec.exec_mode_name f.now) }
{
    let mut bytes = Vec::from_slice(alloc, f.name.as_slice())?;
    bytes.extend_from_slice(b"_exec_mode")?;
    Ok(Name::from_slice(alloc, bytes.as_slice())?)
}

/// The global that says in which mode a kernel runs, if the module has it.
pub fn exec_mode<'a>(
    alloc: Global,
    m: &'a Indexed,
    f: &Function,
) -> Result<Option<&'a Variable>, OutOfMemory>
    ensures { IfOk result (λ g. option_copied g ≡ spec.exec_mode m.now f.now) }
{
    let name = exec_mode_name(alloc, f)?;
    match m.global(&name) {
        None => Ok(None),
        Some(at) => Ok(m.module().globals.get(at)),
    }
}

fn holds_number(number: u64, init: &Option<Init>) -> bool
    ensures { result ≡ spec.holds_number number init.now }
{
    match init {
        Some(Init::Int(found)) => *found == number,
        _ => false,
    }
}

/// What is told of an init call that asks for SPMD mode.
fn spmd_call(inst: &Inst) -> Option<Refusal>
    ensures { result ≡ least (spec.spmd_call inst.now) }
{
    let asks = is_call_of(Rtl::TargetInit, inst) && has_constant(inst, 1, 2);
    rule(Construct::SpmdInput, !asks, inst.line)
}

/// What is told of a global that says SPMD mode.
fn spmd_global(global: Option<&Variable>) -> Option<Refusal>
    ensures { result ≡ least (spec.spmd_global (option_copied global.entry)) }
{
    match global {
        None => None,
        Some(global) => rule(
            Construct::SpmdInput,
            !holds_number(2, &global.init),
            global.line,
        ),
    }
}

/// What is told of a kernel with these instructions and this global, where it is one in SPMD mode.
pub fn of_spmd(global: Option<&Variable>, insts: &[&Inst]) -> Option<Refusal>
    ensures { result ≡ least (flat_map spec.spmd_call (insts_seen insts.now) ++ spec.spmd_global (option_copied global.entry)) }
{
    let mut found = None;
    for inst in insts {
        found = earlier(found, spmd_call(inst));
    }
    let behind = spmd_global(global);
    earlier(found, behind)
}

/// What is told of the global of a kernel in generic mode.
pub fn of_exec_mode(uses: &Uses, global: Option<&Variable>) -> Option<Refusal>
    ensures { (m : ModuleData) → AreUses m uses.now → result ≡ least (spec.of_exec_mode m (option_copied global.entry)) }
{
    match global {
        None => None,
        Some(global) => rule(
            Construct::KernelShape,
            is_int_of(8, &global.ty)
                && global.constant
                && holds_number(1, &global.init)
                && !uses.is_used(&global.name),
            global.line,
        ),
    }
}
