//! What is refused of the kernels of a module.
ghost use Rattle.std.specs.Prelude.{◌≡◌, length, IfOk};
ghost use Rattle.std.specs.List.{flat_map, filter, list_any};
ghost use Rattle.ir_core.specs.declared.module.Module.{Module as ModuleData};
ghost use Rattle.ir_core.specs.NameRefusals.{least};
ghost use Rattle.name_uses.specs.Tables.{AreUses};
ghost use Rattle.shapes.specs.Facts.{insts_of, is_call_of as is_call};
ghost use Rattle.shapes.specs.Insts.{insts_seen};
ghost use Rattle.shapes.specs.KernelShape as spec;
ghost use Rattle.kernel_shapes.specs.Kernels.{has_heading};

use crate::exit::{of_blocks, of_exit};
use crate::modes::{exec_mode, of_exec_mode, of_spmd};
use crate::opening::{first_insts, of_opening, ways_of};
use ir_core::{Construct, Function, Inst, OutOfMemory, Refusal, Rtl};
use ir_tables::Indexed;
use name_tables::{earlier, is_void};
use name_uses::Uses;
use shape_facts::{insts_of, is_call_of, is_kernel, rule};
use std::alloc::Global;

/// How many of these are init calls.
fn init_count(insts: &[&Inst]) -> usize
    ensures { result ≡ length (filter (is_call Rtl.TargetInit) (insts_seen insts.now)) }
{
    insts
        .iter()
        .filter(|inst| is_call_of(Rtl::TargetInit, inst))
        .count()
}

/// Whether a kernel with these instructions returns nothing, is never called, is no region function, and has one init call.
fn has_heading(uses: &Uses, f: &Function, insts: &[&Inst]) -> bool
    ensures { (m : ModuleData) → AreUses m uses.now → result ≡ has_heading m f.now (insts_seen insts.now) }
{
    is_void(&f.ret)
        && !uses.is_called(&f.name)
        && !uses.is_forked(&f.name)
        && init_count(insts) == 1
}

/// What is told of the heading and the code of a kernel in generic mode, which has these instructions.
fn of_code(
    alloc: Global,
    uses: &Uses,
    f: &Function,
    insts: &[&Inst],
) -> Result<Option<Refusal>, OutOfMemory>
    requires { insts_seen insts.now ≡ insts_of f.now }
    ensures { IfOk result (λ r. (m : ModuleData) → AreUses m uses.now → r ≡ least (spec.of_code m f.now)) }
{
    let all = f.blocks.as_slice();
    let first = first_insts(all);
    let ways = ways_of(first);
    let heading = rule(Construct::KernelShape, has_heading(uses, f, insts), f.line);
    let opening = of_opening(alloc, f.line, first)?;
    let exit = of_exit(f, ways);
    let blocks = of_blocks(all, ways);
    let ends = earlier(exit, blocks);
    let behind = earlier(opening, ends);
    Ok(earlier(heading, behind))
}

/// What is told of a kernel; of one in SPMD mode no other rule is asked.
fn of_kernel(
    alloc: Global,
    m: &Indexed,
    uses: &Uses,
    f: &Function,
) -> Result<Option<Refusal>, OutOfMemory>
    requires { AreUses m.now uses.now }
    ensures { IfOk result (λ r. r ≡ least (spec.of_modes (spec.spmd_inputs m.now f.now) (spec.of_generic m.now f.now))) }
{
    let insts = insts_of(alloc, f)?;
    let mode = exec_mode(alloc, m, f)?;
    match of_spmd(mode, insts.as_slice()) {
        Some(refusal) => Ok(Some(refusal)),
        None => {
            let code = of_code(alloc, uses, f, insts.as_slice())?;
            let global = of_exec_mode(uses, mode);
            Ok(earlier(global, code))
        }
    }
}

/// What is told of the deinit calls among these, outside of kernels.
fn of_deinits(insts: &[&Inst]) -> Option<Refusal>
    ensures { result ≡ least (flat_map spec.deinit_outside (insts_seen insts.now)) }
{
    let mut found = None;
    for inst in insts {
        let holds = !is_call_of(Rtl::TargetDeinit, inst);
        found = earlier(found, rule(Construct::KernelShape, holds, inst.line));
    }
    found
}

/// What is told of a function that is no kernel.
fn of_other(alloc: Global, f: &Function) -> Result<Option<Refusal>, OutOfMemory>
    ensures { IfOk result (λ r. r ≡ least (flat_map spec.deinit_outside (insts_of f.now))) }
{
    let insts = insts_of(alloc, f)?;
    Ok(of_deinits(insts.as_slice()))
}

fn of_function(
    alloc: Global,
    m: &Indexed,
    uses: &Uses,
    f: &Function,
) -> Result<Option<Refusal>, OutOfMemory>
    requires { AreUses m.now uses.now }
    ensures { IfOk result (λ r. r ≡ least (spec.of_function m.now f.now)) }
{
    if is_kernel(f) {
        of_kernel(alloc, m, uses, f)
    } else {
        of_other(alloc, f)
    }
}

fn any_kernel(functions: &[Function]) -> bool
    ensures { result ≡ list_any spec.is_kernel functions.now }
{
    functions.iter().any(|f| is_kernel(f))
}

fn of_functions(
    alloc: Global,
    m: &Indexed,
    uses: &Uses,
    functions: &[Function],
) -> Result<Option<Refusal>, OutOfMemory>
    requires { AreUses m.now uses.now }
    ensures { IfOk result (λ r. r ≡ least (flat_map (spec.of_function m.now) functions.now)) }
{
    let mut found = None;
    for f in functions {
        found = earlier(found, of_function(alloc, m, uses, f)?);
    }
    Ok(found)
}

/// What is told of a module's kernels: the least refusal of one that hasn't the shape of a kernel or is in SPMD mode, of a deinit call
/// outside of kernels, or of a module without one. `OutOfMemory` only where no memory was left.
pub fn of_kernels(alloc: Global, m: &Indexed, uses: &Uses) -> Result<Option<Refusal>, OutOfMemory>
    requires { AreUses m.now uses.now }
    ensures { IfOk result (λ r. r ≡ least (spec.kernel_refusals m.now)) }
{
    let functions = m.module().functions.as_slice();
    let some = rule(Construct::KernelShape, any_kernel(functions), 1);
    let each = of_functions(alloc, m, uses, functions)?;
    Ok(earlier(some, each))
}
