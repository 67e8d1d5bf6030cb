//! Modules in which some kernels have their machines written out.
ghost use Rattle.std.specs.Prelude.{◌≡◌, ◌++◌, IfOk, OnOk, Some, map, slice_get};
ghost use Rattle.std.specs.List.{list_any};
ghost use Rattle.ir_core.specs.EntryPoints.{scalar_type};
ghost use Rattle.state_machine.specs.Modules as spec;
ghost use Rattle.state_machine.specs.Numbered.{flat_from};

use crate::kernels::kernel_with;
use crate::off::function_off;
use crate::plan::Machine;
use ir_core::{Copies, Function, List, Module, Name, OutOfMemory, Param, Rtl, Scalar, Ty};
use itoa::Buffer;
use std::alloc::Global;

fn changed_by(alloc: Global, plan: &Option<Machine>, f: &Function) -> Result<Function, OutOfMemory>
    ensures { IfOk result (λ g. g ≡ spec.changed (Some plan.now) f.now) }
{
    match plan {
        None => function_off(alloc, f),
        Some(machine) => kernel_with(alloc, machine, f),
    }
}

fn changed(
    alloc: Global,
    plans: &[Option<Machine>],
    at: usize,
    f: &Function,
) -> Result<Function, OutOfMemory>
    ensures { IfOk result (λ g. g ≡ spec.changed (slice_get plans.now at) f.now) }
{
    match plans.get(at) {
        None => function_off(alloc, f),
        Some(plan) => changed_by(alloc, plan, f),
    }
}

fn all_changed(
    alloc: Global,
    plans: &[Option<Machine>],
    functions: &[Function],
) -> Result<List<Function>, OutOfMemory>
    ensures { IfOk result (λ fs. fs ≡ flat_from (spec.changed_at plans.now) 0 functions.now) }
{
    let mut out = List::new(alloc);
    for (at, f) in functions.iter().enumerate() {
        out.push(changed(alloc, plans, at, f)?)?;
    }
    Ok(out)
}

fn has_machine(plans: &[Option<Machine>]) -> bool
    ensures { result ≡ list_any spec.is_machine plans.now }
{
    plans.iter().any(|plan| plan.is_some())
}

fn type_of(scalar: Scalar) -> Ty
    ensures { result ≡ scalar_type scalar }
{
    match scalar {
        Scalar::Int(width) => Ty::Int(width),
        Scalar::Ptr => Ty::Ptr,
    }
}

fn numbered_param(alloc: Global, n: usize, scalar: &Scalar) -> Result<Param, OutOfMemory>
    ensures { IfOk result (λ p. p ≡ spec.numbered n (scalar_type scalar.now)) }
{
    let mut digits = Buffer::new();
    Ok(Param {
        name: Name::from_slice(alloc, digits.format(n).as_bytes())?,
        ty: type_of(*scalar),
    })
}

fn numbered_params(alloc: Global, types: &[Scalar]) -> Result<List<Param>, OutOfMemory>
    ensures { IfOk result (λ ps. ps ≡ flat_from spec.numbered_param 0 (map scalar_type types.now)) }
{
    let mut out = List::new(alloc);
    for (at, scalar) in types.iter().enumerate() {
        out.push(numbered_param(alloc, at, scalar)?)?;
    }
    Ok(out)
}

fn declaration(alloc: Global, entry: Rtl) -> Result<Function, OutOfMemory>
    ensures { IfOk result (λ f. f ≡ spec.declaration entry) }
{
    Ok(Function {
        name: Name::from_slice(alloc, entry.name())?,
        words: List::new(alloc),
        ret: entry.result(),
        params: numbered_params(alloc, entry.params())?,
        groups: List::new(alloc),
        blocks: List::new(alloc),
        line: 0,
    })
}

fn add_declarations(out: &mut List<Function>, alloc: Global) -> Result<(), OutOfMemory>
    ensures { OnOk result (out.new ≡ out.old ++ map spec.declaration spec.machine_entries) }
{
    out.push(declaration(alloc, Rtl::KernelParallel)?)?;
    out.push(declaration(alloc, Rtl::KernelEndParallel)?)?;
    out.push(declaration(alloc, Rtl::GenericBarrier)?)?;
    Ok(())
}

/// The module with the machines of these plans, one for each function; every other kernel's machine is switched off. The entry points
/// that machines call are declared behind the last function.
pub fn with_machines(
    alloc: Global,
    plans: &[Option<Machine>],
    m: &Module,
) -> Result<Module, OutOfMemory>
    ensures { IfOk result (λ o. o ≡ spec.with_machines plans.now m.now) }
{
    let mut functions = all_changed(alloc, plans, m.functions.as_slice())?;
    if has_machine(plans) {
        add_declarations(&mut functions, alloc)?;
    }
    Ok(Module {
        prelude: m.prelude.copy(alloc)?,
        types: m.types.copy(alloc)?,
        globals: m.globals.copy(alloc)?,
        functions,
        tail: m.tail.copy(alloc)?,
    })
}
