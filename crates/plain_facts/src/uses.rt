//! The uses of registers otherwise than as the pointer of an access or of a getelementptr.
ghost use Rattle.std.specs.Prelude.{◌≡◌, ◌++◌, IfOk, OnOk};
ghost use Rattle.std.specs.List.{flat_map};
ghost use Rattle.shapes.specs.Insts.{insts_seen};
ghost use Rattle.plain_facts.specs.Uses as spec;

use ir_core::{Edge, Inst, Kind, List, OutOfMemory, Rtl, Typed, Value};
use register_numbers::Numbering;
use shape_facts::{insts_of, is_call_of, operand_of};
use std::alloc::Global;

/// A use of a register, by its number, and the size if it is a release of that register.
#[derive(Clone, Copy)]
pub(crate) struct Use {
    pub(crate) register: usize,
    pub(crate) released: Option<u64>,
}

/// A release of a register, by its number, and of a constant size.
#[derive(Clone, Copy)]
pub(crate) struct Release {
    pub(crate) register: usize,
    pub(crate) size: u64,
}

/// The number of a register, if the value is one that is given in the function at a place.
pub(crate) fn value_number(numbering: &Numbering, at: usize, value: &Value) -> Option<usize>
    ensures { result ≡ spec.value_number numbering.now at value.now }
{
    match value {
        Value::Local(name) => numbering.number(at, name),
        _ => None,
    }
}

/// The release of a register, if there is one and the size is constant.
fn release_by(register: Option<usize>, size: &Value) -> Option<Release>
    ensures { result ≡ spec.release_by register size.now }
{
    let register = register?;
    match size {
        Value::Int(size) => Some(Release {
            register,
            size: *size,
        }),
        _ => None,
    }
}

/// The register and the constant size of a release.
fn release_of(numbering: &Numbering, at: usize, inst: &Inst) -> Option<Release>
    ensures { result ≡ spec.release_of numbering.now at inst.now }
{
    if !is_call_of(Rtl::FreeShared, inst) {
        return None;
    }
    let Some(pointer) = operand_of(inst, 0) else {
        return None;
    };
    let Some(size) = operand_of(inst, 1) else {
        return None;
    };
    release_by(value_number(numbering, at, &pointer.value), &size.value)
}

/// The size that is released of a register.
fn size_released(release: Option<Release>, register: usize) -> Option<u64>
    ensures { result ≡ spec.size_released release register }
{
    match release {
        Some(release) => {
            if release.register == register {
                Some(release.size)
            } else {
                None
            }
        }
        None => None,
    }
}

/// Adds the use of a value, if it is a register that is given.
fn add_use(
    uses: &mut List<Use>,
    numbering: &Numbering,
    at: usize,
    release: Option<Release>,
    value: &Value,
) -> Result<(), OutOfMemory>
    ensures { OnOk result (uses.new ≡ uses.old ++ spec.use_of numbering.now at release value.now) }
{
    if let Some(register) = value_number(numbering, at, value) {
        let released = size_released(release, register);
        uses.push(Use { register, released })?;
    }
    Ok(())
}

/// Adds the uses of two values.
fn add_both(
    uses: &mut List<Use>,
    numbering: &Numbering,
    at: usize,
    release: Option<Release>,
    a: &Value,
    b: &Value,
) -> Result<(), OutOfMemory>
    ensures { OnOk result (uses.new ≡ uses.old ++ (spec.use_of numbering.now at release a.now ++ spec.use_of numbering.now at release b.now)) }
{
    add_use(uses, numbering, at, release, a)?;
    add_use(uses, numbering, at, release, b)
}

/// Adds the uses of a select.
fn add_select(
    uses: &mut List<Use>,
    numbering: &Numbering,
    at: usize,
    release: Option<Release>,
    cond: &Value,
    a: &Value,
    b: &Value,
) -> Result<(), OutOfMemory>
    ensures { OnOk result (uses.new ≡ uses.old ++ (spec.use_of numbering.now at release cond.now ++ (spec.use_of numbering.now at release a.now ++ spec.use_of numbering.now at release b.now))) }
{
    add_use(uses, numbering, at, release, cond)?;
    add_both(uses, numbering, at, release, a, b)
}

/// Adds the uses of a phi.
fn add_edges(
    uses: &mut List<Use>,
    numbering: &Numbering,
    at: usize,
    release: Option<Release>,
    edges: &[Edge],
) -> Result<(), OutOfMemory>
    ensures { OnOk result (uses.new ≡ uses.old ++ flat_map (spec.edge_uses numbering.now at release) edges.now) }
{
    for edge in edges {
        add_use(uses, numbering, at, release, &edge.value)?;
    }
    Ok(())
}

/// Adds the uses of these operands.
fn add_operands(
    uses: &mut List<Use>,
    numbering: &Numbering,
    at: usize,
    release: Option<Release>,
    operands: &[Typed],
) -> Result<(), OutOfMemory>
    ensures { OnOk result (uses.new ≡ uses.old ++ flat_map (spec.operand_uses numbering.now at release) operands.now) }
{
    for operand in operands {
        add_use(uses, numbering, at, release, &operand.value)?;
    }
    Ok(())
}

/// Adds the uses of a call.
fn add_call(
    uses: &mut List<Use>,
    numbering: &Numbering,
    at: usize,
    release: Option<Release>,
    callee: &Value,
    operands: &[Typed],
) -> Result<(), OutOfMemory>
    ensures { OnOk result (uses.new ≡ uses.old ++ (spec.use_of numbering.now at release callee.now ++ flat_map (spec.operand_uses numbering.now at release) operands.now)) }
{
    add_use(uses, numbering, at, release, callee)?;
    add_operands(uses, numbering, at, release, operands)
}

/// Adds the uses of what an instruction does.
fn add_kind(
    uses: &mut List<Use>,
    numbering: &Numbering,
    at: usize,
    release: Option<Release>,
    kind: &Kind,
) -> Result<(), OutOfMemory>
    ensures { OnOk result (uses.new ≡ uses.old ++ spec.kind_uses numbering.now at release kind.now) }
{
    match kind {
        Kind::Bin { a, b, .. } => add_both(uses, numbering, at, release, a, b),
        Kind::ICmp { a, b, .. } => add_both(uses, numbering, at, release, a, b),
        Kind::Cast { from, .. } => add_use(uses, numbering, at, release, &from.value),
        Kind::Select { cond, a, b } => {
            add_select(
                uses,
                numbering,
                at,
                release,
                &cond.value,
                &a.value,
                &b.value,
            )
        }
        Kind::Phi { edges, .. } => add_edges(uses, numbering, at, release, edges.as_slice()),
        Kind::Store { value, .. } => add_use(uses, numbering, at, release, &value.value),
        Kind::Rmw { value, .. } => add_use(uses, numbering, at, release, &value.value),
        Kind::Gep { path, .. } => add_operands(uses, numbering, at, release, path.as_slice()),
        Kind::Call { callee, args, .. } => {
            add_call(uses, numbering, at, release, callee, args.as_slice())
        }
        Kind::CondBr { cond, .. } => add_use(uses, numbering, at, release, &cond.value),
        Kind::Switch { on, .. } => add_use(uses, numbering, at, release, &on.value),
        Kind::Ret { value: Some(value) } => add_use(uses, numbering, at, release, &value.value),
        _ => Ok(()),
    }
}

/// Adds the uses of these instructions of the function at a place.
fn add_insts(
    uses: &mut List<Use>,
    numbering: &Numbering,
    at: usize,
    insts: &[&Inst],
) -> Result<(), OutOfMemory>
    ensures { OnOk result (uses.new ≡ uses.old ++ flat_map (spec.inst_uses numbering.now at) (insts_seen insts.now)) }
{
    for inst in insts {
        let release = release_of(numbering, at, inst);
        add_kind(uses, numbering, at, release, &inst.kind)?;
    }
    Ok(())
}

/// The uses of a module, instruction by instruction. `OutOfMemory` only where no memory was left.
pub(crate) fn uses_in(alloc: Global, numbering: &Numbering) -> Result<List<Use>, OutOfMemory>
    ensures { IfOk result (λ uses. uses ≡ spec.all_uses numbering.now) }
{
    let mut uses = List::new(alloc);
    let functions = numbering.indexed().module().functions.as_slice();
    for (at, f) in functions.iter().enumerate() {
        let insts = insts_of(alloc, f)?;
        add_insts(&mut uses, numbering, at, insts.as_slice())?;
    }
    Ok(uses)
}
