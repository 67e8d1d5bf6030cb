//! Calls of entry points that can't be run yet.
ghost use Rattle.std.specs.Prelude.{◌≡◌};
ghost use Rattle.std.specs.List.{find};
ghost use Rattle.std.specs.Option.{option_copied};
ghost use Rattle.shapes.specs.Facts.{insts_of, insts_in};
ghost use Rattle.shapes.specs.Refusals as spec;
ghost use Rattle.ir_shapes.specs.Unbuilt as own;

use ir_core::{Block, Construct, Function, Inst, Kind, Module, Name, Refusal, Rtl, Value};

fn is_built(entry_point: Rtl) -> bool
    ensures { result ≡ spec.is_built entry_point }
{
    matches!(entry_point, Rtl::TargetInit | Rtl::TargetDeinit)
}

/// Whether a name is that of an entry point that can't be run yet.
fn is_unbuilt_name(name: &Name) -> bool
    ensures { result ≡ own.is_unbuilt_name name.now }
{
    match Rtl::of(name) {
        None => false,
        Some(entry_point) => !is_built(entry_point),
    }
}

/// Whether it is a call of an entry point that can't be run yet.
fn is_unbuilt_kind(kind: &Kind) -> bool
    ensures { result ≡ own.is_unbuilt_kind kind.now }
{
    match kind {
        Kind::Call {
            callee: Value::Global(name),
            ..
        } => is_unbuilt_name(name),
        _ => false,
    }
}

fn is_unbuilt(inst: &Inst) -> bool
    ensures { result ≡ spec.is_unbuilt inst.now }
{
    is_unbuilt_kind(&inst.kind)
}

/// The first call in a block of an entry point that can't be run yet.
fn unbuilt_in(block: &Block) -> Option<&Inst>
    ensures { option_copied result ≡ find spec.is_unbuilt block.now.insts }
{
    for inst in block.insts.as_slice() {
        if is_unbuilt(inst) {
            return Some(inst);
        }
    }
    None
}

/// The first such call in a function.
fn unbuilt_of(f: &Function) -> Option<&Inst>
    ensures { option_copied result ≡ find spec.is_unbuilt (insts_of f.now) }
{
    for block in f.blocks.as_slice() {
        if let Some(inst) = unbuilt_in(block) {
            return Some(inst);
        }
    }
    None
}

/// The first such call in a module.
fn first_unbuilt(m: &Module) -> Option<&Inst>
    ensures { option_copied result ≡ find spec.is_unbuilt (insts_in m.now) }
{
    for f in m.functions.as_slice() {
        if let Some(inst) = unbuilt_of(f) {
            return Some(inst);
        }
    }
    None
}

/// What is told of a module that is accepted: the first call of an entry point that can't be run yet.
pub fn unbuilt(m: &Module) -> Option<Refusal>
    ensures { result ≡ spec.unbuilt m.now }
{
    match first_unbuilt(m) {
        None => None,
        Some(inst) => Some(Refusal {
            construct: Construct::NotBuilt,
            line: inst.line,
        }),
    }
}
