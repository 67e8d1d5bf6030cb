//! The marks of one function.
ghost use Rattle.std.specs.Prelude.{◌≡◌, ◌↔◌, ◌<◌, length, true, Some, slice_get};
ghost use Rattle.shapes.specs.CallPaths.{IsKernelAt, IsOnMainSide};
ghost use Rattle.call_paths.specs.Known.{AreCalls, IsRowOf};
ghost use Rattle.value_facts.specs.Effects.{SharedEffect, IsGuarded};
ghost use Rattle.effect_facts.specs.Marks.{HasOwnEffect, ReachesMark, HasEffectAlone, CallsMarked};

use crate::insts::{called_place, has_own_effect};
use call_paths::{Calls, Side};
use ir_core::{Inst, Module};
use ir_tables::Indexed;
use pointer_facts::Pointers;
use shape_facts::is_kernel;

/// Whether the mark at a place of a row is true.
pub(crate) fn is_marked(row: &[bool], at: usize) -> bool
    ensures { (result ≡ true) ↔ (slice_get row.now at ≡ Some true) }
{
    matches!(row.get(at), Some(true))
}

/// Whether the function at a place has itself an instruction with an effect.
pub(crate) fn own_mark(m: &Module, pointers: &Pointers, at: usize) -> bool
    requires { pointers.now ≡ m.now }
    ensures { (result ≡ true) ↔ HasOwnEffect m.now at }
{
    match m.functions.get(at) {
        Some(f) => has_own_effect(pointers, at, f),
        None => false,
    }
}

/// Whether a call path leads from the function at a place to one with a mark.
pub(crate) fn reaches_mark(_m: &Module, calls: &Calls, row: &[bool], at: usize) -> bool
    requires calls { AreCalls _m.now calls.now }
    requires at { at < length _m.now.functions }
    ensures { (result ≡ true) ↔ ReachesMark _m.now row.now at }
{
    for to in 0..row.len() {
        if is_marked(row, to) && calls.reaches(at, to) {
            return true;
        }
    }
    false
}

/// Whether the function at a place has an effect and reaches no region.
pub(crate) fn alone_mark(_m: &Module, calls: &Calls, effects: &[bool], at: usize) -> bool
    requires calls { AreCalls _m.now calls.now }
    requires effects { IsRowOf (λ to. SharedEffect _m.now to) effects.now }
    ensures { (result ≡ true) ↔ HasEffectAlone _m.now at }
{
    is_marked(effects, at) && !calls.reaches_region(at)
}

/// Whether the function at a place is a kernel.
fn is_kernel_at(m: &Module, at: usize) -> bool
    ensures { (result ≡ true) ↔ IsKernelAt m.now at }
{
    match m.functions.get(at) {
        Some(f) => is_kernel(f),
        None => false,
    }
}

/// Whether the function at a place stands on a main side.
fn is_on_main_side(_m: &Module, calls: &Calls, at: usize) -> bool
    requires { AreCalls _m.now calls.now }
    ensures { (result ≡ true) ↔ IsOnMainSide _m.now at }
{
    matches!(calls.side(at), Side::Main | Side::Both)
}

/// Whether what has an effect in the function at a place needs a guard: it is a kernel, or it stands on a main side and reaches a region.
pub(crate) fn guarded_mark(m: &Module, calls: &Calls, at: usize) -> bool
    requires { AreCalls m.now calls.now }
    ensures { (result ≡ true) ↔ IsGuarded m.now at }
{
    is_kernel_at(m, at) || is_on_main_side(m, calls, at) && calls.reaches_region(at)
}

/// Whether an instruction calls a function with a mark.
pub(crate) fn calls_marked(m: &Indexed, row: &[bool], inst: &Inst) -> bool
    ensures { (result ≡ true) ↔ CallsMarked m.now row.now inst.now }
{
    match called_place(m, inst) {
        Some(to) => is_marked(row, to),
        None => false,
    }
}
