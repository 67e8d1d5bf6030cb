//! Rows of marks: for each function whether it has an effect, whether it has one and reaches no region, and whether it is guarded.
ghost use Rattle.std.specs.Prelude.{◌≡◌, IfOk};
ghost use Rattle.call_paths.specs.Known.{AreCalls, IsRowOf};
ghost use Rattle.value_facts.specs.Effects.{SharedEffect, IsGuarded};
ghost use Rattle.effect_facts.specs.Marks.{HasOwnEffect, HasEffectAlone, AreMarks};

use crate::marks::{alone_mark, guarded_mark, own_mark, reaches_mark};
use call_paths::Calls;
use ir_core::{List, Module, OutOfMemory};
use pointer_facts::Pointers;
use std::alloc::Global;

/// For each function whether it has itself an instruction with an effect.
fn own_row(alloc: Global, m: &Module, pointers: &Pointers) -> Result<List<bool>, OutOfMemory>
    requires { pointers.now ≡ m.now }
    ensures { IfOk result (IsRowOf (HasOwnEffect m.now)) }
{
    let mut marks = List::new(alloc);
    for at in 0..m.functions.len() {
        marks.push(own_mark(m, pointers, at))?;
    }
    Ok(marks)
}

/// For each function whether it has an effect, by those that have one themselves.
fn effects_row(
    alloc: Global,
    m: &Module,
    calls: &Calls,
    own: &[bool],
) -> Result<List<bool>, OutOfMemory>
    requires calls { AreCalls m.now calls.now }
    requires own { IsRowOf (HasOwnEffect m.now) own.now }
    ensures { IfOk result (IsRowOf (λ at. SharedEffect m.now at)) }
{
    let mut marks = List::new(alloc);
    for at in 0..m.functions.len() {
        marks.push(reaches_mark(m, calls, own, at))?;
    }
    Ok(marks)
}

/// For each function whether it has an effect and reaches no region.
fn alone_row(
    alloc: Global,
    m: &Module,
    calls: &Calls,
    effects: &[bool],
) -> Result<List<bool>, OutOfMemory>
    requires calls { AreCalls m.now calls.now }
    requires effects { IsRowOf (λ at. SharedEffect m.now at) effects.now }
    ensures { IfOk result (IsRowOf (HasEffectAlone m.now)) }
{
    let mut marks = List::new(alloc);
    for at in 0..m.functions.len() {
        marks.push(alone_mark(m, calls, effects, at))?;
    }
    Ok(marks)
}

/// For each function whether what has an effect in it needs a guard.
fn guarded_row(alloc: Global, m: &Module, calls: &Calls) -> Result<List<bool>, OutOfMemory>
    requires { AreCalls m.now calls.now }
    ensures { IfOk result (IsRowOf (IsGuarded m.now)) }
{
    let mut marks = List::new(alloc);
    for at in 0..m.functions.len() {
        marks.push(guarded_mark(m, calls, at))?;
    }
    Ok(marks)
}

/// The rows of marks by the places of functions.
#[derive(Drop)]
pub(crate) struct Rows {
    pub(crate) effects: List<bool>,
    pub(crate) alone: List<bool>,
    pub(crate) guarded: List<bool>,
}

/// The rows of the module.
pub(crate) fn rows_of(
    alloc: Global,
    m: &Module,
    pointers: &Pointers,
    calls: &Calls,
) -> Result<Rows, OutOfMemory>
    requires pointers { pointers.now ≡ m.now }
    requires calls { AreCalls m.now calls.now }
    ensures { IfOk result (λ rows. AreMarks m.now rows.effects rows.alone rows.guarded) }
{
    let own = own_row(alloc, m, pointers)?;
    let effects = effects_row(alloc, m, calls, own.as_slice())?;
    let alone = alone_row(alloc, m, calls, effects.as_slice())?;
    let guarded = guarded_row(alloc, m, calls)?;
    Ok(Rows {
        effects,
        alone,
        guarded,
    })
}
