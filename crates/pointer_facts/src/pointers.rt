//! Which pointers may point into a stack, and which elsewhere.
ghost use Rattle.std.specs.Prelude.{◌≡◌, ◌↔◌, true, Some, slice_get, IfOk};
ghost use Rattle.name_uses.specs.Tables.{AreUses};
ghost use Rattle.register_hops.specs.Hops.{all_hops};
ghost use Rattle.register_hops.specs.Roots.{all_roots};
ghost use Rattle.call_paths.specs.Known.{AreCalls};
ghost use Rattle.value_facts.specs.Pointers.{register, spot, MayBeStack, MayBeOther};
ghost use Rattle.pointer_facts.specs.Exact.{IsExact, AreExact, AreRoots, IsMarkedAt, roots_elsewhere};
ghost use Rattle.pointer_facts.specs.SideHops.{IsSideHop, AddsHops};

use crate::sides::add_sides;
use call_paths::Calls;
use checked_modules::Checked;
use ir_core::{List, Module, Name, OutOfMemory, Value};
use name_uses::Uses;
use register_hops::{Hop, Node, Origin, called_by_wrappers, hops_in, reached_registers, roots_in};
use register_numbers::Numbering;
use shape_facts::insts_in;
use std::alloc::Global;
use std::marker::Model;

/// Which pointers may point into a stack, and which elsewhere: rows of marks by the numbers of registers. Contracts see the module.
#[derive(Drop)]
pub struct Pointers<'m> {
    numbering: Numbering<'m>,
    stack: List<bool>,
    other: List<bool>,
}

impl<'m> Model for Pointers<'m> {
    ghost use Rattle.std.specs.Coded.{codes};
    ghost use Rattle.ir_core.specs.contracts.types.Ty as ty;
    ghost use Rattle.ir_core.specs.contracts.module.Init as init;
    ghost use Rattle.ir_core.specs.declared.module.Module.{Module};
    ghost use Rattle.pointer_facts.specs.Exact.{AreExact};

    ghost Value = { Module };

    ghost coded = { Prim.hlevel (codes, ty.the_row.coded, init.the_row.coded) };

    ghost view = { λ p. p.numbering };

    ghost invariant = { λ p. AreExact p.numbering p.stack p.other };
}

/// The tables of names that the roots are found with.
fn names(alloc: Global, m: &Module) -> Result<Uses, OutOfMemory>
    ensures { IfOk result (AreUses m.now) }
{
    let insts = insts_in(alloc, m)?;
    Uses::of(alloc, m, insts.as_slice())
}

/// Where pointers come from, into a stack and elsewhere.
#[derive(Drop)]
struct Roots {
    stack: List<Node>,
    other: List<Node>,
}

/// The roots of both searches; null and all globals are one of them.
fn roots_of(alloc: Global, numbering: &Numbering) -> Result<Roots, OutOfMemory>
    ensures { IfOk result (λ roots. AreRoots numbering.now roots.stack roots.other) }
{
    let m = numbering.indexed().module();
    let uses = names(alloc, m)?;
    let called = called_by_wrappers(alloc, m, &uses)?;
    let stack = roots_in(alloc, numbering, Origin::FromStack, &uses, &called)?;
    let mut other = roots_in(alloc, numbering, Origin::FromElsewhere, &uses, &called)?;
    other.push(Node::Elsewhere)?;
    Ok(Roots { stack, other })
}

/// For each register, by its number, whether it may point into a stack: by the hops of copies and of memory.
fn stack_row(
    alloc: Global,
    numbering: &Numbering,
    hops: &[Hop],
    roots: &[Node],
) -> Result<List<bool>, OutOfMemory>
    requires hops { AddsHops (IsSideHop numbering.now) (all_hops numbering.now) hops.now }
    requires roots { roots.now ≡ all_roots numbering.now Origin.FromStack }
    ensures { IfOk result (IsExact numbering.now (MayBeStack numbering.now)) }
{
    reached_registers(alloc, numbering, hops, roots)
}

/// For each register, by its number, whether it may point elsewhere: by the hops of copies alone, since each load is a root.
fn other_row(
    alloc: Global,
    numbering: &Numbering,
    hops: &[Hop],
    roots: &[Node],
) -> Result<List<bool>, OutOfMemory>
    requires hops { hops.now ≡ all_hops numbering.now }
    requires roots { roots.now ≡ roots_elsewhere numbering.now }
    ensures { IfOk result (IsExact numbering.now (MayBeOther numbering.now)) }
{
    reached_registers(alloc, numbering, hops, roots)
}

/// The marks of both searches.
#[derive(Drop)]
struct Found {
    stack: List<bool>,
    other: List<bool>,
}

/// Both searches from these roots: the hops of memory are added for the second.
fn search(
    alloc: Global,
    numbering: &Numbering,
    calls: &Calls,
    roots: &Roots,
) -> Result<Found, OutOfMemory>
    requires calls { AreCalls numbering.now calls.now }
    requires roots { AreRoots numbering.now roots.now.stack roots.now.other }
    ensures { IfOk result (λ found. AreExact numbering.now found.stack found.other) }
{
    let mut hops = hops_in(alloc, numbering)?;
    let other = other_row(alloc, numbering, hops.as_slice(), roots.other.as_slice())?;
    add_sides(&mut hops, numbering.indexed().module(), calls)?;
    let stack = stack_row(alloc, numbering, hops.as_slice(), roots.stack.as_slice())?;
    Ok(Found { stack, other })
}

/// Whether a register of the function at a place has the mark of its number.
fn is_marked(numbering: &Numbering, row: &List<bool>, function: usize, name: &Name) -> bool
    ensures { (result ≡ true) ↔ IsMarkedAt numbering.now row.now function name.now }
{
    match numbering.number(function, name) {
        Some(number) => matches!(row.get(number), Some(true)),
        None => false,
    }
}

impl<'m> Pointers<'m> {
    /// The pointers of the module: two searches. `OutOfMemory` where no memory was left, or where more registers than 2^64-1 are to be
    /// counted.
    pub fn of(alloc: Global, m: &'m Checked, calls: &Calls) -> Result<Pointers<'m>, OutOfMemory>
        requires { AreCalls m.now calls.now }
        ensures { IfOk result (λ p. p ≡ m.now) }
    {
        let numbering = Numbering::of(alloc, m.indexed())?;
        let roots = roots_of(alloc, &numbering)?;
        let found = search(alloc, &numbering, calls, &roots)?;
        Ok(Pointers {
            numbering,
            stack: found.stack,
            other: found.other,
        })
    }

    /// Whether a value of the function at a place may point into a stack.
    pub fn may_be_stack(&self, function: usize, value: &Value) -> bool
        ensures { (result ≡ true) ↔ MayBeStack self.now (spot function value.now) }
    {
        match value {
            Value::Local(name) => is_marked(&self.numbering, &self.stack, function, name),
            _ => false,
        }
    }

    /// Whether a register of the function at a place may point into a stack.
    pub fn register_may_be_stack(&self, function: usize, name: &Name) -> bool
        ensures { (result ≡ true) ↔ MayBeStack self.now (register function name.now) }
    {
        is_marked(&self.numbering, &self.stack, function, name)
    }

    /// Whether a value of the function at a place may point elsewhere than into a stack.
    pub fn may_be_other(&self, function: usize, value: &Value) -> bool
        ensures { (result ≡ true) ↔ MayBeOther self.now (spot function value.now) }
    {
        match value {
            Value::Local(name) => is_marked(&self.numbering, &self.other, function, name),
            Value::Null => true,
            Value::Global(_) => true,
            Value::Int(_) => false,
        }
    }
}
