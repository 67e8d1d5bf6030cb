//! The hops through memory: what is stored in a function can be loaded in each function that shares a side with it.
ghost use Rattle.std.specs.Prelude.{◌≡◌, ◌↔◌, ◌++◌, true, OnOk};
ghost use Rattle.call_paths.specs.Known.{AreCalls};
ghost use Rattle.pointer_facts.specs.SideHops.{hops_on, IsSide, IsOnSide, IsHopOnSide, IsMainHop, IsSideHop, AddsHops};

use call_paths::{Calls, Side};
use ir_core::{List, Module, OutOfMemory};
use register_hops::{Hop, Node};
use shape_facts::is_kernel;

/// Whether the function at a place stands on a side: the main side of a kernel, or the region side.
fn is_on(calls: &Calls, _m: &Module, side: Node, function: usize) -> bool
    requires calls { AreCalls _m.now calls.now }
    requires side { IsSide _m.now side }
    ensures { (result ≡ true) ↔ IsOnSide _m.now side function }
{
    match side {
        Node::Main(kernel) => calls.reaches(kernel, function),
        _ => matches!(calls.side(function), Side::Region | Side::Both),
    }
}

/// Adds the hops of a function on a side: what it stores comes to the side, and what is there can be loaded in it.
fn add_function(hops: &mut List<Hop>, side: Node, function: usize) -> Result<(), OutOfMemory>
    ensures { OnOk result (hops.new ≡ hops.old ++ hops_on side function) }
{
    hops.push(Hop {
        from: Node::Stored(function),
        to: side,
    })?;
    hops.push(Hop {
        from: side,
        to: Node::Loaded(function),
    })?;
    Ok(())
}

/// Adds the hops of all functions on a side.
fn add_side(hops: &mut List<Hop>, m: &Module, calls: &Calls, side: Node) -> Result<(), OutOfMemory>
    requires calls { AreCalls m.now calls.now }
    requires side { IsSide m.now side }
    ensures { OnOk result (AddsHops (IsHopOnSide m.now side) hops.old hops.new) }
{
    for function in 0..m.functions.len() {
        if is_on(calls, m, side, function) {
            add_function(hops, side, function)?;
        }
    }
    Ok(())
}

/// Adds the hops of all functions on the main side of a kernel, for each kernel.
fn add_kernels(hops: &mut List<Hop>, m: &Module, calls: &Calls) -> Result<(), OutOfMemory>
    requires { AreCalls m.now calls.now }
    ensures { OnOk result (AddsHops (IsMainHop m.now) hops.old hops.new) }
{
    for (kernel, f) in m.functions.as_slice().iter().enumerate() {
        if is_kernel(f) {
            add_side(hops, m, calls, Node::Main(kernel))?;
        }
    }
    Ok(())
}

/// Adds the hops through memory, of the main side of each kernel and of the region side.
pub(crate) fn add_sides(hops: &mut List<Hop>, m: &Module, calls: &Calls) -> Result<(), OutOfMemory>
    requires { AreCalls m.now calls.now }
    ensures { OnOk result (AddsHops (IsSideHop m.now) hops.old hops.new) }
{
    add_kernels(hops, m, calls)?;
    add_side(hops, m, calls, Node::Region)
}
