//! Where pointers come from: the roots of both searches.
ghost use Rattle.std.specs.Prelude.{◌≡◌, ◌++◌, IfOk, OnOk};
ghost use Rattle.std.specs.List.{flat_map};
ghost use Rattle.ir_tables.specs.Names.{HasPlaces};
ghost use Rattle.name_uses.specs.Tables.{AreUses};
ghost use Rattle.shapes.specs.Insts.{insts_seen};
ghost use Rattle.register_hops.specs.Roots as spec;

use crate::nodes::{Node, register_node, result_node};
use crate::regions::is_region;
use ir_core::{CastOp, Function, Inst, Kind, List, OutOfMemory, Param, Rtl};
use ir_tables::NameTable;
use name_tables::is_ptr;
use name_uses::Uses;
use register_numbers::Numbering;
use shape_facts::{calls, insts_of, is_kernel};
use std::alloc::Global;

/// What a pointer points into where it comes from.
#[derive(Clone, Copy)]
pub enum Origin {
    /// A stack.
    FromStack,
    /// Anything else.
    FromElsewhere,
}

/// Adds a root where there is one, if the condition holds.
fn add_root(roots: &mut List<Node>, holds: bool, node: Option<Node>) -> Result<(), OutOfMemory>
    ensures { OnOk result (roots.new ≡ roots.old ++ spec.root_if holds node) }
{
    if holds {
        if let Some(node) = node {
            roots.push(node)?;
        }
    }
    Ok(())
}

/// Whether a pointer from elsewhere is the result of such an instruction.
fn makes_other(kind: &Kind) -> bool
    ensures { result ≡ spec.makes Origin.FromElsewhere kind.now }
{
    match kind {
        Kind::Load { ty, .. } => is_ptr(ty),
        Kind::Cast { op, .. } => matches!(op, CastOp::IntToPtr),
        _ => calls(Rtl::AllocShared, kind),
    }
}

/// Whether a pointer of this origin is the result of such an instruction.
fn makes(origin: Origin, kind: &Kind) -> bool
    ensures { result ≡ spec.makes origin kind.now }
{
    match origin {
        Origin::FromStack => matches!(kind, Kind::Alloca { .. }),
        Origin::FromElsewhere => makes_other(kind),
    }
}

/// Whether the parameter at a place has a pointer of this origin, in a kernel or in a region function.
fn is_given(origin: Origin, kernel: bool, region: bool, place: usize, param: &Param) -> bool
    ensures { result ≡ spec.is_given origin kernel region place param.now }
{
    match origin {
        Origin::FromStack => region && place < 2,
        Origin::FromElsewhere => is_ptr(&param.ty) && (kernel || (region && !(place < 2))),
    }
}

/// Adds the parameters of the function at a place that have a pointer of this origin.
fn add_params(
    roots: &mut List<Node>,
    numbering: &Numbering,
    origin: Origin,
    at: usize,
    kernel: bool,
    region: bool,
    params: &[Param],
) -> Result<(), OutOfMemory>
    ensures { OnOk result (roots.new ≡ roots.old ++ spec.param_roots numbering.now origin at kernel region params.now) }
{
    for (place, param) in params.iter().enumerate() {
        let holds = is_given(origin, kernel, region, place, param);
        add_root(roots, holds, register_node(numbering, at, &param.name))?;
    }
    Ok(())
}

/// Adds the results of these instructions, of the function at a place, that are pointers of this origin.
fn add_insts(
    roots: &mut List<Node>,
    numbering: &Numbering,
    origin: Origin,
    at: usize,
    insts: &[&Inst],
) -> Result<(), OutOfMemory>
    ensures { OnOk result (roots.new ≡ roots.old ++ flat_map (spec.inst_roots numbering.now origin at) (insts_seen insts.now)) }
{
    for inst in insts {
        let node = result_node(numbering, at, &inst.result);
        add_root(roots, makes(origin, &inst.kind), node)?;
    }
    Ok(())
}

/// Adds the roots of a function, which may be a region function.
fn add_function(
    roots: &mut List<Node>,
    alloc: Global,
    numbering: &Numbering,
    origin: Origin,
    at: usize,
    region: bool,
    f: &Function,
) -> Result<(), OutOfMemory>
    requires { region ≡ spec.is_region numbering.now f.now }
    ensures { OnOk result (roots.new ≡ roots.old ++ spec.function_roots numbering.now origin at f.now) }
{
    let params = f.params.as_slice();
    add_params(roots, numbering, origin, at, is_kernel(f), region, params)?;
    let insts = insts_of(alloc, f)?;
    add_insts(roots, numbering, origin, at, insts.as_slice())
}

/// Where pointers of an origin come from. `OutOfMemory` only where no memory was left.
pub fn roots_in(
    alloc: Global,
    numbering: &Numbering,
    origin: Origin,
    uses: &Uses,
    called: &NameTable,
) -> Result<List<Node>, OutOfMemory>
    requires uses { AreUses numbering.now uses.now }
    requires called { HasPlaces (spec.called_by_wrappers numbering.now) called.now }
    ensures { IfOk result (λ roots. roots ≡ spec.all_roots numbering.now origin) }
{
    let mut roots = List::new(alloc);
    let functions = numbering.indexed().module().functions.as_slice();
    for (at, f) in functions.iter().enumerate() {
        let region = is_region(uses, called, f);
        add_function(&mut roots, alloc, numbering, origin, at, region, f)?;
    }
    Ok(roots)
}
