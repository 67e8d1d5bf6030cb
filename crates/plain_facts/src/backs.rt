//! The hops back along getelementptr, and the search over them.
ghost use Rattle.std.specs.Prelude.{◌≡◌, ◌++◌, IfOk, OnOk};
ghost use Rattle.std.specs.List.{flat_map};
ghost use Rattle.shapes.specs.Insts.{insts_seen};
ghost use Rattle.register_hops.specs.Numbered.{AreReachedRegisters};
ghost use Rattle.plain_facts.specs.Backs as spec;

use crate::own::Own;
use crate::uses::value_number;
use ir_core::{Inst, Kind, List, Name, OutOfMemory};
use register_hops::{Hop, Node, reached_registers};
use register_numbers::Numbering;
use shape_facts::insts_of;
use std::alloc::Global;

/// The number of an instruction's result.
fn result_number(numbering: &Numbering, at: usize, name: &Option<Name>) -> Option<usize>
    ensures { result ≡ spec.result_number numbering.now at name.now }
{
    match name {
        Some(name) => numbering.number(at, name),
        None => None,
    }
}

/// Adds the hop between two registers, if there are both.
fn add_back(hops: &mut List<Hop>, from: Option<usize>, to: Option<usize>) -> Result<(), OutOfMemory>
    ensures { OnOk result (hops.new ≡ hops.old ++ spec.back from to) }
{
    if let Some(from) = from {
        if let Some(to) = to {
            hops.push(Hop {
                from: Node::Register(from),
                to: Node::Register(to),
            })?;
        }
    }
    Ok(())
}

/// Adds the hop of an instruction, if it is a getelementptr.
fn add_inst(
    hops: &mut List<Hop>,
    numbering: &Numbering,
    at: usize,
    inst: &Inst,
) -> Result<(), OutOfMemory>
    ensures { OnOk result (hops.new ≡ hops.old ++ spec.inst_backs numbering.now at inst.now) }
{
    match &inst.kind {
        Kind::Gep { base, .. } => {
            let from = result_number(numbering, at, &inst.result);
            add_back(hops, from, value_number(numbering, at, &base.value))
        }
        _ => Ok(()),
    }
}

/// Adds the hops of these instructions of the function at a place.
fn add_insts(
    hops: &mut List<Hop>,
    numbering: &Numbering,
    at: usize,
    insts: &[&Inst],
) -> Result<(), OutOfMemory>
    ensures { OnOk result (hops.new ≡ hops.old ++ flat_map (spec.inst_backs numbering.now at) (insts_seen insts.now)) }
{
    for inst in insts {
        add_inst(hops, numbering, at, inst)?;
    }
    Ok(())
}

/// The hops of a module. `OutOfMemory` only where no memory was left.
fn backs_in(alloc: Global, numbering: &Numbering) -> Result<List<Hop>, OutOfMemory>
    ensures { IfOk result (λ hops. hops ≡ spec.all_backs numbering.now) }
{
    let mut hops = List::new(alloc);
    let functions = numbering.indexed().module().functions.as_slice();
    for (at, f) in functions.iter().enumerate() {
        let insts = insts_of(alloc, f)?;
        add_insts(&mut hops, numbering, at, insts.as_slice())?;
    }
    Ok(hops)
}

/// Whether the register of a node is used otherwise.
fn is_used_at(own: &[Own], node: Node) -> bool
    ensures { result ≡ spec.is_used_at own.now node }
{
    match node {
        Node::Register(number) => match own.get(number) {
            Some(Own::Unused) => false,
            Some(_) => true,
            None => false,
        },
        _ => false,
    }
}

/// The registers of which a getelementptr makes one that is used otherwise.
fn roots_of(alloc: Global, own: &[Own], hops: &[Hop]) -> Result<List<Node>, OutOfMemory>
    ensures { IfOk result (λ roots. roots ≡ spec.all_roots own.now hops.now) }
{
    let mut roots = List::new(alloc);
    for hop in hops {
        if is_used_at(own, hop.from) {
            roots.push(hop.to)?;
        }
    }
    Ok(roots)
}

/// For each register, by its number, whether getelementptr leads from it, once or more, to one that is used otherwise.
pub(crate) fn beyond_row(
    alloc: Global,
    numbering: &Numbering,
    own: &[Own],
) -> Result<List<bool>, OutOfMemory>
    ensures { IfOk result (AreReachedRegisters numbering.now (spec.all_backs numbering.now) (spec.all_roots own.now (spec.all_backs numbering.now))) }
{
    let hops = backs_in(alloc, numbering)?;
    let roots = roots_of(alloc, own, hops.as_slice())?;
    reached_registers(alloc, numbering, hops.as_slice(), roots.as_slice())
}
