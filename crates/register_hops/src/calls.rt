//! The hops of calls: operands to parameters, and what is returned to the results of calls.
ghost use Rattle.std.specs.Prelude.{◌≡◌, ◌++◌, Some, slice_get, OnOk};
ghost use Rattle.register_hops.specs.Hops as spec;

use crate::hops::{Hop, add_hop};
use crate::nodes::{Node, register_node, value_node};
use ir_core::{List, OutOfMemory, Param, Typed, Value};
use ir_tables::Indexed;
use register_numbers::Numbering;

/// The place of the defined function that is called.
pub fn defined_place(m: &Indexed, callee: &Value) -> Option<usize>
    ensures { result ≡ spec.defined_place m.now callee.now }
{
    let Value::Global(name) = callee else {
        return None;
    };
    let at = m.function(name)?;
    let f = m.module().functions.get(at)?;
    if f.blocks.as_slice().is_empty() {
        None
    } else {
        Some(at)
    }
}

/// The parameters of the function at a place.
fn params_of(m: &Indexed, at: usize) -> &[Param]
    ensures { result.now ≡ spec.params_of (slice_get m.now.functions at) }
{
    match m.module().functions.get(at) {
        Some(f) => f.params.as_slice(),
        None => &[],
    }
}

/// Adds the hops from the operands of a call to the parameters of the function that is called.
fn add_operands(
    hops: &mut List<Hop>,
    numbering: &Numbering,
    at: usize,
    to: usize,
    operands: &[Typed],
    params: &[Param],
) -> Result<(), OutOfMemory>
    ensures { OnOk result (hops.new ≡ hops.old ++ spec.operand_hops numbering.now at to operands.now params.now) }
{
    for (place, operand) in operands.iter().enumerate() {
        if place < params.len() {
            let from = value_node(numbering, at, &operand.value);
            add_hop(
                hops,
                from,
                register_node(numbering, to, &params[place].name),
            )?;
        }
    }
    Ok(())
}

/// Adds the hops of a call of the function at a place.
fn add_called(
    hops: &mut List<Hop>,
    numbering: &Numbering,
    at: usize,
    given: Option<Node>,
    operands: &[Typed],
    to: usize,
) -> Result<(), OutOfMemory>
    ensures { OnOk result (hops.new ≡ hops.old ++ spec.hops_of_call numbering.now at given operands.now (Some to)) }
{
    let params = params_of(numbering.indexed(), to);
    add_operands(hops, numbering, at, to, operands, params)?;
    add_hop(hops, Some(Node::Returned(to)), given)
}

/// Adds the hops of a call, in the function at a place, to a defined function.
pub(crate) fn add_call(
    hops: &mut List<Hop>,
    numbering: &Numbering,
    at: usize,
    given: Option<Node>,
    callee: &Value,
    operands: &[Typed],
) -> Result<(), OutOfMemory>
    ensures { OnOk result (hops.new ≡ hops.old ++ spec.hops_of_call numbering.now at given operands.now (spec.defined_place numbering.now callee.now)) }
{
    match defined_place(numbering.indexed(), callee) {
        Some(to) => add_called(hops, numbering, at, given, operands, to),
        None => Ok(()),
    }
}
