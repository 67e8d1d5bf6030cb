//! How large a module is.
ghost use Rattle.std.specs.Prelude.{◌≡◌, ◌++◌};
ghost use Rattle.std.specs.List.{flat_map};
ghost use Rattle.ir_core.specs.NameRefusals.{least};
ghost use Rattle.shapes.specs.Facts.{insts_in, operand_of as operand};
ghost use Rattle.shapes.specs.Insts.{insts_seen};
ghost use Rattle.shapes.specs.Limits as spec;

use crate::counts::{of_blocks, of_functions, of_insts};
use crate::sizes::{of_globals, of_size, of_types};
use ir_core::{Construct, Inst, Kind, Module, Refusal, Rtl, Value};
use ir_tables::Indexed;
use name_tables::earlier;
use shape_facts::{is_call_of, operand_of, rule};

#[tactic(auto, unfolding(shapes::specs::Limits::capture_limit))]
fn capture_limit() -> u64
    ensures { result ≡ spec.capture_limit }
{
    64
}

fn has_few(inst: &Inst) -> bool
    ensures { result ≡ spec.has_few (operand inst.now 8) }
{
    match operand_of(inst, 8) {
        None => true,
        Some(operand) => match &operand.value {
            Value::Int(n) => *n <= capture_limit(),
            _ => true,
        },
    }
}

/// A fork passes no more words than a region may capture.
fn of_captures(inst: &Inst) -> Option<Refusal>
    ensures { result ≡ least (spec.of_captures inst.now) }
{
    let few = if is_call_of(Rtl::Parallel, inst) {
        has_few(inst)
    } else {
        true
    };
    rule(Construct::Limit, few, inst.line)
}

/// What is told of the sizes of an instruction's types.
fn of_kind(m: &Indexed, line: u32, kind: &Kind) -> Option<Refusal>
    ensures { result ≡ least (flat_map (spec.of_size m.now line) (spec.kind_types kind.now)) }
{
    match kind {
        Kind::Alloca { ty, .. } => of_size(m, line, ty),
        Kind::Gep { ty, .. } => of_size(m, line, ty),
        _ => None,
    }
}

fn of_inst(m: &Indexed, inst: &Inst) -> Option<Refusal>
    ensures { result ≡ least (spec.of_inst m.now inst.now) }
{
    earlier(of_captures(inst), of_kind(m, inst.line, &inst.kind))
}

fn of_all_insts(m: &Indexed, insts: &[&Inst]) -> Option<Refusal>
    ensures { result ≡ least (flat_map (spec.of_inst m.now) (insts_seen insts.now)) }
{
    let mut found = None;
    for inst in insts {
        found = earlier(found, of_inst(m, inst));
    }
    found
}

/// What is told of how many functions, blocks and instructions there are.
fn of_counts(m: &Module, insts: &[&Inst]) -> Option<Refusal>
    requires { insts_seen insts.now ≡ insts_in m.now }
    ensures { result ≡ least (spec.of_counts m.now) }
{
    let functions = m.functions.as_slice();
    earlier(
        of_functions(functions),
        earlier(of_blocks(functions), of_insts(insts)),
    )
}

/// What is told of how large a module with these instructions is: its functions, blocks and instructions, the captures of its
/// regions, and the sizes of its types.
pub fn of_limits(m: &Indexed, insts: &[&Inst]) -> Option<Refusal>
    requires { insts_seen insts.now ≡ insts_in m.now }
    ensures { result ≡ least (spec.limit_refusals m.now) }
{
    let module = m.module();
    let globals = of_globals(m, module.globals.as_slice());
    let types = of_types(m, module.types.as_slice());
    let sizes = earlier(types, earlier(globals, of_all_insts(m, insts)));
    earlier(of_counts(module, insts), sizes)
}
