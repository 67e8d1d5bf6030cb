//! How many functions, blocks and instructions a module has.
ghost use Rattle.std.specs.Prelude.{◌≡◌, ◌≤◌, ◌-◌, ◌++◌, map, length, drop, Some, None};
ghost use Rattle.std.specs.List.{flat_map};
ghost use Rattle.ir_core.specs.NameRefusals.{least};
ghost use Rattle.shapes.specs.Insts.{insts_seen};
ghost use Rattle.shapes.specs.Limits as spec;
ghost use Rattle.shape_limits.specs.Counts.{function_line, inst_line, block_lines};

use ir_core::{Construct, Function, Inst, Refusal};
use shape_facts::rule;

#[tactic(auto, unfolding(shapes::specs::Limits::function_limit))]
fn function_limit() -> usize
    ensures { result ≡ spec.function_limit }
{
    4096
}

#[tactic(auto, unfolding(shapes::specs::Limits::block_limit))]
fn block_limit() -> usize
    ensures { result ≡ spec.block_limit }
{
    65_536
}

#[tactic(auto, unfolding(shapes::specs::Limits::instruction_limit))]
fn instruction_limit() -> usize
    ensures { result ≡ spec.instruction_limit }
{
    200_000
}

/// What is told where there are too many functions: the first that is above the limit.
pub fn of_functions(functions: &[Function]) -> Option<Refusal>
    ensures { result ≡ least (spec.beyond spec.function_limit (map function_line functions.now)) }
{
    match functions.get(function_limit()) {
        None => None,
        Some(f) => rule(Construct::Limit, false, f.line),
    }
}

/// What is told where there are too many instructions: the first that is above the limit.
pub fn of_insts(insts: &[&Inst]) -> Option<Refusal>
    ensures { result ≡ least (spec.beyond spec.instruction_limit (map inst_line (insts_seen insts.now))) }
{
    match insts.get(instruction_limit()) {
        None => None,
        Some(inst) => rule(Construct::Limit, false, inst.line),
    }
}

/// What is told where there are too many blocks: the first that is above the limit.
pub fn of_blocks(functions: &[Function]) -> Option<Refusal>
    ensures { result ≡ least (spec.beyond spec.block_limit (flat_map block_lines functions.now)) }
{
    let mut left = block_limit();
    for f in functions {
        let blocks = f.blocks.as_slice();
        match blocks.get(left) {
            Some(block) => return rule(Construct::Limit, false, block.line),
            None => left -= blocks.len(),
        }
    }
    None
}
