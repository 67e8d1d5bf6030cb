//! The block to which the workers go: it only returns, and no block but the first goes there.
ghost use Rattle.std.specs.Prelude.{◌≡◌, drop, map, option_map};
ghost use Rattle.std.specs.List.{find, list_any, flat_map};
ghost use Rattle.std.specs.Str.{bytes_eq};
ghost use Rattle.std.specs.Option.{option_copied};
ghost use Rattle.ir_core.specs.FirstForm.{is_exit, is_return};
ghost use Rattle.ir_core.specs.NameRefusals.{least};
ghost use Rattle.ir_core.specs.Typing.{targets_of};
ghost use Rattle.ir_core.specs.Wrappers.{is_in};
ghost use Rattle.shapes.specs.KernelShape as spec;
ghost use Rattle.kernel_shapes.specs.Seen.{ways_seen, case_block};

use crate::branch::Ways;
use crate::ends::of_ends;
use ir_core::{Block, Case, Construct, Function, Inst, Kind, Name, Refusal};
use name_tables::earlier;
use shape_facts::rule;

fn any_goes_to(cases: &[Case], name: &Name) -> bool
    ensures { result ≡ is_in (map case_block cases.now) name.now }
{
    cases
        .iter()
        .any(|case| name.as_slice() == case.block.as_slice())
}

/// Whether an instruction branches to a block.
fn goes_to(kind: &Kind, name: &Name) -> bool
    ensures { result ≡ is_in (targets_of kind.now) name.now }
{
    match kind {
        Kind::Br { to } => name.as_slice() == to.as_slice(),
        Kind::CondBr { yes, no, .. } => {
            name.as_slice() == yes.as_slice() || name.as_slice() == no.as_slice()
        }
        Kind::Switch { other, cases, .. } => {
            name.as_slice() == other.as_slice() || any_goes_to(cases.as_slice(), name)
        }
        _ => false,
    }
}

fn branches_to(name: &Name, block: &Block) -> bool
    ensures { result ≡ spec.branches_to name.now block.now }
{
    block
        .insts
        .as_slice()
        .iter()
        .any(|inst| goes_to(&inst.kind, name))
}

fn any_branches_to(name: &Name, blocks: &[Block]) -> bool
    ensures { result ≡ list_any (spec.branches_to name.now) blocks.now }
{
    blocks.iter().any(|block| branches_to(name, block))
}

fn is_return(inst: &Inst) -> bool
    ensures { result ≡ is_return inst.now }
{
    inst.result.is_none() && matches!(&inst.kind, Kind::Ret { value: None })
}

fn is_exit(insts: &[Inst]) -> bool
    ensures { result ≡ is_exit insts.now }
{
    match insts {
        [leave] => is_return(leave),
        _ => false,
    }
}

/// The blocks but the first.
fn behind_first(blocks: &[Block]) -> &[Block]
    ensures { result.now ≡ drop 1 blocks.now }
{
    match blocks {
        [] => &[],
        [_, behind @ ..] => behind,
    }
}

/// What is told of a kernel's exit.
fn of_exit_block(f: &Function, exit: Option<&Block>) -> Option<Refusal>
    ensures { result ≡ least (spec.of_exit_block f.now (option_copied exit.entry)) }
{
    match exit {
        None => None,
        Some(exit) => rule(
            Construct::KernelShape,
            is_exit(exit.insts.as_slice())
                && !any_branches_to(&exit.name, behind_first(f.blocks.as_slice())),
            exit.line,
        ),
    }
}

fn block_given<'a>(blocks: &'a [Block], name: &Name) -> Option<&'a Block>
    ensures { option_copied result ≡ find (λ b. bytes_eq b.name name.now) blocks.now }
{
    blocks
        .iter()
        .find(|block| block.name.as_slice() == name.as_slice())
}

/// What is told of the exit of a kernel whose first block goes these ways.
pub fn of_exit(f: &Function, ways: Option<Ways>) -> Option<Refusal>
    ensures { result ≡ least (spec.of_exit f.now (option_map ways_seen ways.entry)) }
{
    match ways {
        None => None,
        Some(ways) => of_exit_block(f, block_given(f.blocks.as_slice(), ways.exit)),
    }
}

fn is_exit_name(ways: Option<Ways>, name: &Name) -> bool
    ensures { result ≡ spec.is_exit_name (option_map ways_seen ways.entry) name.now }
{
    match ways {
        None => false,
        Some(ways) => ways.exit.as_slice() == name.as_slice(),
    }
}

/// What is told of the returns and deinit calls in the blocks of a kernel whose first block goes these ways.
pub fn of_blocks(blocks: &[Block], ways: Option<Ways>) -> Option<Refusal>
    ensures { result ≡ least (flat_map (spec.of_block (option_map ways_seen ways.entry)) blocks.now) }
{
    let mut found = None;
    for block in blocks {
        let free = is_exit_name(ways, &block.name);
        let own = of_ends(free, block.insts.as_slice());
        found = earlier(found, own);
    }
    found
}
