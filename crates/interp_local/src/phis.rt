//! Branches. All phis of the target are assigned at once: their words are gathered in the room of the call, and then assigned.
ghost use Rattle.std.specs.Prelude.{◌≡◌, ℕ, ◌≤◌, ◌<◌, IsSome, List, ◌∷◌, Option, Some, length, slice_get};
ghost use Rattle.std.specs.Option.{option_copied};
ghost use Rattle.ir_core.specs.Places.{block_in, leading_phis, edge_from};
ghost use Rattle.mem_model.specs.Thread.{Frame};
ghost use Rattle.mem_model.specs.Next as spec;
ghost use Rattle.mem_model.specs.Answers.{only_trap};
ghost use Rattle.thread_state.specs.Seen.{thread_seen, IsThread};
ghost use Rattle.thread_state.specs.Moves.{names_of, room_of, Moves};
ghost use Rattle.interp_local.specs.Operands.{AreFew, registers};
ghost use Rattle.interp_local.specs.Phis.{HasGathered, HavePlaces, results, with_words, phi_words, block_of};
ghost use Rattle.interp_local.specs.Steps.{IsOwn, inst_of};
ghost use Rattle.interp_local.specs.Runs.{Tells};

use crate::actions::function;
use crate::operands::{register, value_word};
use crate::steps::{Own, Stepped};
use ir_core::{Block, Edge, Inst, Kind, Name, Value};
use ir_tables::Indexed;
use mem_model::{Trap, Word};
use thread_state::ThreadState;

/// The block at a place of a function.
fn block_at<'a>(m: &'a Indexed, function: usize, block: usize) -> Option<&'a Block>
    ensures { option_copied result ≡ block_in (slice_get m.now.functions function) block }
{
    m.module().functions.get(function)?.blocks.get(block)
}

/// The block in which the innermost call stands.
fn block_here<'a>(m: &'a Indexed, s: &ThreadState) -> Option<&'a Block>
    ensures { option_copied result ≡ block_of m.now s.now }
{
    let frame = s.frames.last()?;
    block_at(m, frame.function, frame.block)
}

/// The operand for the edge from a block.
fn operand_from<'a>(edges: &'a [Edge], from: &Name) -> Option<&'a Value>
    ensures { option_copied result ≡ edge_from edges.now from.now }
{
    for edge in edges {
        if edge.block.as_slice() == from.as_slice() {
            return Some(&edge.value);
        }
    }
    None
}

/// The word that a phi takes on the edge from a block.
fn phi_word(m: &Indexed, s: &ThreadState, edges: &[Edge], from: &Name) -> Result<Word, Trap>
    requires { AreFew m.now }
    ensures { result ≡ spec.phi_word m.now (registers m.now s.now) (edge_from edges.now from.now) }
{
    match operand_from(edges, from) {
        Some(value) => value_word(m, s, value),
        None => Err(Trap::Unreachable),
    }
}

/// Gathers the words of the phis at the front of these instructions, on the edge from a block, in the room of the innermost call.
fn gather(m: &Indexed, s: &mut ThreadState, from: &Name, insts: &[Inst]) -> Result<(), Trap>
    requires few { AreFew m.now }
    requires thread { IsThread m.now s.old }
    requires room { length (results (leading_phis insts.now)) ≤ length (room_of s.old) }
    ensures { HasGathered m.now from.now (leading_phis insts.now) s.old s.new result }
{
    let mut kept = 0;
    for inst in insts {
        let Kind::Phi { edges, .. } = &inst.kind else {
            return Ok(());
        };
        let word = phi_word(m, s, edges.as_slice(), from)?;
        if inst.result.is_some() {
            s.keep(kept, word);
            kept += 1;
        }
    }
    Ok(())
}

/// Assigns the words in the room of the innermost call to the results of the phis at the front of these instructions, and tells
/// how many phis there are.
fn assign_phis(m: &Indexed, s: &mut ThreadState, insts: &[Inst]) -> usize
    requires thread { IsThread m.now s.old }
    requires places { HavePlaces (names_of m.now s.old) insts.now }
    requires room { length (results (leading_phis insts.now)) ≤ length (room_of s.old) }
    ensures count { result ≡ length (leading_phis insts.now) }
    ensures moves { Moves (with_words (leading_phis insts.now) (room_of s.old)) m.now s.old s.new }
{
    let mut kept = 0;
    let mut count = 0;
    for inst in insts {
        let Kind::Phi { .. } = &inst.kind else {
            return count;
        };
        if let Some(name) = &inst.result {
            let Some(word) = s.kept(kept) else {
                unreachable!()
            };
            let register = register(m, s, name);
            s.assign(register, word);
            kept += 1;
        }
        count += 1;
    }
    count
}

/// Goes to a block of the same function, with its phis assigned.
pub(crate) fn jump(m: &Indexed, s: &mut ThreadState, block: usize) -> Stepped
    requires few { AreFew m.now }
    requires thread { IsThread m.now s.old }
    requires stands { IsSome (inst_of m.now s.old) }
    ensures { (f : Frame) (rest : List Frame) → (thread_seen m.now s.old).frames ≡ f ∷ rest → IsOwn m.now s.old s.new (spec.to_block m.now (thread_seen m.now s.old) f rest (Some block)) result }
{
    let Some(here) = block_here(m, s) else {
        unreachable!()
    };
    let Some(target) = block_at(m, function(s), block) else {
        s.jump(block, 0);
        return Ok(Own::Went);
    };
    let insts = target.insts.as_slice();
    gather(m, s, &here.name, insts)?;
    let count = assign_phis(m, s, insts);
    s.jump(block, count);
    Ok(Own::Went)
}

/// Whether each phi at the front of these instructions has a word on the edge from a block.
fn look_phis(m: &Indexed, s: &ThreadState, from: &Name, insts: &[Inst]) -> Result<(), Trap>
    requires { AreFew m.now }
    ensures { result ≡ only_trap (phi_words m.now (registers m.now s.now) from.now (leading_phis insts.now)) }
{
    for inst in insts {
        let Kind::Phi { edges, .. } = &inst.kind else {
            return Ok(());
        };
        phi_word(m, s, edges.as_slice(), from)?;
    }
    Ok(())
}

/// Whether a branch to a block of the same function goes.
pub(crate) fn look_jump(m: &Indexed, s: &ThreadState, block: usize) -> Stepped
    requires few { AreFew m.now }
    requires stands { IsSome (inst_of m.now s.now) }
    ensures { (f : Frame) (rest : List Frame) → (thread_seen m.now s.now).frames ≡ f ∷ rest → Tells (spec.to_block m.now (thread_seen m.now s.now) f rest (Some block)) result }
{
    let Some(here) = block_here(m, s) else {
        unreachable!()
    };
    if let Some(target) = block_at(m, function(s), block) {
        look_phis(m, s, &here.name, target.insts.as_slice())?;
    }
    Ok(Own::Went)
}
