//! Calls of functions with blocks, and new blocks of the stack: the steps that take memory.
ghost use Rattle.std.specs.Prelude.{◌≡◌, ℕ, ◌+◌, ◌<◌, ◌≤◌, ◌^◌, List as Listed, [], ◌∷◌, ◌++◌, Option, Some, None, length, replicate, slice_get, IfOk};
ghost use Rattle.std.specs.Option.{option_copied};
ghost use Rattle.ir_core.specs.declared.module.Module.{Module};
ghost use Rattle.ir_core.specs.Places.{Name as SpecName};
ghost use Rattle.mem_model.specs.declared.memory.Word.{Word as SpecWord};
ghost use Rattle.mem_model.specs.Answers.{only_trap};
ghost use Rattle.mem_model.specs.Memory.{block_limit};
ghost use Rattle.mem_model.specs.Thread.{Frame};
ghost use Rattle.mem_model.specs.Values.{operand_words};
ghost use Rattle.mem_model.specs.Next.{defined_at, next_call, allocates};
ghost use Rattle.thread_state.specs.Seen.{thread_seen, IsThread};
ghost use Rattle.thread_state.specs.Moves.{index_of};
ghost use Rattle.interp_local.specs.Operands.{AreFew, registers};
ghost use Rattle.interp_local.specs.Actions as spec;
ghost use Rattle.interp_local.specs.Calls.{IsBody, AreBound, put_words};
ghost use Rattle.interp_local.specs.Steps.{IsTried, Knows, inst_of, phase_of};
ghost use Rattle.mem_model.specs.declared.phase.Phase.TheVariants.{Begins};
ghost use Rattle.mem_model.specs.Regions.{params_at};
ghost use Rattle.ir_core.specs.Places.{register_names};
ghost use Rattle.interp_local.specs.Runs.{Tells};

use crate::operands::value_word;
use crate::steps::{Own, Stepped};
use ir_core::{Function, Inst, Kind, List, Or, OutOfMemory, Typed};
use ir_tables::Indexed;
use mem_model::{BlockName, Ptr, Trap, Word};
use std::alloc::Global;
use thread_state::ThreadState;

/// The operands of a call; none of another instruction.
fn arguments(kind: &Kind) -> &[Typed]
    ensures { result.now ≡ spec.arguments kind.now }
{
    match kind {
        Kind::Call { args, .. } => args.as_slice(),
        _ => &[],
    }
}

/// The function at a place, where it has blocks.
fn body<'a>(m: &'a Indexed, place: usize) -> Option<&'a Function>
    ensures { IsBody m.now place (option_copied result) }
{
    let function = m.module().functions.get(place)?;
    if function.blocks.is_empty() {
        None
    } else {
        Some(function)
    }
}

/// Whether each operand has a word.
fn look_words(m: &Indexed, s: &ThreadState, args: &[Typed]) -> Result<(), Trap>
    requires { AreFew m.now }
    ensures { result ≡ only_trap (operand_words m.now (registers m.now s.now) args.now) }
{
    for arg in args {
        value_word(m, s, &arg.value)?;
    }
    Ok(())
}

/// How many parameters the function at a place has; none where there is no function.
pub fn param_count(m: &Indexed, place: usize) -> usize
    ensures count { result ≡ length (params_at (slice_get m.now.functions place)) }
    ensures few { result ≤ length (register_names m.now place) }
{
    match m.module().functions.get(place) {
        None => 0,
        Some(function) => function.params.len(),
    }
}

/// Puts the word of a call's operand in its place of the registers, where it is one of so many parameters.
pub fn put_word(values: &mut List<Option<Word>>, params: usize, at: usize, word: Word)
    requires { params ≤ length values.old }
    ensures { (words : Listed SpecWord) (first : Listed (Option SpecWord)) → at ≡ length words → values.old ≡ put_words params words first → values.new ≡ put_words params (words ++ word ∷ []) first }
{
    if at < params {
        values.set(at, Some(word));
    }
}

/// Puts the words of operands in the first places of a call's registers, as many as it has parameters.
fn bind(
    m: &Indexed,
    s: &ThreadState,
    args: &[Typed],
    params: usize,
    values: &mut List<Option<Word>>,
) -> Result<(), Trap>
    requires few { AreFew m.now }
    requires room { params ≤ length values.old }
    ensures { AreBound (operand_words m.now (registers m.now s.now) args.now) params values.old values.new result }
{
    let mut at = 0;
    for arg in args {
        let word = value_word(m, s, &arg.value)?;
        put_word(values, params, at, word);
        at += 1;
    }
    Ok(())
}

/// So many registers without values.
///
/// # Errors
///
/// For want of memory.
pub fn no_values(alloc: Global, count: usize) -> Result<List<Option<Word>>, OutOfMemory>
    ensures { IfOk result (λ values. values ≡ replicate count None) }
{
    Ok(List::from_vec(vec![in alloc; None; count]?))
}

/// Room for so many words.
///
/// # Errors
///
/// For want of memory.
pub fn room_for(alloc: Global, count: usize) -> Result<List<Word>, OutOfMemory>
    ensures { IfOk result (λ room. length room ≡ count) }
{
    Ok(List::from_vec(vec![in alloc; Word::Int(0); count]?))
}

/// Calls the function at a place from the instruction at which the innermost call stands.
pub(crate) fn call(
    alloc: Global,
    m: &Indexed,
    s: &mut ThreadState,
    inst: &Inst,
    place: usize,
) -> Result<Own, Or<Trap>>
    requires thread { IsThread m.now s.old }
    requires few { AreFew m.now }
    requires begins { phase_of s.old ≡ Begins }
    requires stands { inst_of m.now s.old ≡ Some inst.now }
    ensures { (f : Frame) (rest : Listed Frame) → (thread_seen m.now s.old).frames ≡ f ∷ rest → IsTried (Unit {0}) m.now s.old s.new (next_call m.now (thread_seen m.now s.old) f rest inst.now.result (spec.arguments inst.now.kind) (defined_at m.now (Some place))) result }
{
    let Some(function) = body(m, place) else {
        return Err(Or::Refused(Trap::Unreachable));
    };
    let count = m.register_count(place);
    let mut values = no_values(alloc, count)?;
    let args = arguments(&inst.kind);
    if let Err(trap) = bind(m, s, args, function.params.len(), &mut values) {
        return Err(Or::Refused(trap));
    }
    let room = room_for(alloc, count)?;
    s.enter(place, values, room)?;
    Ok(Own::Went)
}

/// Whether a call of the function at a place goes, where there is memory.
pub(crate) fn look_call(m: &Indexed, s: &ThreadState, inst: &Inst, place: usize) -> Stepped
    requires { AreFew m.now }
    ensures { (f : Frame) (rest : Listed Frame) → (thread_seen m.now s.now).frames ≡ f ∷ rest → Tells (next_call m.now (thread_seen m.now s.now) f rest inst.now.result (spec.arguments inst.now.kind) (defined_at m.now (Some place))) result }
{
    if body(m, place).is_none() {
        return Err(Trap::Unreachable);
    }
    look_words(m, s, arguments(&inst.kind))?;
    Ok(Own::Went)
}

/// Makes a block of so many zero bytes in the thread's own stack, and goes on with its address.
pub(crate) fn allocate(
    alloc: Global,
    s: &mut ThreadState,
    register: Option<usize>,
    size: u64,
) -> Result<Own, Or<Trap>>
    requires size { size ≤ block_limit }
    requires within { index_of s.old + 1 < 2 ^ 64 }
    ensures { (m : Module) (x : Option SpecName) (f : Frame) (rest : Listed Frame) → Knows m s.old x register f rest → IsTried (Unit {0}) m s.old s.new (allocates (thread_seen m s.old) f rest x size) result }
{
    let at = Ptr::At(BlockName::Stack(s.own, s.counter), 0);
    s.make_block(alloc, size as usize)?;
    s.go_on(register, Word::Ptr(at));
    Ok(Own::Went)
}
