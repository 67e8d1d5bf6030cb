//! The first state of a team at a launch.
ghost use Rattle.std.specs.Prelude.{◌≡◌, ℕ, ◌+◌, ◌<◌, ◌≤◌, ◌^◌, ◌++◌, [], ◌∷◌, length, map, replicate, slice_get, true, None, Some, IfOk, OnOk};
ghost use Rattle.std.specs.List.{flat_map};
ghost use Rattle.std.specs.Option.{option_copied};
ghost use Rattle.ir_core.specs.MachineOff as off;
ghost use Rattle.ir_core.specs.Places.{function_place};
ghost use Rattle.mem_model.specs.Launching as launching;
ghost use Rattle.team_model.specs.declared.Stand.TheVariants.{Runs};
ghost use Rattle.team_model.specs.Team as spec;
ghost use Rattle.thread_state.specs.Seen.{answers_seen, IsSeen, HasSpmdKernel};
ghost use Rattle.interp_local.specs.Operands.{AreFew};
ghost use Rattle.interp_local.specs.Calls.{put_words};
ghost use Rattle.interp.specs.Events.{shared_seen};
ghost use Rattle.interp.specs.Teams.{team_seen, IsTeam};
ghost use Rattle.interp.specs.Starts as starts;

use crate::shared::TeamShared;
use crate::team::Team;
use first_memory::first_memory;
use interp_local::{no_values, put_word, room_for};
use ir_core::{Block, Function, Inst, Kind, List, OutOfMemory, Rtl, Typed, Value};
use ir_tables::Indexed;
use mem_model::{Arg, BlockName, Byte, Launch, Memory, Ptr, Word};
use std::alloc::Global;
use team_model::Stand;
use thread_state::{Answers, ThreadState};

/// How many bytes the capture area has.
const CAPTURE_BYTES: usize = 512;

/// How many globals, functions or arguments have numbers of 32 bits.
const PLACES: usize = 4_294_967_296;

/// The operand of `__kmpc_target_init` that says SPMD mode.
const SPMD_MODE: u64 = 2;

/// Whether globals, functions and arguments are so few that their places are numbers of 32 bits.
fn are_few(m: &Indexed, l: &Launch) -> bool
    ensures { result ≡ true → AreFew m.now × (length l.now.args ≤ 2 ^ 32) }
{
    let module = m.module();
    module.globals.len() <= PLACES && module.functions.len() <= PLACES && l.args.len() <= PLACES
}

/// Whether a callee is `__kmpc_target_init`.
fn calls_init(callee: &Value) -> bool
    ensures { result ≡ off.calls_init callee.now }
{
    match callee {
        Value::Global(name) => name.as_slice() == Rtl::TargetInit.name(),
        _ => false,
    }
}

/// The mode among the operands of an init call.
fn mode_operand(args: &[Typed]) -> Option<u64>
    ensures { result ≡ slice_get (spec.mode_operand args.now) 0 }
{
    let [_place, mode, _flag] = args else {
        return None;
    };
    match &mode.value {
        Value::Int(number) => Some(*number),
        _ => None,
    }
}

/// The mode that an instruction gives, where it is an init call.
fn mode_of(inst: &Inst) -> Option<u64>
    ensures { result ≡ slice_get (spec.inst_modes inst.now) 0 }
{
    match &inst.kind {
        Kind::Call { callee, args, .. } => {
            if calls_init(callee) {
                mode_operand(args.as_slice())
            } else {
                None
            }
        }
        _ => None,
    }
}

/// The mode that the first init call of a block gives.
fn block_mode(insts: &[Inst]) -> Option<u64>
    ensures { result ≡ slice_get (flat_map spec.inst_modes insts.now) 0 }
{
    for inst in insts {
        if let Some(mode) = mode_of(inst) {
            return Some(mode);
        }
    }
    None
}

/// The mode that the first init call in blocks gives.
fn first_mode(blocks: &[Block]) -> Option<u64>
    ensures { result ≡ slice_get (flat_map spec.block_modes blocks.now) 0 }
{
    for block in blocks {
        if let Some(mode) = block_mode(block.insts.as_slice()) {
            return Some(mode);
        }
    }
    None
}

/// The function that a launch names.
fn kernel<'a>(m: &'a Indexed, l: &Launch) -> Option<&'a Function>
    ensures { option_copied result ≡ spec.function_at m.now (function_place m.now l.now.kernel) }
{
    m.module().functions.get(m.function(&l.kernel)?)
}

/// Whether the kernel of a launch runs in SPMD mode.
fn is_spmd(m: &Indexed, l: &Launch) -> bool
    ensures { result ≡ spec.is_spmd m.now l.now }
{
    match kernel(m, l) {
        None => false,
        Some(function) => first_mode(function.blocks.as_slice()) == Some(SPMD_MODE),
    }
}

/// The memory at a launch: the buffers of the arguments, the globals, and the capture area, in which the words of a region are
/// published.
fn team_memory(alloc: Global, m: &Indexed, l: &Launch) -> Result<Memory, OutOfMemory>
    ensures { IfOk result (λ memory. memory ≡ spec.with_captures (launching.first_memory m.now l.now)) }
{
    let mut memory = first_memory(alloc, m, l)?;
    let bytes = vec![in alloc; Byte::Num(0); CAPTURE_BYTES]?;
    memory.put_block(BlockName::Captures, bytes, false)?;
    Ok(memory)
}

/// What so many threads share at a launch.
fn first_shared(alloc: Global, memory: Memory, threads: usize) -> Result<TeamShared, OutOfMemory>
    ensures seen { IfOk result (λ sh. shared_seen sh ≡ starts.first_shared memory threads) }
    ensures history { IfOk result (λ sh. sh.history ≡ []) }
{
    Ok(TeamShared {
        memory,
        heaps: 0,
        stands: List::from_vec(vec![in alloc; Stand::Runs; threads]?),
        slot: None,
        trapped: None,
        prints: List::new(alloc),
        history: List::new(alloc),
    })
}

/// What a thread is answered before its first step: this number from `__kmpc_target_init`, and this mode bit.
fn answers_at(init: u32, spmd: u32) -> Answers
    ensures { answers_seen result ≡ spec.answers_at init spmd }
{
    Answers {
        init,
        number: 0,
        count: 1,
        level: 0,
        spmd,
    }
}

/// The word of the argument at a place: the address of its buffer, its number, or null.
fn argument_word(at: usize, arg: &Arg) -> Word
    requires { at < 2 ^ 32 }
    ensures { result ≡ launching.arg_word at arg.now }
{
    match arg {
        Arg::Buffer(_) => Word::Ptr(Ptr::At(BlockName::Arg(at as u32), 0)),
        Arg::Int(number) => Word::Int(*number),
        Arg::Null => Word::Ptr(Ptr::Num(0)),
    }
}

/// Puts the words of arguments in the first places of registers, as many as there are parameters.
fn put_arguments(args: &[Arg], params: usize, values: &mut List<Option<Word>>)
    requires few { length args.now ≤ 2 ^ 32 }
    requires room { params ≤ length values.old }
    ensures { values.new ≡ put_words params (launching.arg_words 0 args.now) values.old }
{
    for (at, arg) in args.iter().enumerate() {
        put_word(values, params, at, argument_word(at, arg));
    }
}

/// How many parameters the function at a place has.
fn param_count(m: &Indexed, place: usize) -> usize
    ensures { result ≡ length (launching.params_of (slice_get m.now.functions place)) }
{
    match m.module().functions.get(place) {
        None => 0,
        Some(function) => function.params.len(),
    }
}

/// The registers of the kernel at a place, of which the parameters have the words of the arguments.
fn kernel_values(
    alloc: Global,
    m: &Indexed,
    l: &Launch,
    place: usize,
) -> Result<List<Option<Word>>, OutOfMemory>
    requires few { length l.now.args ≤ 2 ^ 32 }
    ensures { IfOk result (λ values. values ≡ starts.kernel_values m.now l.now place) }
{
    let mut values = no_values(alloc, m.register_count(place))?;
    put_arguments(l.args.as_slice(), param_count(m, place), &mut values);
    Ok(values)
}

/// A thread at the start of the kernel; without a call where the launch names no function.
fn first_thread(
    alloc: Global,
    m: &Indexed,
    l: &Launch,
    own: u32,
    enters: bool,
    answers: Answers,
) -> Result<ThreadState, OutOfMemory>
    requires few { length l.now.args ≤ 2 ^ 32 }
    requires spmd { enters ≡ true → HasSpmdKernel m.now }
    ensures { IfOk result (λ s. IsSeen m.now s (launching.first_thread m.now l.now (spec.role l.now enters own) (answers_seen answers))) }
{
    let mut s = ThreadState {
        own,
        size: l.threads,
        enters,
        counter: 0,
        frames: Vec::new(alloc),
        stack: Vec::new(alloc),
        answers,
    };
    let Some(place) = m.function(&l.kernel) else {
        return Ok(s);
    };
    let values = kernel_values(alloc, m, l, place)?;
    let room = room_for(alloc, m.register_count(place))?;
    s.enter(place, values, room)?;
    Ok(s)
}

/// Appends a thread.
fn add(threads: &mut Vec<ThreadState>, s: ThreadState) -> Result<(), OutOfMemory>
    ensures { OnOk result (threads.new.items ≡ threads.old.items ++ s ∷ []) }
{
    match threads.push(s) {
        Ok(()) => Ok(()),
        Err(_) => Err(OutOfMemory),
    }
}

/// What `__kmpc_target_init` answers to a thread that runs user code: -1.
const USER_CODE: u32 = 4_294_967_295;

/// A thread of an SPMD kernel, which enters the regions of its forks itself, or a worker of a generic one.
fn numbered_thread(
    alloc: Global,
    m: &Indexed,
    l: &Launch,
    spmd: bool,
    number: u32,
) -> Result<ThreadState, OutOfMemory>
    requires few { length l.now.args ≤ 2 ^ 32 }
    requires spmd { spmd ≡ true → HasSpmdKernel m.now }
    ensures { IfOk result (λ s. IsSeen m.now s (starts.numbered_thread m.now l.now spmd number)) }
{
    if spmd {
        first_thread(alloc, m, l, number, true, answers_at(USER_CODE, 1))
    } else {
        first_thread(alloc, m, l, number, false, answers_at(number, 0))
    }
}

/// The main thread of a generic kernel, which runs user code.
fn main_thread(alloc: Global, m: &Indexed, l: &Launch) -> Result<ThreadState, OutOfMemory>
    requires few { length l.now.args ≤ 2 ^ 32 }
    ensures { IfOk result (λ s. IsSeen m.now s (spec.main_thread m.now l.now)) }
{
    first_thread(alloc, m, l, l.threads, false, answers_at(USER_CODE, 0))
}

/// The threads of an SPMD kernel, or the workers of a generic one.
fn numbered_threads(
    alloc: Global,
    m: &Indexed,
    l: &Launch,
    spmd: bool,
) -> Result<Vec<ThreadState>, OutOfMemory>
    requires few { length l.now.args ≤ 2 ^ 32 }
    requires spmd { spmd ≡ true → HasSpmdKernel m.now }
    ensures { IfOk result (λ ts. starts.AreSeen m.now ts.items (spec.threads_from (starts.numbered_thread m.now l.now spmd) 0 l.now.threads)) }
{
    let mut threads = Vec::new(alloc);
    for number in 0..l.threads {
        add(&mut threads, numbered_thread(alloc, m, l, spmd, number)?)?;
    }
    Ok(threads)
}

/// The threads of a team, each at the start of the kernel: those of an SPMD kernel, or the workers of a generic one and then its
/// main thread.
fn first_threads(alloc: Global, m: &Indexed, l: &Launch) -> Result<Vec<ThreadState>, OutOfMemory>
    requires few { length l.now.args ≤ 2 ^ 32 }
    ensures { IfOk result (λ ts. starts.AreSeen m.now ts.items (spec.first_threads m.now l.now (spec.is_spmd m.now l.now))) }
{
    let spmd = is_spmd(m, l);
    let mut threads = numbered_threads(alloc, m, l, spmd)?;
    if !spmd {
        add(&mut threads, main_thread(alloc, m, l)?)?;
    }
    Ok(threads)
}

impl Team {
    /// The first state of a team at a launch: the memory with the buffers of the arguments, the globals and the capture area; each thread at the
    /// start of the kernel; nothing printed, an empty history and a null work slot.
    ///
    /// # Errors
    ///
    /// For want of memory, of which a module or a launch of more than 2^32 globals, functions or arguments counts as one case.
    pub fn start(alloc: Global, m: &Indexed, l: &Launch) -> Result<Team, OutOfMemory>
        ensures state { IfOk result (λ t. team_seen m.now t ≡ spec.team_start m.now l.now) }
        ensures team { IfOk result (λ t. IsTeam m.now t) }
        ensures history { IfOk result (λ t. t.shared.history ≡ []) }
        ensures few { IfOk result (λ t. AreFew m.now) }
        ensures args { IfOk result (λ t. length l.now.args ≤ 2 ^ 32) }
    {
        if !are_few(m, l) {
            return Err(OutOfMemory);
        }
        let memory = team_memory(alloc, m, l)?;
        let threads = first_threads(alloc, m, l)?;
        let shared = first_shared(alloc, memory, threads.len())?;
        Ok(Team { shared, threads })
    }
}
