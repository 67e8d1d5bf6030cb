//! The blocks of a machine.
ghost use Rattle.std.specs.Prelude.{◌≡◌, ◌++◌, ◌∷◌, [], IfOk, OnOk, ℕ, ◌<◌, length, List};
ghost use Rattle.ir_core.specs.Places.{Name as NameData};
ghost use Rattle.state_machine.specs.Fresh.{IsTaken};
ghost use Rattle.state_machine.specs.Machine as spec;

use crate::insts::{
    block, branches, calls_entry, does, gives, goes_to, integer_in, meets, pointer_in,
};
use crate::names::{Names, Taken, fresh, numbered};
use crate::plan::Machine;
use ir_core::{
    Block, Copies, Inst, Kind, List, Name, OutOfMemory, Pred, Rtl, TailWord, Ty, Typed, Value,
};
use std::alloc::Global;

fn asks(alloc: Global, line: u32, names: &Names) -> Result<Inst, OutOfMemory>
    ensures { IfOk result (λ i. i ≡ spec.asks line names.now) }
{
    let mut args = List::new(alloc);
    args.push(pointer_in(alloc, &names.address)?)?;
    let call = calls_entry(alloc, Rtl::KernelParallel, Ty::Int(1), args)?;
    gives(alloc, line, &names.active, call)
}

fn loads_work(alloc: Global, line: u32, names: &Names) -> Result<Inst, OutOfMemory>
    ensures { IfOk result (λ i. i ≡ spec.loads_work line names.now) }
{
    let kind = Kind::Load {
        ty: Ty::Ptr,
        at: pointer_in(alloc, &names.address)?,
        order: None,
        align: 0,
    };
    gives(alloc, line, &names.work, kind)
}

// Whether the work is this.
fn is_work(
    alloc: Global,
    line: u32,
    register: &Name,
    work: &Name,
    other: Value,
) -> Result<Inst, OutOfMemory>
    ensures { IfOk result (λ i. i ≡ spec.is_work line register.now work.now other) }
{
    let kind = Kind::ICmp {
        pred: Pred::Eq,
        ty: Ty::Ptr,
        a: Value::Local(work.copy(alloc)?),
        b: other,
    };
    gives(alloc, line, register, kind)
}

fn begins(
    alloc: Global,
    line: u32,
    names: &Names,
    thread: &Name,
    exit: &Name,
) -> Result<Block, OutOfMemory>
    ensures { IfOk result (λ b. b ≡ spec.begins line names.now thread.now exit.now) }
{
    let mut insts = List::new(alloc);
    insts.push(meets(alloc, line, thread)?)?;
    insts.push(asks(alloc, line, names)?)?;
    insts.push(loads_work(alloc, line, names)?)?;
    insts.push(is_work(alloc, line, &names.done, &names.work, Value::Null)?)?;
    insts.push(branches(alloc, line, &names.done, exit, &names.activity)?)?;
    block(alloc, line, &names.begin, insts)
}

fn takes_part(alloc: Global, line: u32, names: &Names, first: &Name) -> Result<Block, OutOfMemory>
    ensures { IfOk result (λ b. b ≡ spec.takes_part line names.now first.now) }
{
    let mut insts = List::new(alloc);
    insts.push(branches(alloc, line, &names.active, first, &names.wait)?)?;
    block(alloc, line, &names.activity, insts)
}

fn compares(
    alloc: Global,
    line: u32,
    work: &Name,
    check: &Name,
    same: &Name,
    wrapper: &Name,
    run: &Name,
    other: &Name,
) -> Result<Block, OutOfMemory>
    ensures { IfOk result (λ b. b ≡ spec.compares line work.now check.now same.now wrapper.now run.now other.now) }
{
    let mut insts = List::new(alloc);
    let wanted = Value::Global(wrapper.copy(alloc)?);
    insts.push(is_work(alloc, line, same, work, wanted)?)?;
    insts.push(branches(alloc, line, same, run, other)?)?;
    block(alloc, line, check, insts)
}

fn calls_wrapper(
    alloc: Global,
    line: u32,
    thread: &Name,
    wrapper: &Name,
) -> Result<Inst, OutOfMemory>
    ensures { IfOk result (λ i. i ≡ spec.calls_wrapper line thread.now wrapper.now) }
{
    let mut args = List::new(alloc);
    args.push(Typed {
        ty: Ty::Int(16),
        value: Value::Int(0),
    })?;
    args.push(integer_in(alloc, 32, thread)?)?;
    let kind = Kind::Call {
        tail: TailWord::Absent,
        ret: Ty::Void,
        callee: Value::Global(wrapper.copy(alloc)?),
        args,
    };
    Ok(does(line, kind))
}

fn runs(
    alloc: Global,
    line: u32,
    thread: &Name,
    run: &Name,
    wrapper: &Name,
    end: &Name,
) -> Result<Block, OutOfMemory>
    ensures { IfOk result (λ b. b ≡ spec.runs line thread.now run.now wrapper.now end.now) }
{
    let mut insts = List::new(alloc);
    insts.push(calls_wrapper(alloc, line, thread, wrapper)?)?;
    insts.push(goes_to(alloc, line, end)?)?;
    block(alloc, line, run, insts)
}

fn none(alloc: Global, line: u32, names: &Names) -> Result<Block, OutOfMemory>
    ensures { IfOk result (λ b. b ≡ spec.none line names.now) }
{
    let mut insts = List::new(alloc);
    insts.push(does(line, Kind::Unreachable))?;
    block(alloc, line, &names.none, insts)
}

fn end(alloc: Global, line: u32, names: &Names) -> Result<Block, OutOfMemory>
    ensures { IfOk result (λ b. b ≡ spec.end line names.now) }
{
    let mut insts = List::new(alloc);
    let call = calls_entry(alloc, Rtl::KernelEndParallel, Ty::Void, List::new(alloc))?;
    insts.push(does(line, call))?;
    insts.push(goes_to(alloc, line, &names.wait)?)?;
    block(alloc, line, &names.end, insts)
}

fn waits(alloc: Global, line: u32, names: &Names, thread: &Name) -> Result<Block, OutOfMemory>
    ensures { IfOk result (λ b. b ≡ spec.waits line names.now thread.now) }
{
    let mut insts = List::new(alloc);
    insts.push(meets(alloc, line, thread)?)?;
    insts.push(goes_to(alloc, line, &names.begin)?)?;
    block(alloc, line, &names.wait, insts)
}

// A name of the machine with a number.
fn numbered_name(alloc: Global, taken: &Taken, stem: &[u8], n: usize) -> Result<Name, OutOfMemory>
    ensures { (names : List NameData) → IsTaken names taken.now → IfOk result (λ x. x ≡ spec.numbered_name names stem.now n) }
{
    let stem = numbered(alloc, stem, n)?;
    fresh(alloc, taken, stem.as_slice())
}

fn check_or_none(
    alloc: Global,
    taken: &Taken,
    names: &Names,
    count: usize,
    n: usize,
) -> Result<Name, OutOfMemory>
    ensures { (all : List NameData) → IsTaken all taken.now → IfOk result (λ x. x ≡ spec.check_or_none all names.now count n) }
{
    if n == count {
        names.none.copy(alloc)
    } else {
        numbered_name(alloc, taken, b"worker.check", n)
    }
}

fn add_comparison(
    blocks: &mut List<Block>,
    alloc: Global,
    taken: &Taken,
    names: &Names,
    machine: &Machine,
    n: usize,
    wrapper: &Name,
) -> Result<(), OutOfMemory>
    requires { n < length machine.now.wrappers }
    ensures { (all : List NameData) → IsTaken all taken.now → OnOk result (blocks.new ≡ blocks.old ++ spec.comparison machine.now.line all names.now machine.now.thread (length machine.now.wrappers) n wrapper.now) }
{
    let check = numbered_name(alloc, taken, b"worker.check", n)?;
    let same = numbered_name(alloc, taken, b"worker.is", n)?;
    let run = numbered_name(alloc, taken, b"worker.run", n)?;
    let other = check_or_none(alloc, taken, names, machine.wrappers.len(), n + 1)?;
    blocks.push(compares(
        alloc,
        machine.line,
        &names.work,
        &check,
        &same,
        wrapper,
        &run,
        &other,
    )?)?;
    blocks.push(runs(
        alloc,
        machine.line,
        &machine.thread,
        &run,
        wrapper,
        &names.end,
    )?)?;
    Ok(())
}

fn add_comparisons(
    blocks: &mut List<Block>,
    alloc: Global,
    taken: &Taken,
    names: &Names,
    machine: &Machine,
) -> Result<(), OutOfMemory>
    ensures { (all : List NameData) → IsTaken all taken.now → OnOk result (blocks.new ≡ blocks.old ++ spec.comparisons machine.now.line all names.now machine.now.thread (length machine.now.wrappers) machine.now.wrappers) }
{
    for (n, wrapper) in machine.wrappers.as_slice().iter().enumerate() {
        add_comparison(blocks, alloc, taken, names, machine, n, wrapper)?;
    }
    Ok(())
}

/// Writes a machine behind the blocks of its kernel, which has these names.
pub fn add_machine(
    blocks: &mut List<Block>,
    alloc: Global,
    taken: &Taken,
    names: &Names,
    machine: &Machine,
) -> Result<(), OutOfMemory>
    ensures { (all : List NameData) → IsTaken all taken.now → OnOk result (blocks.new ≡ blocks.old ++ spec.machine all names.now machine.now) }
{
    let (line, thread) = (machine.line, &machine.thread);
    let first = check_or_none(alloc, taken, names, machine.wrappers.len(), 0)?;
    blocks.push(begins(alloc, line, names, thread, &machine.exit)?)?;
    blocks.push(takes_part(alloc, line, names, &first)?)?;
    add_comparisons(blocks, alloc, taken, names, machine)?;
    blocks.push(none(alloc, line, names)?)?;
    blocks.push(end(alloc, line, names)?)?;
    blocks.push(waits(alloc, line, names, thread)?)?;
    Ok(())
}
