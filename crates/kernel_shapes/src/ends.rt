//! The ends of the user code: a return stands right behind a deinit call, and a deinit call right before a return.
ghost use Rattle.std.specs.Prelude.{◌≡◌, ◌+◌, ◌<◌, length, drop, get_or, true, None};
ghost use Rattle.std.specs.Option.{option_copied};
ghost use Rattle.ir_core.specs.NameRefusals.{least};
ghost use Rattle.shapes.specs.KernelShape as spec;
ghost use Rattle.kernel_shapes.specs.Ends as ends;

use ir_core::{Construct, Inst, Kind, Refusal, Rtl};
use name_tables::earlier;
use shape_facts::{has_constant, is_call_of, rule};

fn returns(kind: &Kind) -> bool
    ensures { result ≡ spec.returns kind.now }
{
    matches!(kind, Kind::Ret { .. })
}

/// Whether the instruction before is a deinit call of the generic mode.
fn is_deinit(before: Option<&Inst>) -> bool
    ensures { result ≡ spec.is_deinit (option_copied before.entry) }
{
    match before {
        None => false,
        Some(inst) => is_call_of(Rtl::TargetDeinit, inst) && has_constant(inst, 1, 1),
    }
}

/// The instruction before a place.
fn before_place(insts: &[Inst], place: usize) -> Option<&Inst>
    ensures { option_copied result ≡ ends.before_place insts.now place }
{
    if place == 0 {
        None
    } else {
        insts.get(place - 1)
    }
}

/// Whether these instructions begin with a return.
fn returns_next(behind: &[Inst]) -> bool
    ensures { result ≡ spec.returns_next behind.now }
{
    match behind {
        [] => false,
        [inst, ..] => returns(&inst.kind),
    }
}

/// What is told of a return, unless it is free.
fn of_return(free: bool, before: Option<&Inst>, inst: &Inst) -> Option<Refusal>
    ensures { result ≡ least (ends.of_return free (option_copied before.entry) inst.now) }
{
    if returns(&inst.kind) {
        rule(Construct::KernelShape, free || is_deinit(before), inst.line)
    } else {
        None
    }
}

/// What is told of a deinit call.
fn of_deinit(inst: &Inst, behind: &[Inst]) -> Option<Refusal>
    ensures { result ≡ least (ends.of_deinit inst.now behind.now) }
{
    if is_call_of(Rtl::TargetDeinit, inst) {
        rule(
            Construct::KernelShape,
            has_constant(inst, 1, 1) && returns_next(behind),
            inst.line,
        )
    } else {
        None
    }
}

fn of_end(free: bool, before: Option<&Inst>, inst: &Inst, behind: &[Inst]) -> Option<Refusal>
    ensures { result ≡ least (ends.of_end free (option_copied before.entry) inst.now behind.now) }
{
    earlier(of_return(free, before, inst), of_deinit(inst, behind))
}

/// What is told of the ends in a block; its returns are free where it is the exit for workers.
pub fn of_ends(free: bool, insts: &[Inst]) -> Option<Refusal>
    ensures { result ≡ least (spec.of_ends free None insts.now) }
{
    let mut found = None;
    let mut place = insts.len();
    while place > 0 {
        place -= 1;
        let before = before_place(insts, place);
        let own = of_end(free, before, &insts[place], &insts[place + 1..]);
        found = earlier(own, found);
    }
    found
}
