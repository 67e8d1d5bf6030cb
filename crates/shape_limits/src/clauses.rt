//! The operands that the clauses of a construct give: a condition, a number of threads, a schedule, and locations of the source.
ghost use Rattle.std.specs.Prelude.{◌≡◌};
ghost use Rattle.std.specs.List.{flat_map, list_any};
ghost use Rattle.ir_core.specs.NameRefusals.{least};
ghost use Rattle.shapes.specs.Clauses as spec;
ghost use Rattle.shapes.specs.Facts.{is_call_of as is_call};
ghost use Rattle.shapes.specs.Insts.{insts_seen};

use ir_core::{Construct, Inst, Refusal, Rtl};
use name_tables::earlier;
use shape_facts::{has_constant, has_register, is_call_of, rule};

// The entry points whose first operand is a location of the source.
const LOCATED: [Rtl; 8] = [
    Rtl::TargetInit,
    Rtl::TargetDeinit,
    Rtl::Parallel,
    Rtl::Barrier,
    Rtl::GlobalThreadNum,
    Rtl::ParallelLevel,
    Rtl::ForStaticInit,
    Rtl::ForStaticFini,
];

fn is_located(inst: &Inst) -> bool
    ensures { result ≡ list_any (λ r. is_call r inst.now) spec.located }
{
    LOCATED
        .iter()
        .any(|entry_point| is_call_of(*entry_point, inst))
}

fn has_location(inst: &Inst) -> bool
    ensures { result ≡ spec.has_location inst.now }
{
    if is_located(inst) {
        !has_register(inst, 0)
    } else {
        true
    }
}

/// The condition of a fork is 1, and the number of threads isn't asked for.
fn has_fork_clauses(inst: &Inst) -> bool
    ensures { result ≡ spec.has_fork_clauses inst.now }
{
    if is_call_of(Rtl::Parallel, inst) {
        has_constant(inst, 2, 1) && has_constant(inst, 3, 0xffff_ffff)
    } else {
        true
    }
}

/// A static schedule is one in chunks or without.
fn has_schedule(inst: &Inst) -> bool
    ensures { result ≡ spec.has_schedule inst.now }
{
    if is_call_of(Rtl::ForStaticInit, inst) {
        has_constant(inst, 2, 33) || has_constant(inst, 2, 34)
    } else {
        true
    }
}

fn of_clauses(inst: &Inst) -> Option<Refusal>
    ensures { result ≡ least (spec.of_clauses inst.now) }
{
    rule(
        Construct::ClauseArgument,
        has_location(inst) && has_fork_clauses(inst) && has_schedule(inst),
        inst.line,
    )
}

/// What is told of the clauses in these instructions.
pub fn of_all_clauses(insts: &[&Inst]) -> Option<Refusal>
    ensures { result ≡ least (flat_map spec.of_clauses (insts_seen insts.now)) }
{
    let mut found = None;
    for inst in insts {
        found = earlier(found, of_clauses(inst));
    }
    found
}
