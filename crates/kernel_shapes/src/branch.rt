//! The comparison of the init call's result with -1, and the branch on it: where the main thread and where the workers go.
ghost use Rattle.std.specs.Prelude.{◌≡◌, option_map, length, drop};
ghost use Rattle.std.specs.Option.{option_copied};
ghost use Rattle.ir_core.specs.FirstForm.{is_register, are_compared, is_number};
ghost use Rattle.ir_core.specs.NameRefusals.{least};
ghost use Rattle.shapes.specs.KernelShape as spec;
ghost use Rattle.kernel_shapes.specs.Seen.{ways_seen};

use ir_core::{Construct, Inst, Kind, Name, Pred, Refusal, Value};
use shape_facts::rule;

/// Where the main thread goes, and where the workers go.
#[derive(Clone, Copy)]
pub struct Ways<'a> {
    pub user: &'a Name,
    pub exit: &'a Name,
}

fn is_register(name: &Name, value: &Value) -> bool
    ensures { result ≡ is_register name.now value.now }
{
    match value {
        Value::Local(found) => found.as_slice() == name.as_slice(),
        _ => false,
    }
}

/// Whether an operand is -1 of 32 bits.
fn is_minus_one(value: &Value) -> bool
    ensures { result ≡ is_number 0xffff_ffff value.now }
{
    matches!(value, Value::Int(0xffff_ffff))
}

/// Whether these are the register and -1, in either order.
fn are_compared(name: &Name, a: &Value, b: &Value) -> bool
    ensures { result ≡ are_compared name.now a.now b.now }
{
    if is_register(name, a) {
        is_minus_one(b)
    } else {
        is_minus_one(a) && is_register(name, b)
    }
}

fn compares(name: &Name, kind: &Kind) -> bool
    ensures { result ≡ spec.compares name.now kind.now }
{
    match kind {
        Kind::ICmp {
            pred: Pred::Eq | Pred::Ne,
            a,
            b,
            ..
        } => are_compared(name, a, b),
        _ => false,
    }
}

/// Whether it compares the init call's result with -1.
fn is_test(init: Option<&Name>, test: &Inst) -> bool
    ensures { result ≡ spec.is_test (option_copied init.entry) test.now }
{
    match init {
        None => false,
        Some(name) => compares(name, &test.kind),
    }
}

/// The ways by a comparison, of which the first is that where it holds.
fn ways_by<'a>(test: &Kind, yes: &'a Name, no: &'a Name) -> Option<Ways<'a>>
    ensures { option_map ways_seen result ≡ spec.ways_by test.now yes.now no.now }
{
    match test {
        Kind::ICmp { pred: Pred::Eq, .. } => Some(Ways {
            user: yes,
            exit: no,
        }),
        Kind::ICmp { pred: Pred::Ne, .. } => Some(Ways {
            user: no,
            exit: yes,
        }),
        _ => None,
    }
}

/// Where the branch on a comparison goes; none where it isn't one.
pub fn branch_ways<'a>(test: &Inst, branch: &'a Inst) -> Option<Ways<'a>>
    ensures { option_map ways_seen result ≡ spec.ways test.now branch.now }
{
    match (&test.result, &branch.kind) {
        (Some(name), Kind::CondBr { cond, yes, no }) => {
            if is_register(name, &cond.value) {
                ways_by(&test.kind, yes, no)
            } else {
                None
            }
        }
        _ => None,
    }
}

/// Whether the ways go apart.
fn two_ways(ways: Option<Ways>) -> bool
    ensures { result ≡ spec.two_ways (option_map ways_seen ways.entry) }
{
    match ways {
        None => false,
        Some(ways) => ways.user.as_slice() != ways.exit.as_slice(),
    }
}

/// What is told of the branch on a comparison, in a kernel on this line.
fn of_branch(line: u32, test: &Inst, behind: &[Inst]) -> Option<Refusal>
    ensures { result ≡ least (spec.of_branch line test.now behind.now) }
{
    match behind {
        [] => rule(Construct::KernelShape, false, line),
        [branch, ..] => rule(
            Construct::KernelShape,
            two_ways(branch_ways(test, branch)),
            branch.line,
        ),
    }
}

/// What is told of the instructions behind the init call with this result, in a kernel on this line.
pub fn of_behind(line: u32, init: Option<&Name>, behind: &[Inst]) -> Option<Refusal>
    ensures { result ≡ least (spec.of_behind line (option_copied init.entry) behind.now) }
{
    match behind {
        [] => rule(Construct::KernelShape, false, line),
        [test, more @ ..] => {
            if is_test(init, test) {
                of_branch(line, test, more)
            } else {
                rule(Construct::KernelShape, false, test.line)
            }
        }
    }
}
