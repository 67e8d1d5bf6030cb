//! Which functions have forks, and which reach one by call paths.
ghost use Rattle.std.specs.Prelude.{◌≡◌, ◌↔◌, length, true, IfOk};
ghost use Rattle.std.specs.List.{list_any};
ghost use Rattle.shapes.specs.Facts.{insts_of, is_call_of as is_call};
ghost use Rattle.call_paths.specs.Known.{IsRowOf, AreRowsOf};
ghost use Rattle.call_paths.specs.Rows.{ShareMark};
ghost use Rattle.call_paths.specs.Runs.{HasFork, Reaches, ReachesRegion};

use crate::rows::is_marked;
use ir_core::{Function, Inst, List, Module, OutOfMemory, Rtl};
use shape_facts::is_call_of;
use std::alloc::Global;

fn any_fork(insts: &[Inst]) -> bool
    ensures { result ≡ list_any (is_call Rtl.Parallel) insts.now }
{
    insts.iter().any(|inst| is_call_of(Rtl::Parallel, inst))
}

/// Whether a function has a fork.
fn has_fork(f: &Function) -> bool
    ensures { result ≡ list_any (is_call Rtl.Parallel) (insts_of f.now) }
{
    f.blocks
        .as_slice()
        .iter()
        .any(|block| any_fork(block.insts.as_slice()))
}

/// For each function whether it has a fork.
fn forking(alloc: Global, m: &Module) -> Result<List<bool>, OutOfMemory>
    ensures { IfOk result (IsRowOf (HasFork m.now)) }
{
    let mut marks = List::new(alloc);
    for f in m.functions.as_slice() {
        marks.push(has_fork(f))?;
    }
    Ok(marks)
}

/// Whether two rows have a mark at the same place.
fn share_mark(row: &[bool], other: &[bool]) -> bool
    ensures { (result ≡ true) ↔ ShareMark row.now other.now }
{
    for (at, mark) in row.iter().enumerate() {
        if *mark && is_marked(other, at) {
            return true;
        }
    }
    false
}

/// For each function whether a call path leads from it to a fork, by the rows of what each function reaches.
/// `OutOfMemory` only where no memory was left.
pub fn reaching(
    alloc: Global,
    m: &Module,
    reaches: &[List<bool>],
) -> Result<List<bool>, OutOfMemory>
    requires { AreRowsOf (Reaches m.now) (length m.now.functions) reaches.now }
    ensures { IfOk result (IsRowOf (ReachesRegion m.now)) }
{
    let forking = forking(alloc, m)?;
    let mut marks = List::new(alloc);
    for row in reaches {
        marks.push(share_mark(row.as_slice(), forking.as_slice()))?;
    }
    Ok(marks)
}
