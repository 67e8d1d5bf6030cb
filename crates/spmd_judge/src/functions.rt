//! The rules that are asked of the functions that reach a region, and of the kernel.
ghost use Rattle.std.specs.Prelude.{◌≡◌, ◌↔◌, true};
ghost use Rattle.call_paths.specs.Known.{AreCalls};
ghost use Rattle.shapes.specs.CallPaths.{IsOnMainSideOf, IsOnRegionSide};
ghost use Rattle.spmd_rules.specs.Rules.{AtFunction, IsShared, ReachesNone};
ghost use Rattle.spmd_judge.specs.Lines.{IsLeastLine};
ghost use Rattle.spmd_judge.specs.Judging.{BreaksFunction, FunctionBreaks};

use crate::lines::lesser;
use call_paths::{Calls, Side};
use ir_core::Module;

/// A rule that is asked of each function that reaches a region: it stands on no other kernel's main side; it stands on no region side.
#[derive(Clone, Copy)]
pub enum FunctionRule {
    Shared,
    InRegion,
}

/// Whether the function at a place stands on the main side of the kernel at the other.
pub(crate) fn is_on_main_side_of(_m: &Module, calls: &Calls, kernel: usize, at: usize) -> bool
    requires { AreCalls _m.now calls.now }
    ensures { (result ≡ true) ↔ IsOnMainSideOf _m.now kernel at }
{
    calls.reached_by(kernel, kernel) && calls.reaches(kernel, at)
}

/// Whether the function at a place stands on the main side of the kernel at a further place, which is not the first kernel.
fn is_on_other_side(m: &Module, calls: &Calls, kernel: usize, other: usize, at: usize) -> bool
    requires { AreCalls m.now calls.now }
    ensures { (result ≡ true) ↔ ((other ≡ kernel → ⊥) × IsOnMainSideOf m.now other at) }
{
    other != kernel && is_on_main_side_of(m, calls, other, at)
}

/// Whether the function at a place stands on the main side of another kernel.
fn is_shared(m: &Module, calls: &Calls, kernel: usize, at: usize) -> bool
    requires { AreCalls m.now calls.now }
    ensures { (result ≡ true) ↔ IsShared m.now kernel at }
{
    for other in 0..m.functions.len() {
        if is_on_other_side(m, calls, kernel, other, at) {
            return true;
        }
    }
    false
}

/// Whether the function at a place stands on the region side.
fn is_on_region_side(_m: &Module, calls: &Calls, at: usize) -> bool
    requires { AreCalls _m.now calls.now }
    ensures { (result ≡ true) ↔ IsOnRegionSide _m.now at }
{
    matches!(calls.side(at), Side::Region | Side::Both)
}

/// Whether the function at a place breaks the rule.
fn breaks_function(m: &Module, calls: &Calls, rule: FunctionRule, kernel: usize, at: usize) -> bool
    requires { AreCalls m.now calls.now }
    ensures { (result ≡ true) ↔ BreaksFunction rule m.now kernel at }
{
    match rule {
        FunctionRule::Shared => is_shared(m, calls, kernel, at),
        FunctionRule::InRegion => is_on_region_side(m, calls, at),
    }
}

/// The line of the function at a place, where it stands on the kernel's main side, reaches a region and breaks the rule.
fn line_of(m: &Module, calls: &Calls, rule: FunctionRule, kernel: usize, at: usize) -> Option<u32>
    requires { AreCalls m.now calls.now }
    ensures { IsLeastLine (FunctionBreaks m.now rule kernel at) result }
{
    match m.functions.get(at) {
        Some(f) => {
            if is_on_main_side_of(m, calls, kernel, at)
                && calls.reaches_region(at)
                && breaks_function(m, calls, rule, kernel, at)
            {
                Some(f.line)
            } else {
                None
            }
        }
        None => None,
    }
}

/// The first line of a function on the kernel's main side that reaches a region and breaks the rule.
pub fn first_function(m: &Module, calls: &Calls, rule: FunctionRule, kernel: usize) -> Option<u32>
    requires { AreCalls m.now calls.now }
    ensures { IsLeastLine (AtFunction m.now kernel (BreaksFunction rule m.now kernel)) result }
{
    let mut first = None;
    for at in 0..m.functions.len() {
        first = lesser(first, line_of(m, calls, rule, kernel, at));
    }
    first
}

/// The line of the kernel, where it reaches no region.
pub fn line_without_region(m: &Module, calls: &Calls, kernel: usize) -> Option<u32>
    requires { AreCalls m.now calls.now }
    ensures { IsLeastLine (ReachesNone m.now kernel) result }
{
    match m.functions.get(kernel) {
        Some(f) => {
            if calls.reaches_region(kernel) {
                None
            } else {
                Some(f.line)
            }
        }
        None => None,
    }
}
