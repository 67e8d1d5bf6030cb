//! What is refused of wrappers.
ghost use Rattle.std.specs.Prelude.{◌≡◌, nat_le, IfOk};
ghost use Rattle.std.specs.List.{list_all, flat_map};
ghost use Rattle.std.specs.Option.{option_copied};
ghost use Rattle.ir_core.specs.NameRefusals.{least};
ghost use Rattle.name_uses.specs.Tables.{AreUses};
ghost use Rattle.shapes.specs.Wrappers as spec;
ghost use Rattle.wrapper_shapes.specs.Forms.{has_form};

use crate::paths::of_walk;
use crate::regions::region_function;
use crate::walks::captures_of;
use ir_core::{Construct, Function, OutOfMemory, Param, Refusal};
use ir_tables::Indexed;
use name_tables::{earlier, is_int_of, is_ptr, is_void};
use name_uses::Uses;
use shape_facts::{insts_of, rule};
use std::alloc::Global;

/// A capture is a pointer or a word of 64 bits.
fn is_capture(param: &Param) -> bool
    ensures { result ≡ spec.is_capture param.now }
{
    if is_ptr(&param.ty) {
        true
    } else {
        is_int_of(64, &param.ty)
    }
}

fn are_captures(params: &[Param]) -> bool
    ensures { result ≡ list_all spec.is_capture params.now }
{
    params.iter().all(|param| is_capture(param))
}

fn are_region_params(params: &[Param]) -> bool
    ensures { result ≡ spec.are_region_params params.now }
{
    match params {
        [thread, bound, captured @ ..] => {
            is_ptr(&thread.ty) && is_ptr(&bound.ty) && are_captures(captured)
        }
        _ => false,
    }
}

fn is_region(region: Option<&Function>) -> bool
    ensures { result ≡ spec.is_region (option_copied region.entry) }
{
    match region {
        None => false,
        Some(f) => is_void(&f.ret) && are_region_params(f.params.as_slice()),
    }
}

fn are_wrapper_params(params: &[Param]) -> bool
    ensures { result ≡ spec.are_wrapper_params params.now }
{
    match params {
        [zero, thread] => is_int_of(16, &zero.ty) && is_int_of(32, &thread.ty),
        _ => false,
    }
}

/// A wrapper of so many captures has no more instructions than these.
fn is_short(insts: usize, captures: u64) -> bool
    ensures { result ≡ nat_le insts (spec.most_insts captures) }
{
    insts as u128 <= 16 + 8 * captures as u128
}

/// What is asked of a wrapper with this region function and so many instructions, but for its walk.
fn has_form(region: Option<&Function>, f: &Function, insts: usize, elsewhere: bool) -> bool
    ensures { result ≡ has_form (option_copied region.entry) f.now insts elsewhere }
{
    is_void(&f.ret)
        && are_wrapper_params(f.params.as_slice())
        && f.blocks.len() == 1
        && is_region(region)
        && is_short(insts, captures_of(region))
        && !elsewhere
}

/// What is told of a wrapper.
fn of_wrapper(
    alloc: Global,
    m: &Indexed,
    uses: &Uses,
    f: &Function,
) -> Result<Option<Refusal>, OutOfMemory>
    requires { AreUses m.now uses.now }
    ensures { IfOk result (λ r. r ≡ least (spec.of_wrapper m.now f.now)) }
{
    let region = region_function(m, f);
    let insts = insts_of(alloc, f)?;
    if has_form(region, f, insts.len(), uses.is_elsewhere(&f.name)) {
        of_walk(alloc, region, f.params.as_slice(), insts.as_slice())
    } else {
        Ok(rule(Construct::WrapperShape, false, f.line))
    }
}

/// What is told of a function, if it is a wrapper.
fn of_function(
    alloc: Global,
    m: &Indexed,
    uses: &Uses,
    f: &Function,
) -> Result<Option<Refusal>, OutOfMemory>
    requires { AreUses m.now uses.now }
    ensures { IfOk result (λ r. r ≡ least (spec.of_function m.now f.now)) }
{
    if uses.is_wrapper(f) {
        of_wrapper(alloc, m, uses, f)
    } else {
        Ok(None)
    }
}

/// What is told of the wrappers among these functions.
pub fn of_functions(
    alloc: Global,
    m: &Indexed,
    uses: &Uses,
    functions: &[Function],
) -> Result<Option<Refusal>, OutOfMemory>
    requires { AreUses m.now uses.now }
    ensures { IfOk result (λ r. r ≡ least (flat_map (spec.of_function m.now) functions.now)) }
{
    let mut found = None;
    for f in functions {
        found = earlier(found, of_function(alloc, m, uses, f)?);
    }
    Ok(found)
}
