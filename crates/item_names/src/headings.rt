//! What is refused of the headings of functions.
#![tactic(auto, using(name_tables::proofs::ConstructLaws::least_append))]

ghost use Rattle.std.specs.Prelude.{◌≡◌, [], ◌∷◌, map, if◌then◌else◌};
ghost use Rattle.std.specs.List.{flat_map};
ghost use Rattle.ir_core.specs.EntryPoints.{scalar_type, entry_name, entry_point};
ghost use Rattle.ir_core.specs.NameRefusals.{are_declared, is_result_of, in_declaration, in_signature, in_param, is_result, in_heading, least};
ghost use Rattle.ir_core.specs.declared.refusal.Construct.TheVariants.{Signature};
ghost use Rattle.name_tables.specs.Least.{least_of};
ghost use Rattle.item_names.specs.Headings.{is_typed};
ghost use Rattle.item_names.specs.Items.{of_heading};

use ir_core::{Construct, Function, Param, Refusal, Rtl, Scalar, Ty};
use ir_names::{if_output, in_type, same_result};
use name_tables::{
    Tables, earlier, expects, is_int_of, is_of, is_scalar, is_void, lesser, refused_at,
};

fn are_declared(wanted: &[Scalar], params: &[Param]) -> bool
    ensures { result ≡ are_declared (map scalar_type wanted.now) params.now }
{
    if wanted.len() != params.len() {
        return false;
    }
    for i in 0..wanted.len() {
        if !is_of(Some(wanted[i]), &params[i].ty) {
            return false;
        }
    }
    true
}

// An i8 is taken beside the i16 of the level.
fn is_result_of(entry_point: Rtl, ty: &Ty) -> bool
    ensures { result ≡ is_result_of entry_point ty.now }
{
    match entry_point {
        Rtl::ParallelLevel => is_int_of(16, ty) || is_int_of(8, ty),
        _ => same_result(&entry_point.result(), ty),
    }
}

fn is_typed(f: &Function, entry_point: Rtl) -> bool
    ensures { result ≡ is_typed entry_point f.now.ret f.now.params }
{
    is_result_of(entry_point, &f.ret) && are_declared(entry_point.params(), f.params.as_slice())
}

fn if_mistyped(is_typed: bool) -> Option<Construct>
    ensures { result ≡ least_of (if is_typed then [] else Signature ∷ []) }
{
    if is_typed {
        None
    } else {
        Some(Construct::Signature)
    }
}

fn in_declaration(f: &Function, entry_point: Rtl) -> Option<Construct>
    requires { entry_name entry_point ≡ f.now.name }
    ensures { result ≡ least_of (in_declaration f.now f.now.blocks) }
{
    match f.blocks.as_slice() {
        [] => lesser(if_mistyped(is_typed(f, entry_point)), if_output(&f.name)),
        _ => Some(Construct::Signature),
    }
}

fn in_signature(f: &Function) -> Option<Construct>
    ensures { result ≡ least_of (in_signature f.now) }
{
    match Rtl::of(&f.name) {
        None => None,
        Some(entry_point) => in_declaration(f, entry_point),
    }
}

fn in_params(tables: &Tables, params: &[Param]) -> Option<Construct>
    ensures { result ≡ least_of (flat_map (in_param tables.now) params.now) }
{
    let mut found = None;
    for param in params {
        let refused = lesser(in_type(tables, &param.ty), expects(is_scalar(&param.ty)));
        found = lesser(found, refused);
    }
    found
}

fn is_result(ty: &Ty) -> bool
    ensures { result ≡ is_result ty.now }
{
    is_void(ty) || is_scalar(ty)
}

/// What is refused of a function's heading: its types, and an entry point that is defined or has other types.
pub fn in_heading(tables: &Tables, f: &Function) -> Option<Construct>
    ensures { result ≡ least_of (in_heading tables.now f.now) }
{
    let ret = lesser(in_type(tables, &f.ret), expects(is_result(&f.ret)));
    let typed = lesser(ret, in_params(tables, f.params.as_slice()));
    lesser(typed, in_signature(f))
}

/// What is refused of the headings of all functions.
#[tactic(auto, using(name_tables::proofs::RefusalLaws::first_at))]
pub fn of_headings(tables: &Tables, functions: &[Function]) -> Option<Refusal>
    ensures { result ≡ least (flat_map (of_heading tables.now) functions.now) }
{
    let mut found = None;
    for f in functions {
        found = earlier(found, refused_at(f.line, in_heading(tables, f)));
    }
    found
}
