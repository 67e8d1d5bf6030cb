//! What is refused of a `getelementptr`.
#![tactic(auto, using(name_tables::proofs::ConstructLaws::least_append))]

ghost use Rattle.std.specs.Prelude.{◌≡◌, List as Listed, ℕ, option_copied};
ghost use Rattle.std.specs.List.{list_all};
ghost use Rattle.ir_core.specs.declared.types.Ty.{out-Ty};
ghost use Rattle.ir_core.specs.FirstForm.{is_integer};
ghost use Rattle.ir_core.specs.Given.{shape_of};
ghost use Rattle.ir_core.specs.Typing.{in_kind, field_at, inner_type, goes_into, goes_along, scope_of};
ghost use Rattle.name_tables.specs.Least.{least_of};

use crate::calls::each_operand;
use crate::operands::{in_type, pointer};
use ir_core::{Construct, Kind, List, Ty, Typed, Value};
use name_tables::{Scope, Tables, expects, is_integer, lesser};

/// What a type is, where it is a name what the name stands for.
pub fn shape<'a>(tables: &'a Tables<'a>, ty: &'a Ty) -> &'a Ty
    ensures { out-Ty result.now ≡ shape_of tables.now.types ty.now }
{
    let mut shape = ty;
    let mut left = tables.module().types.len();
    while left > 0 {
        let Ty::Named(name) = shape else {
            return shape;
        };
        match tables.type_given(name) {
            None => return shape,
            Some(body) => shape = body,
        }
        left -= 1;
    }
    shape
}

fn field_at<'a>(fields: &'a [Ty], index: &Value) -> Option<&'a Ty>
    ensures { option_copied result ≡ field_at fields.now index.now }
{
    match index {
        Value::Int(n) => fields.get(*n as usize),
        _ => None,
    }
}

fn inner_type<'a>(shape: &'a Ty, index: &Value) -> Option<&'a Ty>
    ensures { option_copied result ≡ inner_type (out-Ty shape.now) index.now }
{
    match shape {
        Ty::Array(_, item) => Some(item.get()),
        Ty::Struct(fields) => field_at(fields.as_slice(), index),
        _ => None,
    }
}

fn goes_into<'a>(tables: &'a Tables<'a>, path: &'a [Typed], ty: &'a Ty) -> bool
    ensures { result ≡ goes_into tables.now path.now ty.now }
{
    let mut inside = ty;
    for v in path {
        match inner_type(shape(tables, inside), &v.value) {
            None => return false,
            Some(inner) => inside = inner,
        }
    }
    true
}

fn goes_along<'a>(tables: &'a Tables<'a>, path: &'a [Typed], ty: &'a Ty) -> bool
    ensures { result ≡ goes_along tables.now path.now ty.now }
{
    match path.split_first() {
        None => false,
        Some((_, rest)) => goes_into(tables, rest, ty),
    }
}

fn are_integers(path: &[Typed]) -> bool
    ensures { result ≡ list_all (λ v. is_integer v.ty) path.now }
{
    path.iter().all(|v| is_integer(&v.ty))
}

/// What is refused of a `getelementptr`.
pub fn address(
    s: &Scope,
    inbounds: bool,
    ty: &Ty,
    base: &Typed,
    path: &List<Typed>,
) -> Option<Construct>
    ensures { (block : Listed ℕ) → result ≡ least_of (in_kind (scope_of s.now.0 s.now.1) block (Kind.Gep inbounds ty.now base.now path.now)) }
{
    let indices = path.as_slice();
    let based = lesser(in_type(s.tables(), ty), pointer(s, base));
    let operands = lesser(based, each_operand(false, s, indices));
    lesser(
        operands,
        expects(are_integers(indices) && goes_along(s.tables(), indices, ty)),
    )
}
