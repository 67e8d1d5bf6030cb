//! What is refused of an instruction of each kind (LLVM Language Reference, "Instruction Reference").
#![tactic(auto, using(name_tables::proofs::ConstructLaws::least_append))]

ghost use Rattle.std.specs.Prelude.{◌≡◌, List as Listed, ℕ};
ghost use Rattle.std.specs.List.{flat_map};
ghost use Rattle.ir_core.specs.Typing.{in_kind, converts, is_narrower, is_atomic, ordered, compared_in_order, case, returned, is_literal, scope_of};
ghost use Rattle.name_tables.specs.Least.{least_of};

use crate::operands::{in_type, operand, pointer, target, value_in};
use ir_core::{
    BinOp, Case, CastOp, Construct, Flags, Kind, List, Name, Order, Pred, RmwOp, Ty, Typed, Value,
};
use name_tables::{
    Scope, expects, is_int_of, is_integer, is_ptr, is_scalar, is_void, lesser, same_scalar,
};

/// What is refused of a binary operation.
pub fn binary(
    s: &Scope,
    op: BinOp,
    flags: Flags,
    ty: &Ty,
    a: &Value,
    b: &Value,
) -> Option<Construct>
    ensures { (block : Listed ℕ) → result ≡ least_of (in_kind (scope_of s.now.0 s.now.1) block (Kind.Bin op flags ty.now a.now b.now)) }
{
    let written = lesser(in_type(s.tables(), ty), expects(is_integer(ty)));
    lesser(
        lesser(written, value_in(false, s, ty, a)),
        value_in(false, s, ty, b),
    )
}

fn compared_in_order(pred: Pred, ty: &Ty) -> Option<Construct>
    ensures { result ≡ least_of (compared_in_order pred ty.now) }
{
    match pred {
        Pred::Eq | Pred::Ne => None,
        _ => {
            if is_ptr(ty) {
                Some(Construct::PointerOrder)
            } else {
                None
            }
        }
    }
}

/// What is refused of a comparison.
pub fn comparison(s: &Scope, pred: Pred, ty: &Ty, a: &Value, b: &Value) -> Option<Construct>
    ensures { (block : Listed ℕ) → result ≡ least_of (in_kind (scope_of s.now.0 s.now.1) block (Kind.ICmp pred ty.now a.now b.now)) }
{
    let written = lesser(in_type(s.tables(), ty), expects(is_scalar(ty)));
    let compared = lesser(written, compared_in_order(pred, ty));
    lesser(
        lesser(compared, value_in(false, s, ty, a)),
        value_in(false, s, ty, b),
    )
}

fn is_narrower(a: &Ty, b: &Ty) -> bool
    ensures { result ≡ is_narrower a.now b.now }
{
    match (a, b) {
        (Ty::Int(width), Ty::Int(other)) => *width < *other,
        _ => false,
    }
}

fn converts(op: CastOp, from: &Ty, to: &Ty) -> bool
    ensures { result ≡ converts op from.now to.now }
{
    match op {
        CastOp::ZExt | CastOp::SExt => is_narrower(from, to),
        CastOp::Trunc => is_narrower(to, from),
        CastOp::IntToPtr => is_integer(from) && is_ptr(to),
        CastOp::PtrToInt => is_ptr(from) && is_integer(to),
    }
}

/// What is refused of a conversion.
pub fn conversion(s: &Scope, op: CastOp, from: &Typed, to: &Ty) -> Option<Construct>
    ensures { (block : Listed ℕ) → result ≡ least_of (in_kind (scope_of s.now.0 s.now.1) block (Kind.Cast op from.now to.now)) }
{
    let written = lesser(operand(s, from), in_type(s.tables(), to));
    lesser(written, expects(converts(op, &from.ty, to)))
}

/// What is refused of a `select`.
pub fn selection(s: &Scope, cond: &Typed, a: &Typed, b: &Typed) -> Option<Construct>
    ensures { (block : Listed ℕ) → result ≡ least_of (in_kind (scope_of s.now.0 s.now.1) block (Kind.Select cond.now a.now b.now)) }
{
    let operands = lesser(lesser(operand(s, cond), operand(s, a)), operand(s, b));
    lesser(
        operands,
        expects(is_int_of(1, &cond.ty) && same_scalar(&a.ty, &b.ty)),
    )
}

fn is_atomic(ty: &Ty) -> bool
    ensures { result ≡ is_atomic ty.now }
{
    is_integer(ty) && !is_int_of(1, ty)
}

fn ordered(order: Option<Order>, ty: &Ty) -> Option<Construct>
    ensures { result ≡ least_of (ordered order ty.now) }
{
    match order {
        None => None,
        Some(_) => expects(is_atomic(ty)),
    }
}

/// What is refused of a load.
pub fn loaded(s: &Scope, ty: &Ty, at: &Typed, order: Option<Order>, align: u32) -> Option<Construct>
    ensures { (block : Listed ℕ) → result ≡ least_of (in_kind (scope_of s.now.0 s.now.1) block (Kind.Load ty.now at.now order align)) }
{
    let written = lesser(in_type(s.tables(), ty), expects(is_scalar(ty)));
    lesser(lesser(written, pointer(s, at)), ordered(order, ty))
}

/// What is refused of a store.
pub fn stored(
    s: &Scope,
    value: &Typed,
    at: &Typed,
    order: Option<Order>,
    align: u32,
) -> Option<Construct>
    ensures { (block : Listed ℕ) → result ≡ least_of (in_kind (scope_of s.now.0 s.now.1) block (Kind.Store value.now at.now order align)) }
{
    lesser(
        lesser(operand(s, value), pointer(s, at)),
        ordered(order, &value.ty),
    )
}

/// What is refused of an `atomicrmw`.
pub fn rmw(
    s: &Scope,
    op: RmwOp,
    at: &Typed,
    value: &Typed,
    order: Order,
    align: u32,
) -> Option<Construct>
    ensures { (block : Listed ℕ) → result ≡ least_of (in_kind (scope_of s.now.0 s.now.1) block (Kind.Rmw op at.now value.now order align)) }
{
    lesser(
        lesser(pointer(s, at), operand(s, value)),
        expects(is_atomic(&value.ty)),
    )
}

/// What is refused of a branch on a condition.
pub fn conditional_branch(s: &Scope, cond: &Typed, yes: &Name, no: &Name) -> Option<Construct>
    ensures { (block : Listed ℕ) → result ≡ least_of (in_kind (scope_of s.now.0 s.now.1) block (Kind.CondBr cond.now yes.now no.now)) }
{
    let on = lesser(operand(s, cond), expects(is_int_of(1, &cond.ty)));
    lesser(lesser(on, target(s, yes)), target(s, no))
}

fn is_literal(value: &Value) -> bool
    ensures { result ≡ is_literal value.now }
{
    match value {
        Value::Int(_) => true,
        _ => false,
    }
}

fn one_case(s: &Scope, ty: &Ty, item: &Case) -> Option<Construct>
    ensures { result ≡ least_of (case (scope_of s.now.0 s.now.1) ty.now item.now) }
{
    let literal = same_scalar(ty, &item.value.ty) && is_literal(&item.value.value);
    lesser(
        lesser(operand(s, &item.value), expects(literal)),
        target(s, &item.block),
    )
}

fn each_case(s: &Scope, ty: &Ty, cases: &[Case]) -> Option<Construct>
    ensures { result ≡ least_of (flat_map (case (scope_of s.now.0 s.now.1) ty.now) cases.now) }
{
    let mut found = None;
    for item in cases {
        found = lesser(found, one_case(s, ty, item));
    }
    found
}

/// What is refused of a `switch`.
pub fn switch(s: &Scope, on: &Typed, other: &Name, all: &List<Case>) -> Option<Construct>
    ensures { (block : Listed ℕ) → result ≡ least_of (in_kind (scope_of s.now.0 s.now.1) block (Kind.Switch on.now other.now all.now)) }
{
    let on_integer = lesser(operand(s, on), expects(is_integer(&on.ty)));
    let others = lesser(on_integer, target(s, other));
    lesser(others, each_case(s, &on.ty, all.as_slice()))
}

/// What is refused of a `ret`.
pub fn returned(s: &Scope, value: &Option<Typed>) -> Option<Construct>
    ensures { result ≡ least_of (returned (scope_of s.now.0 s.now.1) value.now) }
{
    let ret = &s.function().ret;
    match value {
        None => expects(is_void(ret)),
        Some(v) => lesser(operand(s, v), expects(same_scalar(ret, &v.ty))),
    }
}
