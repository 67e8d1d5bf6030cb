//! Addresses inside values, as getelementptr gives them. The indices go into the type one after another, so that no list of them is made.
ghost use Rattle.std.specs.Prelude.{◌≡◌, ℤ, List, [], ◌∷◌, ◌++◌, Ok};
ghost use Rattle.ir_core.specs.declared.types.Ty.{Ty as SpecTy};
ghost use Rattle.ir_core.specs.Layout.{WellFormed, Offset};
ghost use Rattle.mem_model.specs.Values as spec;
ghost use Rattle.mem_model.specs.Values.{and_then};
ghost use Rattle.interp_local.specs.Operands as read;
ghost use Rattle.interp_local.specs.Operands.{AreFew, registers};
ghost use Rattle.interp_local.specs.Addresses.{Reaches};

use crate::operands::{operand, pointer, width_of};
use ir_core::{Ty, Typed};
use ir_tables::{Indexed, Walk};
use mem_model::{Ptr, Trap, Word, sign_extend, wrapped};
use thread_state::ThreadState;

/// The index that an operand is, with its sign.
fn index(m: &Indexed, s: &ThreadState, ty: &Ty, value: &Typed) -> Result<i64, Trap>
    requires few { AreFew m.now }
    requires ty { ty.now ≡ value.now.ty }
    ensures { result ≡ and_then (spec.operand m.now (registers m.now s.now) value.now.ty value.now.value) (spec.index_of value.now.ty) }
{
    match operand(m, s, ty, &value.value)? {
        Word::Int(number) => Ok(sign_extend(width_of(ty), number)),
        Word::Ptr(_) => Err(Trap::Unreachable),
    }
}

/// One index further, where none has gone into nothing.
fn further<'a>(m: &'a Indexed, walk: Option<Walk<'a>>, index: i64) -> Option<Walk<'a>>
    ensures { (ty : SpecTy) (front : List ℤ) → Reaches m.now.types ty front walk.entry → Reaches m.now.types ty (front ++ index ∷ []) result }
{
    match walk {
        None => None,
        Some(walk) => m.walk_into(walk, index),
    }
}

/// What the indices of a getelementptr of a type add; none where one goes into nothing. All of them are read.
fn offset(m: &Indexed, s: &ThreadState, ty: &Ty, path: &[Typed]) -> Result<Option<i64>, Trap>
    requires few { AreFew m.now }
    requires sized { WellFormed m.now.types ty.now }
    ensures { result ≡ and_then (spec.path_of m.now (registers m.now s.now) path.now) (λ indices. Ok (Offset m.now.types ty.now indices)) }
{
    let mut walk = Some(Walk::new(ty));
    for value in path {
        let index = index(m, s, &value.ty, value)?;
        walk = further(m, walk, index);
    }
    match walk {
        None => Ok(None),
        Some(walk) => Ok(Some(walk.offset())),
    }
}

/// A pointer so far on, modulo 2^64; a number stays one.
fn moved(at: Ptr, distance: i64) -> Ptr
    ensures { result ≡ spec.moved at distance }
{
    match at {
        Ptr::Num(number) => Ptr::Num(wrapped(64, i128::from(number) + i128::from(distance))),
        Ptr::At(block, offset) => Ptr::At(block, offset.wrapping_add(distance)),
    }
}

/// The address that a getelementptr gives.
pub(crate) fn element(
    m: &Indexed,
    s: &ThreadState,
    ty: &Ty,
    base: &Typed,
    path: &[Typed],
) -> Result<Word, Trap>
    requires few { AreFew m.now }
    requires sized { WellFormed m.now.types ty.now }
    ensures { result ≡ read.element m.now (registers m.now s.now) ty.now base.now path.now }
{
    let at = pointer(m, s, &base.ty, &base.value)?;
    match offset(m, s, ty, path)? {
        Some(distance) => Ok(Word::Ptr(moved(at, distance))),
        None => Err(Trap::Unreachable),
    }
}
