//! Types that are the same as they are written.
#![tactic(auto)]

ghost use Rattle.std.specs.Prelude.{◌≡◌, map};
ghost use Rattle.ir_core.specs.declared.types.Ty.{out-Ty};
ghost use Rattle.ir_core.specs.Given.{same_type, same_layer, all_same};

use ir_core::Ty;

/// Whether both are the same type as they are written.
#[cycle(same_type)]
pub fn same_type(a: &Ty, b: &Ty) -> bool
    ensures { result ≡ same_type a.now b.now }
{
    match (a, b) {
        (Ty::Void, Ty::Void) | (Ty::Ptr, Ty::Ptr) => true,
        (Ty::Int(width), Ty::Int(other)) => *width == *other,
        (Ty::Array(n, item), Ty::Array(k, other)) => *n == *k && same_type(item.get(), other.get()),
        (Ty::Struct(fields), Ty::Struct(others)) => {
            same_types(fields.as_slice(), others.as_slice())
        }
        (Ty::Named(name), Ty::Named(other)) => name.as_slice() == other.as_slice(),
        _ => false,
    }
}

#[cycle(same_type)]
fn same_types(tys: &[Ty], others: &[Ty]) -> bool
    ensures { result ≡ all_same (map same_type tys.now) others.now }
{
    if tys.len() != others.len() {
        return false;
    }
    for i in 0..tys.len() {
        if !same_type(&tys[i], &others[i]) {
            return false;
        }
    }
    true
}
