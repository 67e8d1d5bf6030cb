//! Scalar types (LLVM Language Reference, "Type System").
ghost use Rattle.std.specs.Prelude.{◌≡◌};
ghost use Rattle.ir_core.specs.FirstForm.{is_width, is_scalar, is_int_of, is_integer, is_ptr, is_void, same_scalar, is_number_of};
ghost use Rattle.ir_core.specs.Given.{result_type};
ghost use Rattle.name_tables.specs.Kept.{scalar_of, is_of, is_register_type};

use ir_core::{Kind, Scalar, Ty};

/// The scalar type that a type is; none for any other.
pub fn scalar_of(ty: &Ty) -> Option<Scalar>
    ensures { result ≡ scalar_of ty.now }
{
    match ty {
        Ty::Int(width) => Some(Scalar::Int(*width)),
        Ty::Ptr => Some(Scalar::Ptr),
        _ => None,
    }
}

/// Whether the type is that scalar type.
pub fn is_of(scalar: Option<Scalar>, ty: &Ty) -> bool
    ensures { result ≡ is_of scalar ty.now }
{
    match scalar {
        Some(Scalar::Int(width)) => is_int_of(width, ty),
        Some(Scalar::Ptr) => is_ptr(ty),
        None => false,
    }
}

/// The scalar type of an instruction's result; none for any other.
pub fn result_scalar(kind: &Kind) -> Option<Scalar>
    ensures { result ≡ scalar_of (result_type kind.now) }
{
    match kind {
        Kind::Bin { ty, .. } => scalar_of(ty),
        Kind::ICmp { .. } => Some(Scalar::Int(1)),
        Kind::Cast { to, .. } => scalar_of(to),
        Kind::Select { a, .. } => scalar_of(&a.ty),
        Kind::Phi { ty, .. } => scalar_of(ty),
        Kind::Alloca { .. } => Some(Scalar::Ptr),
        Kind::Load { ty, .. } => scalar_of(ty),
        Kind::Rmw { value, .. } => scalar_of(&value.ty),
        Kind::Gep { .. } => Some(Scalar::Ptr),
        Kind::Call { ret, .. } => scalar_of(ret),
        _ => None,
    }
}

fn is_width(width: u32) -> bool
    ensures { result ≡ is_width width }
{
    width == 1 || width == 8 || width == 16 || width == 32 || width == 64
}

/// Whether a register can have the type.
pub fn is_register_type(scalar: Option<Scalar>) -> bool
    ensures { result ≡ is_register_type scalar }
{
    match scalar {
        Some(Scalar::Int(width)) => is_width(width),
        Some(Scalar::Ptr) => true,
        None => false,
    }
}

/// Whether the type is `ptr` or an integer type of a width that is read.
pub fn is_scalar(ty: &Ty) -> bool
    ensures { result ≡ is_scalar ty.now }
{
    match ty {
        Ty::Int(width) => is_width(*width),
        Ty::Ptr => true,
        _ => false,
    }
}

/// Whether the type is the integer type of so many bits.
pub fn is_int_of(width: u32, ty: &Ty) -> bool
    ensures { result ≡ is_int_of width ty.now }
{
    match ty {
        Ty::Int(found) => *found == width,
        _ => false,
    }
}

/// Whether the type is an integer type of a width that is read.
pub fn is_integer(ty: &Ty) -> bool
    ensures { result ≡ is_integer ty.now }
{
    match ty {
        Ty::Int(width) => is_width(*width),
        _ => false,
    }
}

/// Whether the type is `ptr`.
pub fn is_ptr(ty: &Ty) -> bool
    ensures { result ≡ is_ptr ty.now }
{
    match ty {
        Ty::Ptr => true,
        _ => false,
    }
}

/// Whether the type is `void`.
pub fn is_void(ty: &Ty) -> bool
    ensures { result ≡ is_void ty.now }
{
    match ty {
        Ty::Void => true,
        _ => false,
    }
}

/// Whether both are the same scalar type.
pub fn same_scalar(a: &Ty, b: &Ty) -> bool
    ensures { result ≡ same_scalar a.now b.now }
{
    match a {
        Ty::Int(width) => is_int_of(*width, b),
        Ty::Ptr => is_ptr(b),
        _ => false,
    }
}

/// Whether the number is of the integer type.
pub fn is_number_of(n: u64, ty: &Ty) -> bool
    ensures { result ≡ is_number_of n ty.now }
{
    match ty {
        Ty::Int(width) => *width >= 64 || n < 1 << *width,
        _ => false,
    }
}
