//! Equal types.
ghost use Rattle.std.specs.Prelude.{◌≡◌, IfOk};

use crate::answers::OutOfMemory;
use crate::copy::Copies;
use crate::types::Ty;
use sqlite_items::{Boxed, Items as List};
use std::alloc::Global;

#[cycle(copy_ty)]
pub(super) fn copy_ty(alloc: Global, ty: &Ty) -> Result<Ty, OutOfMemory>
    ensures { IfOk result (λ c. c ≡ ty.now) }
{
    match ty {
        Ty::Void => Ok(Ty::Void),
        Ty::Int(width) => Ok(Ty::Int(*width)),
        Ty::Ptr => Ok(Ty::Ptr),
        Ty::Array(count, item) => {
            let item = copy_ty(alloc, item.get())?;
            Ok(Ty::Array(*count, Boxed::new(alloc, item)?))
        }
        Ty::Struct(fields) => Ok(Ty::Struct(copy_tys(alloc, fields.as_slice())?)),
        Ty::Named(name) => Ok(Ty::Named(name.copy(alloc)?)),
    }
}

#[cycle(copy_ty)]
fn copy_tys(alloc: Global, types: &[Ty]) -> Result<List<Ty>, OutOfMemory>
    ensures { IfOk result (λ c. c ≡ types.now) }
{
    let mut out = List::new(alloc);
    for ty in types {
        out.push(copy_ty(alloc, ty)?)?;
    }
    Ok(out)
}

impl Copies for Ty {
    fn copy(&self, alloc: Global) -> Result<Ty, OutOfMemory> {
        copy_ty(alloc, self)
    }
}
