//! Copies that are equal to what they are made from.
mod instructions;
mod module;
mod types;

ghost use Rattle.std.specs.Prelude.{◌≡◌, IfOk};

use crate::answers::OutOfMemory;
use crate::name::Name;
use sqlite_items::Items as List;
use std::alloc::Global;

/// What can be copied to an equal value.
pub trait Copies: Drop + Sized {
    /// An equal value.
    fn copy(&self, alloc: Global) -> Result<Self, OutOfMemory>
        ensures { IfOk result (λ c. c ≡ self.now) };
}

impl Copies for Name {
    fn copy(&self, alloc: Global) -> Result<Name, OutOfMemory> {
        Ok(Name::from_slice(alloc, self.as_slice())?)
    }
}

impl<T: Copies> Copies for List<T> {
    fn copy(&self, alloc: Global) -> Result<List<T>, OutOfMemory> {
        let mut out = List::new(alloc);
        for item in self.as_slice() {
            out.push(item.copy(alloc)?)?;
        }
        Ok(out)
    }
}

impl<T: Copies> Copies for Option<T> {
    fn copy(&self, alloc: Global) -> Result<Option<T>, OutOfMemory> {
        match self {
            None => Ok(None),
            Some(item) => Ok(Some(item.copy(alloc)?)),
        }
    }
}
