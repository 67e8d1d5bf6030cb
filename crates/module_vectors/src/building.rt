//! Types and modules that the worked rows are made of.
use ir_core::{Boxed, List, Module, Name, Ty, TypeDef};
use std::alloc::{AllocError, Global};

/// A type without parts that have parts.
#[derive(Clone, Copy)]
pub(crate) enum Shape {
    Void,
    Int(u32),
    Ptr,
    /// So many integers of so many bits.
    Array(u64, u32),
    /// Two integers of so many bits, or one and a pointer.
    Pair(u32, Option<u32>),
    Named(&'static [u8]),
}

pub(crate) fn made(alloc: Global, shape: Shape) -> Result<Ty, AllocError> {
    match shape {
        Shape::Void => Ok(Ty::Void),
        Shape::Int(width) => Ok(Ty::Int(width)),
        Shape::Ptr => Ok(Ty::Ptr),
        Shape::Array(count, width) => array(alloc, count, Ty::Int(width)),
        Shape::Pair(first, None) => pair(alloc, Ty::Int(first), Ty::Ptr),
        Shape::Pair(first, Some(second)) => pair(alloc, Ty::Int(first), Ty::Int(second)),
        Shape::Named(name) => named(alloc, name),
    }
}

pub(crate) fn named(alloc: Global, name: &[u8]) -> Result<Ty, AllocError> {
    Ok(Ty::Named(Name::from_slice(alloc, name)?))
}

pub(crate) fn array(alloc: Global, count: u64, item: Ty) -> Result<Ty, AllocError> {
    Ok(Ty::Array(count, Boxed::new(alloc, item)?))
}

pub(crate) fn pair(alloc: Global, first: Ty, second: Ty) -> Result<Ty, AllocError> {
    let mut fields = List::new(alloc);
    fields.push(first)?;
    fields.push(second)?;
    Ok(Ty::Struct(fields))
}

/// A type whose name is a number.
pub(crate) fn numbered(alloc: Global, number: u32) -> Result<Ty, AllocError> {
    named(alloc, &number.to_be_bytes())
}

pub(crate) fn add_type(
    alloc: Global,
    types: &mut List<TypeDef>,
    name: &[u8],
    body: Ty,
    line: u32,
) -> Result<(), AllocError> {
    types.push(TypeDef {
        name: Name::from_slice(alloc, name)?,
        body,
        line,
    })
}

pub(crate) fn empty_module(alloc: Global) -> Module {
    Module {
        prelude: List::new(alloc),
        types: List::new(alloc),
        globals: List::new(alloc),
        functions: List::new(alloc),
        tail: List::new(alloc),
    }
}
