//! Sizes and offsets by hand, and many types.
use crate::bare::without_tables;
use crate::building::{Shape, add_type, array, empty_module, made, named, numbered, pair};
use ir_core::{List, OutOfMemory, Ty, TypeDef};
use ir_tables::Indexed;
use std::alloc::{AllocError, Global};
use std::process::Abort;
use std::test::Fail;

/// A type, its size, a path into it and the path's offset.
type Case = (Shape, u64, &'static [i64], Option<i64>);

const CASES: [Case; 12] = [
    (Shape::Int(1), 1, &[3], Some(3)),
    (Shape::Int(32), 4, &[-1], Some(-4)),
    (Shape::Int(32), 4, &[0, 0], None),
    (Shape::Ptr, 8, &[], Some(0)),
    (Shape::Array(4, 16), 8, &[0, -1], Some(-2)),
    (Shape::Array(0, 64), 0, &[9, 5], Some(40)),
    (Shape::Array(1 << 61, 64), u64::MAX, &[1, 2], Some(16)),
    (Shape::Pair(16, Some(8)), 4, &[2, 1], Some(10)),
    (Shape::Pair(1, None), 16, &[0, 2], None),
    (Shape::Pair(1, None), 16, &[0, -1], None),
    (Shape::Named(b"row"), 48, &[1, 2, 1], Some(88)),
    (Shape::Named(b"also"), 16, &[0, 1], Some(8)),
];

// `%row = type [3 x %also]`, `%also = type %pair`, `%pair = type { i8, i64 }`, and `%twice` as two types.
fn some_types(alloc: Global) -> Result<List<TypeDef>, AllocError> {
    let mut types = List::new(alloc);
    add_row(alloc, &mut types)?;
    add_pair(alloc, &mut types)?;
    add_twice(alloc, &mut types)?;
    Ok(types)
}

fn add_row(alloc: Global, types: &mut List<TypeDef>) -> Result<(), AllocError> {
    let row = array(alloc, 3, named(alloc, b"also")?)?;
    add_type(alloc, types, b"row", row, 1)
}

fn add_pair(alloc: Global, types: &mut List<TypeDef>) -> Result<(), AllocError> {
    add_type(alloc, types, b"also", named(alloc, b"pair")?, 1)?;
    add_type(
        alloc,
        types,
        b"pair",
        made(alloc, Shape::Pair(8, Some(64)))?,
        1,
    )
}

fn add_twice(alloc: Global, types: &mut List<TypeDef>) -> Result<(), AllocError> {
    add_type(alloc, types, b"twice", Ty::Int(8), 1)?;
    add_type(alloc, types, b"twice", Ty::Int(16), 1)
}

fn is_laid(alloc: Global, indexed: &Indexed, case: Case) -> Result<bool, AllocError> {
    let (shape, size, path, offset) = case;
    let ty = made(alloc, shape)?;
    Ok(indexed.size_of(&ty) == size && indexed.offset_of(&ty, path) == offset)
}

fn are_laid(alloc: Global, indexed: &Indexed) -> Result<bool, AllocError> {
    for case in CASES {
        if !is_laid(alloc, indexed, case)? {
            return Ok(false);
        }
    }
    Ok(true)
}

/// A module with these types.
fn indexed(alloc: Global, types: List<TypeDef>) -> Result<Indexed, OutOfMemory> {
    let mut module = empty_module(alloc);
    module.types = types;
    Indexed::of(alloc, module)
}

/// Whether the type has no size, since its name is that of two.
fn has_no_size(alloc: Global, indexed: &Indexed) -> Result<bool, AllocError> {
    let ty = named(alloc, b"twice")?;
    Ok(indexed.size_of(&ty) == 0)
}

fn cases_hold(alloc: Global) -> Result<bool, OutOfMemory> {
    let indexed = indexed(alloc, some_types(alloc)?)?;
    Ok(are_laid(alloc, &indexed)? && has_no_size(alloc, &indexed)?)
}

#[test]
fn sizes_and_offsets(rt: HostRuntime) -> Result<(), Fail> {
    assert!(rt; cases_hold(rt.alloc())?);
    Ok(())
}

fn bare_cases_hold(alloc: Global) -> Result<bool, OutOfMemory> {
    let indexed = without_tables(indexed(alloc, some_types(alloc)?)?);
    Ok(are_laid(alloc, &indexed)? && has_no_size(alloc, &indexed)?)
}

#[test]
fn sizes_and_offsets_without_tables(rt: HostRuntime) -> Result<(), Fail> {
    assert!(rt; bare_cases_hold(rt.alloc())?);
    Ok(())
}

// A type of this number is `{ T, T }`, where T is the type of the number below; that of 0 is `i64`.
fn link(alloc: Global, number: u32) -> Result<Ty, AllocError> {
    match number.checked_sub(1) {
        None => Ok(Ty::Int(64)),
        Some(part) => pair(alloc, numbered(alloc, part)?, numbered(alloc, part)?),
    }
}

// The types of the numbers below `count`, from 0 on or from the last one down.
fn chain(alloc: Global, count: u32, down: bool) -> Result<List<TypeDef>, AllocError> {
    let mut types = List::new(alloc);
    for step in 0..count {
        let number = if down { count - 1 - step } else { step };
        let body = link(alloc, number)?;
        add_type(alloc, &mut types, &number.to_be_bytes(), body, 1)?;
    }
    Ok(types)
}

fn has_size(alloc: Global, indexed: &Indexed, number: u32, size: u64) -> Result<bool, AllocError> {
    let ty = numbered(alloc, number)?;
    Ok(indexed.size_of(&ty) == size)
}

fn has_offset(alloc: Global, indexed: &Indexed) -> Result<bool, AllocError> {
    let ty = numbered(alloc, 60)?;
    Ok(indexed.offset_of(&ty, &[0, 1, 1]) == Some(3 << 61))
}

fn is_chain(alloc: Global, indexed: &Indexed) -> Result<bool, AllocError> {
    Ok(
        has_size(alloc, indexed, 40, 8 << 40)?
            && has_size(alloc, indexed, 19_999, u64::MAX)?
            && has_offset(alloc, indexed)?,
    )
}

fn chain_is_laid(alloc: Global, down: bool) -> Result<bool, OutOfMemory> {
    let indexed = indexed(alloc, chain(alloc, 20_000, down)?)?;
    Ok(is_chain(alloc, &indexed)?)
}

#[test]
fn long_chains(rt: HostRuntime) -> Result<(), Fail> {
    for down in [false, true] {
        assert!(rt; chain_is_laid(rt.alloc(), down)?, "{down}");
    }
    Ok(())
}
