//! Circles of many types.
use crate::building::{add_type, empty_module, numbered};
use crate::told::told;
use ir_core::{Module, OutOfMemory};
use std::alloc::{AllocError, Global};
use std::process::Abort;
use std::test::Fail;

// Each type has the next one as its part, and the last one that of a number. They stand on a line each.
fn chain(alloc: Global, count: u32, back: u32) -> Result<Module, AllocError> {
    let mut m = empty_module(alloc);
    for number in 0..count {
        let part = if count - number == 1 {
            back
        } else {
            number + 1
        };
        let body = numbered(alloc, part)?;
        add_type(alloc, &mut m.types, &number.to_be_bytes(), body, number + 1)?;
    }
    Ok(m)
}

/// What is told of 20,000 types of which the last one leads back to that of a number.
fn told_of(alloc: Global, back: u32) -> Result<(&'static [u8], u32), OutOfMemory> {
    told(alloc, chain(alloc, 20_000, back)?)
}

#[test]
fn long_circles(rt: HostRuntime) -> Result<(), Fail> {
    for (back, line) in [(0, 1), (10_000, 10_001), (19_999, 20_000)] {
        assert!(rt; told_of(rt.alloc(), back)? == (b"type_mismatch".as_slice(), line));
    }
    Ok(())
}
