//! Texts that are read and printed, and texts that are refused while they are read.
use crate::refused::{is_refused_so, refusal_of, with_line};
use crate::texts::{BEFORE_SEVEN, REGION, REGION_CANONICAL, STORE_SEVEN};
use ir_print::print_module;
use ir_read::read_module;
use std::alloc::{AllocError, Global};
use std::process::Abort;
use std::test::Fail;

#[test]
fn refusals_of_a_line(rt: HostRuntime) -> Result<(), Fail> {
    let table = [
        (
            "  store i32",
            "ompopt: refused: constant_expression at line 8",
        ),
        (
            "  store volatile i32 7, ptr %p",
            "ompopt: refused: volatile_access at line 7",
        ),
        (
            "  store <2 x i32> zeroinitializer, ptr %p",
            "ompopt: refused: vector_type at line 7",
        ),
        (
            "  %x = add i33 1, 2",
            "ompopt: refused: wide_integer at line 7",
        ),
        (
            "  %x = load i32, ptr addrspace(1) null",
            "ompopt: refused: address_space at line 7",
        ),
        (
            "  store i32 undef, ptr %p",
            "ompopt: refused: undef_value at line 7",
        ),
        (
            "  call void asm \"nop\", \"\"()",
            "ompopt: refused: inline_asm at line 7",
        ),
    ];
    let alloc = rt.alloc();
    for (line, want) in table {
        let text = with_line(alloc, line)?;
        assert!(rt; is_refused_so(alloc, text.as_slice(), want)?, "at {line}");
    }
    Ok(())
}

#[test]
fn refusals_of_a_text(rt: HostRuntime) -> Result<(), Fail> {
    let table = [(
        "define void @f() {\nentry:\ncall void @nowhere()\nret void\n}\ndefine void @g(float %x) {",
        "ompopt: refused: float_type at line 6",
    )];
    let alloc = rt.alloc();
    for (text, want) in table {
        assert!(rt; is_refused_so(alloc, text.as_bytes(), want)?, "at {text}");
    }
    Ok(())
}

#[test]
fn a_text_that_is_cut(rt: HostRuntime) -> Result<(), Fail> {
    let alloc = rt.alloc();
    let mut text = Vec::from_slice(alloc, BEFORE_SEVEN.as_bytes())?;
    text.extend_from_slice(b"  store i32")?;
    assert!(rt; is_refused_so(alloc, text.as_slice(), "ompopt: refused: syntax at line 7")?);
    Ok(())
}

/// The kernel that stores 7, and blanks up to this size.
fn padded(alloc: Global, size: usize) -> Result<Vec<u8>, AllocError> {
    let mut text = Vec::from_slice(alloc, STORE_SEVEN.as_bytes())?;
    let blanks = vec![in alloc; b' '; size.saturating_sub(text.len())]?;
    text.extend_from_slice(blanks.as_slice())?;
    Ok(text)
}

#[test]
fn a_text_above_the_limit(rt: HostRuntime) -> Result<(), Fail> {
    let alloc = rt.alloc();
    let within = padded(alloc, 4_194_304)?;
    assert!(rt; refusal_of(alloc, within.as_slice())?.is_none());
    let above = padded(alloc, 4_194_305)?;
    assert!(rt; is_refused_so(alloc, above.as_slice(), "ompopt: refused: limit at line 15")?);
    Ok(())
}

#[test]
fn every_front_of_a_text(rt: HostRuntime) -> Result<(), Fail> {
    let alloc = rt.alloc();
    let text = STORE_SEVEN.as_bytes();
    let mut read: u32 = 0;
    for end in 0..text.len() {
        if read_module(alloc, &text[..end]).is_ok() {
            read = read.saturating_add(1);
        }
    }
    // The empty front, and those that end behind an item or the line end behind it.
    assert_eq!(rt; read, 6);
    Ok(())
}

#[test]
fn a_text_is_printed_canonically(rt: HostRuntime) -> Result<(), Fail> {
    let alloc = rt.alloc();
    match read_module(alloc, REGION.as_bytes()) {
        Ok(module) => {
            let text = print_module(alloc, &module)?;
            assert_eq!(rt; text.as_slice(), REGION_CANONICAL.as_bytes());
        }
        Err(_) => panic!(rt; "not read"),
    }
    Ok(())
}
