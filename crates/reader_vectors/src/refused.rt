//! Texts that are refused.
use ir_core::{Or, Refusal};
use ir_read::read_module;
use std::alloc::{AllocError, Global};
use std::process::Abort;
use std::test::Fail;

/// A text, and the line that tells why it is refused.
const TEXTS: [(&str, &str); 14] = [
    ("declare void @f(,)", "ompopt: refused: syntax at line 1"),
    ("define void @f() {}", "ompopt: refused: syntax at line 1"),
    (
        "define void @f() {\na: ret void } x",
        "ompopt: refused: syntax at line 2",
    ),
    ("define void @f() {\n", "ompopt: refused: syntax at line 1"),
    (
        "@g = global i128 0",
        "ompopt: refused: wide_integer at line 1",
    ),
    (
        "@g =\nglobal float 0.0",
        "ompopt: refused: float_type at line 2",
    ),
    (
        "@g = global <2 x i32> 0",
        "ompopt: refused: vector_type at line 1",
    ),
    (
        "@g = addrspace(3) global i32 0",
        "ompopt: refused: address_space at line 1",
    ),
    (
        "@g = global i32 undef",
        "ompopt: refused: undef_value at line 1",
    ),
    (
        "@g = global i64 18446744073709551616",
        "ompopt: refused: syntax at line 1",
    ),
    (
        "define void @f() { a: %x = load volatile i32, ptr null ret void }",
        "ompopt: refused: volatile_access at line 1",
    ),
    (
        "define void @f() { a: call void asm \"\", \"\"() ret void }",
        "ompopt: refused: inline_asm at line 1",
    ),
    (
        "define void @f() { a: store i32 add (i32 1, i32 2), ptr null ret void }",
        "ompopt: refused: constant_expression at line 1",
    ),
    (
        "define void @f() { a: call void @g(metadata !1) ret void }",
        "ompopt: refused: metadata_operand at line 1",
    ),
];

/// Why the text is refused; none where it is read.
fn refusal_of(alloc: Global, text: &[u8]) -> Result<Option<Refusal>, AllocError> {
    match read_module(alloc, text) {
        Ok(_) => Ok(None),
        Err(Or::Refused(refusal)) => Ok(Some(refusal)),
        Err(Or::Memory) => Err(AllocError),
    }
}

/// Whether the text is refused with this line.
fn is_refused_so(alloc: Global, text: &str, want: &str) -> Result<bool, AllocError> {
    let mut buffer = [0; 128];
    match refusal_of(alloc, text.as_bytes())? {
        Some(refusal) => {
            let end = refusal.print(&mut buffer);
            Ok(&buffer[..end] == want.as_bytes())
        }
        None => Ok(false),
    }
}

#[test]
fn texts_that_are_refused(rt: HostRuntime) -> Result<(), Fail> {
    for (text, want) in TEXTS {
        assert!(rt; is_refused_so(rt.alloc(), text, want)?, "at {text}");
    }
    Ok(())
}
