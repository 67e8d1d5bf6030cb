//! Arithmetic on values from LLVM's own folding, comparisons, and numbers read with a sign.
ghost use Rattle.std.specs.Prelude.{◌≡◌, ◌≤◌, ◌<◌, ◌^◌, true};

use crate::traps::name_of;
use ir_core::{BinOp, Flags, Pred};
use mem_model::{Trap, compare, eval, sign_extend, wrapped};
use std::process::Abort;

// Operation, flag, both numbers and what comes, at each width: the value that LLVM folds it to, or a trap where that is poison
// or undefined.
const BIT: &str =
    "add - 1 1 0; add nuw 1 1 Overflow; add nsw 0 1 1; add nsw 1 1 Overflow; add both 0 0 0; \
    sub - 0 1 1; sub nuw 0 1 Overflow; sub nsw 1 1 0; sub nsw 0 1 Overflow; \
    mul - 1 1 1; mul nuw 1 1 1; mul nsw 1 1 Overflow; \
    shl - 1 0 1; shl - 1 1 Shift; shl nsw 1 0 1; shl nuw 1 0 1; \
    udiv - 1 1 1; udiv - 1 0 Division; udiv exact 0 1 0; udiv exact 1 1 1; \
    sdiv - 1 1 Division; sdiv - 1 0 Division; sdiv - 0 1 0; urem - 0 1 0; urem - 1 0 Division; \
    srem - 1 1 Division; lshr - 1 0 1; lshr - 1 1 Shift; ashr - 1 0 1; ashr - 1 1 Shift; ashr exact 1 0 1; \
    and - 1 1 1; or - 1 0 1; xor - 1 0 1";

const BYTE: &str =
    "add - 255 1 0; add nuw 255 1 Overflow; add nsw 127 1 Overflow; add nsw 255 255 254; \
    add both 127 127 Overflow; sub - 0 1 255; sub nuw 0 1 Overflow; sub nsw 128 1 Overflow; sub nsw 0 1 255; \
    mul - 255 255 1; mul nuw 255 255 Overflow; mul nsw 128 255 Overflow; mul nsw 255 255 1; mul nuw 128 1 128; \
    shl - 1 7 128; shl - 1 8 Shift; shl nsw 255 7 128; shl nsw 1 7 Overflow; shl nuw 255 7 Overflow; \
    udiv - 255 1 255; udiv - 255 0 Division; udiv exact 127 255 Overflow; udiv exact 255 255 1; \
    udiv - 249 2 124; sdiv - 128 255 Division; sdiv - 255 0 Division; sdiv - 127 255 129; sdiv - 249 2 253; \
    sdiv exact 249 2 Overflow; sdiv exact 248 2 252; urem - 127 255 127; urem - 1 0 Division; \
    srem - 128 255 Division; srem - 255 1 0; srem - 249 2 255; srem - 7 254 1; \
    lshr - 255 7 1; lshr - 255 8 Shift; lshr exact 6 2 Overflow; lshr exact 252 2 63; \
    ashr - 128 7 255; ashr - 128 8 Shift; ashr exact 128 7 255; ashr exact 255 1 Overflow; ashr - 249 1 252; \
    and - 128 255 128; or - 128 127 255; xor - 255 127 128";

const SHORT: &str =
    "add - 65535 1 0; add nuw 65535 1 Overflow; add nsw 32767 1 Overflow; add nsw 65535 65535 65534; \
    add both 32767 32767 Overflow; \
    sub - 0 1 65535; sub nuw 0 1 Overflow; sub nsw 32768 1 Overflow; sub nsw 0 1 65535; \
    mul nuw 65535 65535 Overflow; mul nsw 32768 65535 Overflow; mul nsw 65535 65535 1; mul nuw 32768 1 32768; \
    shl - 1 15 32768; shl - 1 16 Shift; shl nsw 65535 15 32768; shl nsw 1 15 Overflow; \
    shl nuw 65535 15 Overflow; \
    udiv - 65535 1 65535; udiv - 65535 0 Division; udiv exact 32767 65535 Overflow; udiv exact 65535 65535 1; \
    udiv - 65529 2 32764; \
    sdiv - 32768 65535 Division; sdiv - 65535 0 Division; sdiv - 32767 65535 32769; sdiv - 65529 2 65533; \
    sdiv exact 65529 2 Overflow; sdiv exact 65528 2 65532; \
    srem - 32768 65535 Division; srem - 65535 1 0; srem - 65529 2 65535; srem - 7 65534 1; \
    lshr - 65535 15 1; lshr - 65535 16 Shift; lshr exact 6 2 Overflow; lshr exact 65532 2 16383; \
    ashr - 32768 15 65535; ashr - 32768 16 Shift; ashr exact 32768 15 65535; ashr exact 65535 1 Overflow; \
    ashr - 65529 1 65532";

const WORD: &str =
    "add - 4294967295 1 0; add nuw 4294967295 1 Overflow; add nsw 2147483647 1 Overflow; \
    add nsw 4294967295 4294967295 4294967294; add both 2147483647 2147483647 Overflow; \
    sub - 0 1 4294967295; sub nuw 0 1 Overflow; sub nsw 2147483648 1 Overflow; sub nsw 0 1 4294967295; \
    mul nuw 4294967295 4294967295 Overflow; mul nsw 2147483648 4294967295 Overflow; \
    mul nsw 4294967295 4294967295 1; mul nuw 2147483648 1 2147483648; \
    shl - 1 31 2147483648; shl - 1 32 Shift; shl nsw 4294967295 31 2147483648; shl nsw 1 31 Overflow; \
    shl nuw 4294967295 31 Overflow; \
    udiv - 4294967295 1 4294967295; udiv - 4294967295 0 Division; udiv exact 2147483647 4294967295 Overflow; \
    udiv exact 4294967295 4294967295 1; udiv - 4294967289 2 2147483644; \
    sdiv - 2147483648 4294967295 Division; sdiv - 4294967295 0 Division; \
    sdiv - 2147483647 4294967295 2147483649; sdiv - 4294967289 2 4294967293; sdiv exact 4294967289 2 Overflow; \
    sdiv exact 4294967288 2 4294967292; \
    srem - 2147483648 4294967295 Division; srem - 4294967295 1 0; srem - 4294967289 2 4294967295; \
    srem - 7 4294967294 1; lshr - 4294967295 31 1; lshr - 4294967295 32 Shift; lshr exact 6 2 Overflow; \
    lshr exact 4294967292 2 1073741823; \
    ashr - 2147483648 31 4294967295; ashr - 2147483648 32 Shift; ashr exact 2147483648 31 4294967295; \
    ashr exact 4294967295 1 Overflow; ashr - 4294967289 1 4294967292";

const LONG: &str = "add - 18446744073709551615 1 0; add nuw 18446744073709551615 1 Overflow; \
    add nsw 9223372036854775807 1 Overflow; \
    add nsw 18446744073709551615 18446744073709551615 18446744073709551614; \
    add both 9223372036854775807 9223372036854775807 Overflow; \
    sub - 0 1 18446744073709551615; sub nuw 0 1 Overflow; sub nsw 9223372036854775808 1 Overflow; \
    sub nsw 0 1 18446744073709551615; mul - 18446744073709551615 18446744073709551615 1; \
    mul nuw 18446744073709551615 18446744073709551615 Overflow; \
    mul nsw 9223372036854775808 18446744073709551615 Overflow; \
    mul nsw 18446744073709551615 18446744073709551615 1; mul nuw 9223372036854775808 1 9223372036854775808; \
    shl - 1 63 9223372036854775808; shl - 1 64 Shift; shl nsw 18446744073709551615 63 9223372036854775808; \
    shl nsw 1 63 Overflow; shl nuw 18446744073709551615 63 Overflow; \
    udiv - 18446744073709551615 1 18446744073709551615; udiv - 18446744073709551615 0 Division; \
    udiv exact 9223372036854775807 18446744073709551615 Overflow; \
    udiv exact 18446744073709551615 18446744073709551615 1; udiv - 18446744073709551609 2 9223372036854775804; \
    sdiv - 9223372036854775808 18446744073709551615 Division; sdiv - 18446744073709551615 0 Division; \
    sdiv - 9223372036854775807 18446744073709551615 9223372036854775809; \
    sdiv - 18446744073709551609 2 18446744073709551613; sdiv exact 18446744073709551609 2 Overflow; \
    sdiv exact 18446744073709551608 2 18446744073709551612; \
    urem - 9223372036854775807 18446744073709551615 9223372036854775807; urem - 1 0 Division; \
    srem - 9223372036854775808 18446744073709551615 Division; srem - 18446744073709551615 1 0; \
    srem - 18446744073709551609 2 18446744073709551615; srem - 7 18446744073709551614 1; \
    lshr - 18446744073709551615 63 1; lshr - 18446744073709551615 64 Shift; lshr exact 6 2 Overflow; \
    lshr exact 18446744073709551612 2 4611686018427387903; \
    ashr - 9223372036854775808 63 18446744073709551615; ashr - 9223372036854775808 64 Shift; \
    ashr exact 9223372036854775808 63 18446744073709551615; ashr exact 18446744073709551615 1 Overflow; \
    ashr - 18446744073709551609 1 18446744073709551612; \
    and - 9223372036854775808 18446744073709551615 9223372036854775808; \
    or - 9223372036854775808 9223372036854775807 18446744073709551615; \
    xor - 18446744073709551615 9223372036854775807 9223372036854775808";

fn operation(word: &str) -> Option<BinOp> {
    let table = [
        ("add", BinOp::Add),
        ("sub", BinOp::Sub),
        ("mul", BinOp::Mul),
        ("shl", BinOp::Shl),
        ("udiv", BinOp::UDiv),
        ("sdiv", BinOp::SDiv),
        ("lshr", BinOp::LShr),
        ("ashr", BinOp::AShr),
        ("urem", BinOp::URem),
        ("srem", BinOp::SRem),
        ("and", BinOp::And),
        ("or", BinOp::Or),
        ("xor", BinOp::Xor),
    ];
    for (name, op) in table {
        if name == word {
            return Some(op);
        }
    }
    None
}

fn flags(word: &str) -> Flags {
    Flags {
        nsw: word == "nsw" || word == "both",
        nuw: word == "nuw" || word == "both",
        exact: word == "exact",
    }
}

/// Whether the number has at most the width's bits.
fn fits(width: u32, n: u64) -> bool
    requires { width ≤ 64 }
    ensures { result ≡ true → n < 2 ^ width }
{
    wrapped(width, i128::from(n)) == n
}

/// One case: none where the text is no case.
fn outcome(width: u32, case: &str) -> Option<(Result<u64, Trap>, &str)> {
    let mut words = case.split(' ');
    let op = operation(words.next()?)?;
    let flags = flags(words.next()?);
    let a = words.next()?.parse::<u64>().ok()?;
    let b = words.next()?.parse::<u64>().ok()?;
    let want = words.next()?;
    let known = width == 1 || width == 8 || width == 16 || width == 32 || width == 64;
    if !known || !fits(width, a) || !fits(width, b) {
        return None;
    }
    Some((eval(op, flags, width, a, b), want))
}

/// Whether a case comes out as it says.
fn holds(width: u32, case: &str) -> bool {
    match outcome(width, case) {
        Some((Ok(value), want)) => want.parse::<u64>().ok() == Some(value),
        Some((Err(trap), want)) => want == name_of(trap),
        None => false,
    }
}

#[test]
fn folded_values(rt: HostRuntime) {
    for (width, table) in [(1, BIT), (8, BYTE), (16, SHORT), (32, WORD), (64, LONG)] {
        for case in table.split("; ") {
            assert!(rt; holds(width, case), "{width} {case}");
        }
    }
}

/// How 1 and -1, equal numbers, and -128 and 127 compare.
const ORDERS: [(Pred, [bool; 3]); 10] = [
    (Pred::Eq, [false, true, false]),
    (Pred::Ne, [true, false, true]),
    (Pred::Ugt, [false, false, true]),
    (Pred::Uge, [false, true, true]),
    (Pred::Ult, [true, false, false]),
    (Pred::Ule, [true, true, false]),
    (Pred::Sgt, [true, false, false]),
    (Pred::Sge, [true, true, false]),
    (Pred::Slt, [false, false, true]),
    (Pred::Sle, [false, true, true]),
];

fn compared(pred: Pred) -> [bool; 3] {
    [
        compare(pred, 8, 1, 255),
        compare(pred, 8, 7, 7),
        compare(pred, 8, 128, 127),
    ]
}

#[test]
fn comparisons(rt: HostRuntime) {
    for (pred, want) in ORDERS {
        assert_eq!(rt; compared(pred), want);
    }
}

fn with_signs() -> [i64; 3] {
    [
        sign_extend(1, 1),
        sign_extend(16, 0x8000),
        sign_extend(64, 0x7fff_ffff_ffff_ffff),
    ]
}

#[test]
fn numbers_with_signs(rt: HostRuntime) {
    assert_eq!(rt; with_signs(), [-1, -0x8000, 0x7fff_ffff_ffff_ffff]);
}
