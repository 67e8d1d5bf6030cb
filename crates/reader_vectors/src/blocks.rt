//! Blocks that are read to their end, and blocks that are not.
use ir_lex::lex;
use read_body::read_block;
use read_forms::Ahead;
use std::alloc::Global;
use std::process::Abort;

/// A text, and how many instructions are kept of it, if it is a block.
const TEXTS: [(&str, Option<usize>); 14] = [
    ("a: ret void", Some(1)),
    (
        "\"a b\": %x = add nuw nsw i32 %\"q\\22\", -1, !dbg !3 ret i32 %x",
        Some(2),
    ),
    ("a: %x = add nsw nuw i32 1, 2 ret void", None),
    (
        "a: %p = alloca { ptr addrspace(0), [4 x %t] }, align 8, !n !1 unreachable",
        Some(2),
    ),
    ("a: %p = alloca i8, !n !1, align 8 unreachable", None),
    (
        "a: %g = getelementptr inbounds i8, ptr %p, i64 1, i64 2, !n !1, !n !2 ret void",
        Some(2),
    ),
    (
        "a: %g = getelementptr i8, ptr %p, i64 1, !n !1, i64 2 ret void",
        None,
    ),
    (
        "a: %f = phi i1 [ true, %b ], [ 0, %c ] br label %d",
        Some(2),
    ),
    (
        "a: store atomic i32 1, ptr %p syncscope(\"x\") release, align 4 br i1 %c, label %a, label %b",
        Some(2),
    ),
    (
        "a: tail call fastcc noundef ptr @f(ptr nonnull align 8 %p) #3 nounwind, !s !4 ret void",
        Some(2),
    ),
    (
        "a: call void @llvm.lifetime.start.p0(i64 8, ptr %p) call void @llvm.assume(i1 true) ret void",
        Some(1),
    ),
    (
        "a: switch i32 %x, label %d [ i32 0, label %b i32 1, label %c ]",
        Some(1),
    ),
    ("a: switch i32 %x, label %d [ i32 0, label %b i32 1 ]", None),
    (
        "a: %r = atomicrmw umax ptr %p, i32 1 acq_rel fence seq_cst ret void",
        Some(3),
    ),
];

/// How many instructions are kept of a block that is the whole text, if it is one.
fn kept_instructions(alloc: Global, text: &[u8]) -> Option<usize> {
    let tokens = lex(alloc, text).ok()?;
    let (block, rest) = read_block(alloc, Ahead::new(text, tokens.as_slice())).ok()?;
    if rest.left() == 0 {
        Some(block.insts.len())
    } else {
        None
    }
}

#[test]
fn blocks_and_whether_they_are_read(rt: HostRuntime) {
    for (text, want) in TEXTS {
        assert!(rt;
            kept_instructions(rt.alloc(), text.as_bytes()) == want,
            "at {text}"
        );
    }
}
