//! A text for each form, and its canonical text.
use ir_core::List;
use ir_print::print_module;
use ir_read::read_module;
use std::alloc::{AllocError, Global};
use std::test::Fail;

/// The canonical text of a text's module, or nothing where it spells none.
fn canonical(alloc: Global, text: &[u8]) -> Result<List<u8>, AllocError> {
    match read_module(alloc, text) {
        Ok(module) => Ok(print_module(alloc, &module).map_err(|_| AllocError)?),
        Err(_) => Ok(List::new(alloc)),
    }
}

/// A text between two others.
fn between(alloc: Global, before: &str, text: &str, behind: &str) -> Result<Vec<u8>, AllocError> {
    let mut whole = Vec::from_slice(alloc, before.as_bytes())?;
    whole.extend_from_slice(text.as_bytes())?;
    whole.extend_from_slice(behind.as_bytes())?;
    Ok(whole)
}

/// Whether the text in its place comes to the other in the same place.
fn comes_to(
    alloc: Global,
    before: &str,
    behind: &str,
    text: &str,
    want: &str,
) -> Result<bool, AllocError> {
    let printed = canonical(alloc, between(alloc, before, text, behind)?.as_slice())?;
    let wanted = between(alloc, before, want, behind)?;
    Ok(printed.as_slice() == wanted.as_slice())
}

#[test]
fn items(rt: HostRuntime) -> Result<(), Fail> {
    let table = [
        ("%P = type {}", "%P = type { }"),
        (
            "%Q = type [2 x [3 x ptr addrspace(0)]]",
            "%Q = type [2 x [3 x ptr]]",
        ),
        ("@a = external global i32", "@a = external global i32"),
        (
            "@b = internal unnamed_addr constant [3 x i8] c\"\\0a~\\7f\", section \"s\", align 1",
            "@b = internal unnamed_addr constant [3 x i8] c\"\\0A~\\7F\", align 1",
        ),
        (
            "@c = global %P zeroinitializer",
            "@c = global %P zeroinitializer",
        ),
        (
            "@d = global [2 x ptr] [ptr null, ptr @a], comdat, align 8",
            "@d = global [2 x ptr] [ ptr null, ptr @a ], align 8",
        ),
        (
            "@e = global { i1, i64 } { i1 1, i64 18446744073709551615 }",
            "@e = global { i1, i64 } { i1 true, i64 -1 }",
        ),
        (
            "declare noalias ptr @m(i64 noundef, ptr readonly) nounwind #2 #3",
            "declare ptr @m(i64, ptr) #2 #3",
        ),
        (
            "define void @n(i32, i32 %x, i8) section \"t\" { ret void }",
            "define void @n(i32 %\"0\", i32 %x, i8 %\"1\") {\n\"2\":\n  ret void\n}",
        ),
        ("  target   triple = \"x\"  ", "target   triple = \"x\""),
    ];
    for (text, want) in table {
        assert!(rt; comes_to(rt.alloc(), "", "\n", text, want)?, "at {text}");
    }
    Ok(())
}

#[test]
fn instructions(rt: HostRuntime) -> Result<(), Fail> {
    let table = [
        (
            "%x = add nuw nsw i32 1, 4294967295",
            "%x = add nuw nsw i32 1, -1",
        ),
        ("%x = sub i1 1, false", "%x = sub i1 true, false"),
        (
            "%x = udiv exact i64 7, 18446744073709551615",
            "%x = udiv exact i64 7, -1",
        ),
        ("%x = and i8 300, 255", "%x = and i8 300, -1"),
        ("%x = icmp ne ptr %p, null", "%x = icmp ne ptr %p, null"),
        ("%x = zext i8 255 to i64", "%x = zext i8 -1 to i64"),
        ("%x = inttoptr i64 5 to ptr", "%x = inttoptr i64 5 to ptr"),
        (
            "%x = select i1 true, i32 2, i32 3",
            "%x = select i1 true, i32 2, i32 3",
        ),
        (
            "%x = alloca [ 4 x i8 ] , align 8 , !dbg !3",
            "%x = alloca [4 x i8], align 8",
        ),
        ("%x = alloca {i32,{}}", "%x = alloca { i32, { } }"),
        (
            "%x = load i32 , ptr %p , align 4, !tbaa !7",
            "%x = load i32, ptr %p, align 4",
        ),
        (
            "%x = load atomic i32, ptr %p seq_cst, align 4",
            "%x = load atomic i32, ptr %p seq_cst, align 4",
        ),
        ("store i32 7, ptr %\"p\"", "store i32 7, ptr %p"),
        (
            "store atomic i32 0, ptr %p release, align 4",
            "store atomic i32 0, ptr %p release, align 4",
        ),
        (
            "%x = atomicrmw add ptr %p, i32 1 seq_cst",
            "%x = atomicrmw add ptr %p, i32 1 seq_cst",
        ),
        ("fence acquire", "fence acquire"),
        (
            "%x = getelementptr inbounds { i32, [2 x i8] }, ptr %p, i64 0, i32 1",
            "%x = getelementptr inbounds { i32, [2 x i8] }, ptr %p, i64 0, i32 1",
        ),
        (
            "call void @g(i32 noundef 1) #1, !dbg !2",
            "call void @g(i32 1)",
        ),
        (
            "%x = tail call fastcc zeroext i1 @g(ptr nonnull align 8 %p)",
            "%x = tail call i1 @g(ptr %p)",
        ),
        (
            "%x = phi i32 [ 1, %a ], [ %y, %\"b c\" ]",
            "%x = phi i32 [ 1, %a ], [ %y, %\"b c\" ]",
        ),
    ];
    for (text, want) in table {
        let before = "define void @f(ptr %p) {\na:\n  ";
        assert!(rt;
            comes_to(rt.alloc(), before, "\n  ret void\n}\n", text, want)?,
            "at {text}"
        );
    }
    Ok(())
}

#[test]
fn ends_of_blocks(rt: HostRuntime) -> Result<(), Fail> {
    let table = [
        ("ret i32 -1", "ret i32 -1"),
        ("br label %a", "br label %a"),
        (
            "br i1 %x, label %a, label %\"0\"",
            "br i1 %x, label %a, label %\"0\"",
        ),
        (
            "switch i32 %x, label %a [\n    i32 0, label %a\n    i32 -1, label %b ]",
            "switch i32 %x, label %a [ i32 0, label %a i32 -1, label %b ]",
        ),
        ("switch i8 1, label %a []", "switch i8 1, label %a [ ]"),
        ("unreachable", "unreachable"),
    ];
    for (text, want) in table {
        let before = "define i32 @f() {\na:\n  ";
        assert!(rt;
            comes_to(rt.alloc(), before, "\n}\n", text, want)?,
            "at {text}"
        );
    }
    Ok(())
}
