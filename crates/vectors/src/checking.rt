//! Texts that are read, and refused for their names and types, or taken.
use crate::refused::{is_refused_so, refusal_of, with_line};
use std::alloc::{AllocError, Global};
use std::process::Abort;
use std::test::Fail;

/// Lines in place of line 7 of the kernel that stores 7, each with the line that is refused.
const LINES: [(&str, &[(&str, u32)]); 5] = [
    (
        "duplicate_name",
        &[
            ("%i = alloca i32", 7),
            ("%p = alloca i32", 7),
            ("%entry = alloca i32", 7),
            ("%next = alloca i32\nbr label %exit\nnext:", 9),
            ("br label %exit\nexit:", 11),
            ("%0 = alloca i32\n%\"0\" = alloca i32", 8),
        ],
    ),
    (
        "missing_name",
        &[
            ("store i32 %nope, ptr %p", 7),
            ("store ptr @nope, ptr %p", 7),
            ("%x = alloca %Nope", 7),
            ("br label %nope\nnext:", 7),
            ("call void @nope()", 7),
            ("%x = phi i32 [ 1, %entry ], [ 2, %nope ]", 7),
            // On one line the least number is told.
            ("call void %nope()", 7),
            // An instruction is refused at its first line.
            ("store i32 7,\nptr %nope", 7),
            ("switch i1 %m, label %exit [\ni1 0, label %nope ]\nnext:", 7),
        ],
    ),
    (
        "type_mismatch",
        &[
            ("store i64 %i, ptr %p", 7),
            ("store i32 7, i64 0", 7),
            ("store i8 256, ptr %p", 7),
            ("store ptr 0, ptr %p", 7),
            ("store i32 null, ptr %p", 7),
            ("%x = load { i32 }, ptr %p", 7),
            ("%x = load [2 x i8], ptr %p", 7),
            ("%x = add ptr %p, %p", 7),
            ("%x = zext i32 %i to i32", 7),
            ("%x = sext i32 %i to i8", 7),
            ("%x = trunc i32 %i to i32", 7),
            ("%x = inttoptr ptr %p to ptr", 7),
            ("%x = ptrtoint ptr %p to ptr", 7),
            ("%x = select i1 %m, i32 1, i64 2", 7),
            ("%x = select i32 %i, i32 1, i32 2", 7),
            ("%x = atomicrmw add ptr %p, i1 true seq_cst", 7),
            ("%x = load atomic ptr, ptr %p seq_cst", 7),
            ("store atomic i1 true, ptr %p seq_cst", 7),
            ("br i32 %i, label %exit, label %exit\nnext:", 7),
            ("ret i32 0\nnext:", 7),
            // A call has the types of the function.
            ("call void @__kmpc_target_deinit(ptr null, i32 1)", 7),
            ("call void @__kmpc_target_deinit(ptr null)", 7),
            ("call void @__kmpc_target_deinit(ptr null, i8 1, i8 1)", 7),
            ("call i32 @__kmpc_target_deinit(ptr null, i8 1)", 7),
            ("%x = call void @__kmpc_target_deinit(ptr null, i8 1)", 7),
            // A name is given, and isn't what the place asks.
            ("store ptr %exit, ptr %p", 7),
            ("br label %i\nnext:", 7),
            ("call void %exit()", 7),
            ("%x = phi i32 [ 1, %entry ], [ 2, %p ]", 7),
            // Of a name that is given twice the first says what it is.
            ("store i8 %x, ptr %p\n%x = alloca i8\n%x = add i8 1, 2", 7),
            // The indices of an address.
            ("%x = getelementptr { i32 }, ptr %p, i32 0, i32 1", 7),
            ("%x = getelementptr { i32 }, ptr %p, i32 0, i32 -1", 7),
            ("%x = getelementptr { i32 }, ptr %p, i32 0, i32 %i", 7),
            ("%x = getelementptr { i32 }, ptr %p, i32 0, ptr 0", 7),
            ("%x = getelementptr i32, ptr %p, ptr null", 7),
            ("%x = getelementptr i32, ptr %p, i32 0, i32 0", 7),
            // The targets of a branch.
            ("br label %entry\nnext:", 7),
            ("switch ptr %p, label %exit [ ]\nnext:", 7),
            ("switch i1 0, label %exit [ i1 %m, label %exit ]\nnext:", 7),
            ("switch i1 0, label %exit [ i8 1, label %exit ]\nnext:", 7),
            ("switch i1 0, label %exit [ i1 1, label %entry ]\nnext:", 7),
            // The place and the entries of a phi.
            ("%x = alloca i8\n%y = phi i32 [ 1, %entry ]", 8),
            ("br label %a\na: %x = phi i1 [ 1, %a ] br label %a\nb:", 8),
            ("%x = phi i32 [ 1, %entry ], [ 2, %exit ]", 7),
            ("%x = phi i32 [ 1, %entry ], [ 2, %entry ]", 7),
            ("ret void\nnext:\n%x = phi i32 [ 1, %user ]", 9),
        ],
    ),
    (
        "indirect_call",
        &[
            ("call void %p()", 7),
            ("store ptr @k, ptr %p", 7),
            ("%x = icmp eq ptr %p, @k", 7),
            ("call void @__kmpc_target_deinit(ptr @k, i8 1)", 7),
            ("%x = phi ptr [ @k, %entry ]", 7),
        ],
    ),
    ("pointer_order", &[("%x = icmp slt ptr %p, null", 7)]),
];

/// A line in place of line 7 of that kernel and an item behind the kernel, which are taken.
const TAKEN: [(&str, &str); 6] = [
    ("%x = icmp eq ptr %p, null", ""),
    ("%x = phi i32 [ 1, %entry ], [ 1, %entry ]", ""),
    ("%x = getelementptr [2 x i8], ptr %p, i32 0, i32 %i", ""),
    // A call that is dropped, and a phi that is still the first instruction.
    ("call void @llvm.assume(i1 %x)\n%y = phi i1 [1, %entry]", ""),
    ("call void @g()", "define void @g() { ret void }"),
    (
        "call void @llvm.lifetime.end.p0(ptr %nope)",
        "declare void @llvm.lifetime.end.p0(ptr)",
    ),
];

/// A line in place of line 7 of that kernel and an item behind the kernel, with the line that is refused.
const LINES_AND_ITEMS: [(&str, &[(&str, &str, u32)]); 5] = [
    (
        "type_mismatch",
        &[
            ("call void @g()", "@g = global i32 0", 7),
            ("%x = load %N, ptr %p", "%N = type i32", 7),
            ("store %N 0, ptr %p", "%N = type i32", 7),
            ("%x = add %N 1, 2", "%N = type i32", 7),
        ],
    ),
    (
        "unknown_callee",
        &[
            ("call void @g()", "declare void @g()", 7),
            ("call void @llvm.trap()", "declare void @llvm.trap()", 7),
        ],
    ),
    (
        "mode_intrinsic",
        &[(
            "call void @__kmpc_kernel_end_parallel()",
            "declare void @__kmpc_kernel_end_parallel()",
            7,
        )],
    ),
    (
        "not_built",
        &[
            (
                "call void @__kmpc_barrier(ptr null, i32 0)",
                "declare void @__kmpc_barrier(ptr, i32)",
                7,
            ),
            // The first of two by its place.
            (
                "call void @g()\ncall void @ompx_print_i64(i64 1)",
                "define void @g() {\ncall void @ompx_print_i64(i64 2)\nret void\n}\ndeclare void @ompx_print_i64(i64)",
                8,
            ),
        ],
    ),
    (
        "kernel_shape",
        // A fork may have a function's name in each of its operands.
        &[(
            "call void @__kmpc_parallel_51(ptr @k, i32 0, i32 1, i32 -1, i32 -1, ptr @k, ptr @k, ptr @k, i64 0)",
            "declare void @__kmpc_parallel_51(ptr, i32, i32, i32, i32, ptr, ptr, ptr, i64)",
            1,
        )],
    ),
];

/// Whole texts, each with the line that is refused.
const TEXTS: [(&str, &[(&str, u32)]); 7] = [
    (
        "duplicate_name",
        &[
            ("%A = type i32\n%A = type i64", 2),
            ("@g = global i32 0\n@g = global i32 1", 2),
            ("@0 = global i32 0\n@\"0\" = global i32 1", 2),
            ("declare void @f()\ndeclare void @f()", 2),
            ("declare void @f()\ndefine void @f() { ret void }", 2),
            ("define void @f() { ret void }\ndeclare void @f()", 2),
            // Of a global and a function the one of the later line, and on one line the function.
            ("@f = global i32 0\ndeclare void @f()", 2),
            ("declare void @f()\n@f = global i32 0", 2),
            ("@g = global ptr @f\ndeclare void @f() @f = global i32 0", 2),
            ("define void @f(i32 %x,\nptr %x) { ret void }", 1),
            // A parameter without a name takes the next number.
            ("define void @f(i32, i32 %0) { ret void }", 1),
        ],
    ),
    (
        "missing_name",
        &[
            ("@g = global ptr\n@nope", 1),
            ("@g = external global i32", 1),
            ("@g = global %Nope zeroinitializer", 1),
            ("%A = type {\n%Nope }", 1),
            ("declare %Nope @f()", 1),
            ("declare void @f(i32,\n%Nope)", 1),
            // A global of a line that is kept whole has no block.
            ("@llvm.used = global i32 0\n@g = global ptr @llvm.used", 2),
            (
                "define void @f() {\nentry:\ncall void @nowhere()\nret void\n}\ndefine void @g(i32 %x) { ret void }",
                3,
            ),
        ],
    ),
    (
        "type_mismatch",
        &[
            ("declare { i32 } @f()", 1),
            ("declare [2 x i8] @f()", 1),
            ("declare void @f({ i32 })", 1),
            ("define i32 @f() {\nret void\n}", 2),
            ("define i32 @f() {\nret i8 0\n}", 2),
            // What a global holds at first.
            ("@g = global i8 256", 1),
            ("@g = global i32 null", 1),
            ("@h = global i32 0\n@g = global i64 @h", 2),
            ("@g = global [2 x i8] c\"a\"", 1),
            ("@g = global [2 x i32] [ i32 0 ]", 1),
            ("@g = global { i32 } { i64 0 }", 1),
            // Each type on a circle is refused, and not the one that leads to it.
            ("%A = type [2 x %A]", 1),
            ("%A = type { %B }\n%B = type { %C }\n%C = type { %B }", 2),
            // A named type is one for layout alone.
            ("%N = type i32\ndeclare %N @f()", 2),
            ("%N = type i32\ndeclare void @f(%N)", 2),
            ("%N = type i32\n@g = global %N 0", 2),
            ("%N = type i32\n@g = global [1 x %N] [ i32 0 ]", 2),
            // The least line is told.
            ("@g = global i8 256\n@g = global i32 @nope", 1),
            ("define i32 @f() {\nret void\n}\n@g = global ptr @nope", 2),
        ],
    ),
    (
        "indirect_call",
        &[
            ("declare void @f()\n@g = global ptr @f", 2),
            // The name is what the first by line gives.
            ("@g = global ptr @f\ndeclare void @f()\n@f = global i8 0", 1),
        ],
    ),
    (
        "signature",
        &[
            ("define i32 @omp_get_level() { ret i32 0 }", 1),
            ("@__kmpc_barrier = global i32 0", 1),
            ("declare void @__kmpc_barrier(ptr)", 1),
            ("declare void @__kmpc_barrier(ptr, i64)", 1),
            ("declare i32 @__kmpc_barrier(ptr, i32)", 1),
            ("declare i32 @__kmpc_parallel_level(ptr, i32)", 1),
            // On one line the least number is told.
            ("declare void @__kmpc_kernel_end_parallel(ptr)", 1),
        ],
    ),
    (
        "mode_intrinsic",
        &[
            ("declare i1 @__kmpc_kernel_parallel(ptr)", 1),
            ("declare void @__kmpc_kernel_end_parallel()", 1),
            ("declare void @__kmpc_barrier_simple_spmd(ptr, i32)", 1),
            ("declare void @__kmpc_barrier_simple_generic(ptr, i32)", 1),
            ("declare i32 @__kmpc_get_hardware_thread_id_in_block()", 1),
        ],
    ),
    (
        "kernel_shape",
        &[
            ("declare void @g()", 1),
            ("declare i8 @__kmpc_parallel_level(ptr, i32)", 1),
            ("%A = type { %B }\n%B = type i8\n@g = global i8 0", 1),
            ("@llvm.used = global ptr @f\ndeclare void @f()", 1),
        ],
    ),
];

/// Whether the text is refused for the construct at the line.
fn is_told(alloc: Global, text: &[u8], construct: &str, line: u32) -> Result<bool, AllocError> {
    let want = format!(in alloc; "ompopt: refused: {construct} at line {line}")?;
    is_refused_so(alloc, text, want.as_str())
}

/// Whether the text is taken.
fn is_taken(alloc: Global, text: &[u8]) -> Result<bool, AllocError> {
    Ok(refusal_of(alloc, text)?.is_none())
}

#[test]
fn what_is_taken(rt: HostRuntime) -> Result<(), Fail> {
    let alloc = rt.alloc();
    for (code, item) in TAKEN {
        let mut text = with_line(alloc, code)?;
        text.extend_from_slice(item.as_bytes())?;
        let taken = is_taken(alloc, text.as_slice())?;
        assert!(rt; taken, "{code} with {item}");
    }
    Ok(())
}

#[test]
fn names_and_types(rt: HostRuntime) -> Result<(), Fail> {
    let alloc = rt.alloc();
    for (construct, rows) in LINES {
        for (code, line) in rows {
            let text = with_line(alloc, *code)?;
            let told = is_told(alloc, text.as_slice(), construct, *line)?;
            assert!(rt; told, "{construct} at {code}");
        }
    }
    for (construct, rows) in LINES_AND_ITEMS {
        for (code, item, line) in rows {
            let mut text = with_line(alloc, *code)?;
            text.extend_from_slice(item.as_bytes())?;
            let told = is_told(alloc, text.as_slice(), construct, *line)?;
            assert!(rt; told, "{construct} at {code} with {item}");
        }
    }
    for (construct, rows) in TEXTS {
        for (text, line) in rows {
            let told = is_told(alloc, text.as_bytes(), construct, *line)?;
            assert!(rt; told, "{construct} at {text}");
        }
    }
    Ok(())
}
