//! Modules whose shapes are refused, and modules of which nothing is refused.
use crate::texts::{FORKED, STORE_SEVEN};
use ir_core::{Or, OutOfMemory, Refusal};
use ir_read::read_module;
use ir_shapes::of_shapes;
use ir_tables::Indexed;
use std::alloc::{AllocError, Global};
use std::process::Abort;
use std::test::Fail;

/// A text in the place of the first that is equal to another.
type Edit = (&'static str, &'static str);

/// A module with these edits, and the line that is refused.
type Row = (&'static [Edit], u32);

const STORE: &str = "  store i32 7, ptr %p\n";

const DEINIT: &str = "  call void @__kmpc_target_deinit(ptr null, i8 1)\n";

const FIRST: &str = "entry:\n";

const KERNEL: &str = "define void @k(ptr %p) {\n";

/// Edits of the kernel that stores 7.
const KERNELS: [(&str, &[Row]); 5] = [
    (
        "kernel_shape",
        &[
            (&[("i8 1, i1 true", "i8 0, i1 true")], 3),
            (&[("i8 1, i1 true", "i8 1, i1 false")], 3),
            // The comparison and the branch.
            (&[("icmp eq", "icmp ult")], 4),
            (&[("%i, -1", "%i, 0")], 4),
            (&[("label %exit", "label %user")], 5),
            (
                &[("br i1 %m, label %user, label %exit", "br label %user")],
                5,
            ),
            // The block for workers.
            (
                &[("label %user, label %exit", "label %exit, label %user")],
                6,
            ),
            (&[("exit:\n", "exit:\n  store i32 7, ptr %p\n")], 10),
            (&[(STORE, "  br label %exit\nmore:\n")], 11),
            // The ends of the user code.
            (&[(DEINIT, "")], 8),
            (&[("deinit(ptr null, i8 1)", "deinit(ptr null, i8 2)")], 8),
            (
                &[(
                    STORE,
                    "  call void @__kmpc_target_deinit(ptr null, i8 1)\n  store i32 7, ptr %p\n",
                )],
                7,
            ),
            // What stands before the init call.
            (&[(FIRST, "entry:\n  store i32 7, ptr %p\n")], 3),
            (
                &[(
                    FIRST,
                    "entry:\n  %s = alloca i32\n  %e = getelementptr i32, ptr %s, i64 0\n  %f = getelementptr i32, ptr %e, i64 0\n  store i32 7, ptr %f\n",
                )],
                6,
            ),
            (
                &[(
                    FIRST,
                    "entry:\n  %s = alloca i32\n  %v = atomicrmw add ptr %s, i32 1 seq_cst\n",
                )],
                4,
            ),
            // The heading: one init call, in the first block; no result; never called.
            (
                &[(
                    STORE,
                    "  %j = call i32 @__kmpc_target_init(ptr null, i8 1, i1 true)\n",
                )],
                1,
            ),
            (&[(FIRST, "begin:\n  br label %entry\nentry:\n")], 1),
            (
                &[
                    ("define void", "define i32"),
                    ("ret void", "ret i32 0"),
                    ("ret void", "ret i32 0"),
                ],
                1,
            ),
            (
                &[(
                    KERNEL,
                    "define void @f(ptr %p) {\n  call void @k(ptr %p)\n  ret void\n}\ndefine void @k(ptr %p) {\n",
                )],
                5,
            ),
            // A deinit call outside of kernels, and the global that says the mode.
            (
                &[(
                    KERNEL,
                    "define void @f() {\n  call void @__kmpc_target_deinit(ptr null, i8 1)\n  ret void\n}\ndefine void @k(ptr %p) {\n",
                )],
                2,
            ),
            (
                &[(
                    KERNEL,
                    "@k_exec_mode = constant i8 3\ndefine void @k(ptr %p) {\n",
                )],
                1,
            ),
            (
                &[(
                    KERNEL,
                    "@k_exec_mode = global i8 1\ndefine void @k(ptr %p) {\n",
                )],
                1,
            ),
            (
                &[(
                    KERNEL,
                    "@k_exec_mode = constant i32 1\ndefine void @k(ptr %p) {\n",
                )],
                1,
            ),
            (
                &[
                    (
                        KERNEL,
                        "@k_exec_mode = constant i8 1\ndefine void @k(ptr %p) {\n",
                    ),
                    (STORE, "  %v = load i8, ptr @k_exec_mode\n"),
                ],
                1,
            ),
        ],
    ),
    (
        "spmd_input",
        &[
            (&[("i8 1, i1 true", "i8 2, i1 true")], 3),
            (
                &[(
                    KERNEL,
                    "@k_exec_mode = weak constant i8 2\ndefine void @k(ptr %p) {\n",
                )],
                1,
            ),
            // No other rule is asked of it.
            (
                &[
                    ("i8 1, i1 true", "i8 2, i1 true"),
                    (FIRST, "entry:\n  store i32 7, ptr %p\n"),
                ],
                4,
            ),
        ],
    ),
    (
        "clause_argument",
        &[(&[("deinit(ptr null, i8 1)", "deinit(ptr %p, i8 1)")], 8)],
    ),
    (
        "limit",
        &[
            (&[(FIRST, "entry:\n  %s = alloca [1048577 x i8]\n")], 3),
            (
                &[(FIRST, "entry:\n  %s = alloca { [0 x [1048577 x i8]] }\n")],
                3,
            ),
            (
                &[(
                    KERNEL,
                    "%t = type [1048577 x i8]\ndefine void @k(ptr %p) {\n",
                )],
                1,
            ),
            (
                &[(
                    KERNEL,
                    "@g = global [1048577 x i8] zeroinitializer\ndefine void @k(ptr %p) {\n",
                )],
                1,
            ),
        ],
    ),
    (
        "",
        &[
            (&[], 0),
            (
                &[
                    ("icmp eq", "icmp ne"),
                    ("label %user, label %exit", "label %exit, label %user"),
                ],
                0,
            ),
            (&[("%i, -1", "-1, %i")], 0),
            (
                &[(
                    FIRST,
                    "entry:\n  %s = alloca [2 x i32]\n  %e = getelementptr [2 x i32], ptr %s, i64 0, i64 1\n  store i32 7, ptr %s\n  %v = load atomic i32, ptr %e seq_cst\n  %x = add i32 %v, 1\n",
                )],
                0,
            ),
            (
                &[(
                    KERNEL,
                    "@k_exec_mode = weak constant i8 1\n@llvm.compiler.used = appending global [1 x ptr] [ptr @k_exec_mode]\ndefine void @k(ptr %p) {\n",
                )],
                0,
            ),
            (
                &[
                    (KERNEL, "@l = constant i8 0\ndefine void @k(ptr %p) {\n"),
                    ("deinit(ptr null, i8 1)", "deinit(ptr @l, i8 1)"),
                ],
                0,
            ),
            (&[(FIRST, "entry:\n  %s = alloca [1048576 x i8]\n")], 0),
        ],
    ),
];

/// Edits of the kernel that forks.
const REGIONS: [(&str, &[Row]); 5] = [
    (
        "clause_argument",
        &[
            (&[("i32 1, i32 -1", "i32 0, i32 -1")], 9),
            (&[("i32 1, i32 -1", "i32 1, i32 4")], 9),
        ],
    ),
    (
        "wrapper_shape",
        &[
            // The fork.
            (&[("i64 1)", "i64 2)")], 9),
            (
                &[
                    ("  store ptr %p, ptr %c\n", "  %n = add i64 1, 0\n"),
                    ("i64 1)", "i64 %n)"),
                ],
                9,
            ),
            (
                &[
                    ("ptr @r, ptr @w", "ptr @s, ptr @w"),
                    (
                        "define internal void @w",
                        "define internal void @s(ptr %g, ptr %b, ptr %p) {\n  ret void\n}\ndefine internal void @w",
                    ),
                ],
                9,
            ),
            // The heading of a wrapper, and where it is named.
            (&[("@w(i16 %z, i32 %t)", "@w(i32 %z, i32 %t)")], 20),
            (
                &[("  store ptr %p, ptr %c\n", "  call void @w(i16 0, i32 0)\n")],
                20,
            ),
            (
                &[(
                    "  call void @r(ptr %ga",
                    "  br label %next\nnext:\n  call void @r(ptr %ga",
                )],
                20,
            ),
            // Its walk.
            (
                &[(
                    "  %q = load ptr, ptr %a\n",
                    "  %s = add i32 %t, 1\n  %q = load ptr, ptr %a\n",
                )],
                28,
            ),
            (
                &[("ptr %ga, ptr %za, ptr %q", "ptr %za, ptr %ga, ptr %q")],
                29,
            ),
            (
                &[("ptr %ga, ptr %za, ptr %q", "ptr %ga, ptr %za, ptr %a")],
                29,
            ),
            (
                &[
                    ("  %q = load ptr, ptr %a\n", "  %q = load i32, ptr %a\n"),
                    ("ptr %za, ptr %q", "ptr %za, i32 %q"),
                    ("@r(ptr %g, ptr %b, ptr %p)", "@r(ptr %g, ptr %b, i32 %p)"),
                    ("atomicrmw add ptr %p", "atomicrmw add ptr %g"),
                ],
                20,
            ),
        ],
    ),
    (
        "nested_parallel",
        &[
            (
                &[(
                    "  %o = ",
                    "  %c = alloca [1 x ptr]\n  call void @__kmpc_parallel_51(ptr null, i32 0, i32 1, i32 -1, i32 -1, ptr @r, ptr @w, ptr %c, i64 1)\n  %o = ",
                )],
                18,
            ),
            // Through a call.
            (
                &[
                    ("  %o = ", "  call void @h(ptr %p)\n  %o = "),
                    (
                        KERNEL,
                        "define void @h(ptr %c) {\n  call void @__kmpc_parallel_51(ptr null, i32 0, i32 1, i32 -1, i32 -1, ptr @r, ptr @w, ptr %c, i64 1)\n  ret void\n}\ndefine void @k(ptr %p) {\n",
                    ),
                ],
                2,
            ),
        ],
    ),
    (
        "kernel_shape",
        &[(&[("ptr @r, ptr @w", "ptr @k, ptr @w")], 1)],
    ),
    (
        "",
        &[
            (&[], 0),
            (&[("i32 -1, i32 -1, ptr @r", "i32 -1, i32 4, ptr @r")], 0),
            // A wrapper without a fork, and a fork that is never run.
            (
                &[(
                    "  call void @__kmpc_parallel_51(ptr null, i32 0, i32 1, i32 -1, i32 -1, ptr @r, ptr @w, ptr %c, i64 1)\n",
                    "",
                )],
                0,
            ),
            (
                &[(
                    KERNEL,
                    "define void @h(ptr %c) {\n  call void @__kmpc_parallel_51(ptr null, i32 0, i32 1, i32 -1, i32 -1, ptr @r, ptr @w, ptr %c, i64 1)\n  ret void\n}\ndefine void @k(ptr %p) {\n",
                )],
                0,
            ),
            // A word of 64 bits.
            (
                &[
                    ("  %q = load ptr, ptr %a\n", "  %q = load i64, ptr %a\n"),
                    ("ptr %za, ptr %q", "ptr %za, i64 %q"),
                    ("@r(ptr %g, ptr %b, ptr %p)", "@r(ptr %g, ptr %b, i64 %p)"),
                    ("atomicrmw add ptr %p", "atomicrmw add ptr %g"),
                ],
                0,
            ),
        ],
    ),
];

fn edited(alloc: Global, text: &str, edit: Edit) -> Result<String, AllocError> {
    let (old, new) = edit;
    match text.split_once(old) {
        Some((before, behind)) => format!(in alloc; "{before}{new}{behind}"),
        None => String::from_str(alloc, text),
    }
}

fn all_edited(alloc: Global, text: &str, edits: &[Edit]) -> Result<String, AllocError> {
    let mut text = String::from_str(alloc, text)?;
    for edit in edits {
        text = edited(alloc, text.as_str(), *edit)?;
    }
    Ok(text)
}

fn shape_refusal(alloc: Global, text: &str) -> Result<Option<Refusal>, Or<Refusal>> {
    let module = Indexed::of(alloc, read_module(alloc, text.as_bytes())?)?;
    Ok(of_shapes(alloc, &module)?)
}

/// Whether a module is refused so, or nothing is refused of it where the construct is none.
fn is_told(alloc: Global, text: &str, construct: &str, line: u32) -> Result<bool, AllocError> {
    let want = format!(in alloc; "ompopt: refused: {construct} at line {line}")?;
    let mut buffer = [0; 128];
    match shape_refusal(alloc, text) {
        Ok(Some(refusal)) => {
            let end = refusal.print(&mut buffer);
            Ok(&buffer[..end] == want.as_bytes())
        }
        Ok(None) => Ok(construct.is_empty()),
        Err(Or::Refused(_)) => Ok(false),
        Err(Or::Memory) => Err(AllocError),
    }
}

fn are_told(alloc: Global, text: &str, construct: &str, rows: &[Row]) -> Result<bool, AllocError> {
    for (edits, line) in rows {
        let text = all_edited(alloc, text, *edits)?;
        if !is_told(alloc, text.as_str(), construct, *line)? {
            return Ok(false);
        }
    }
    Ok(true)
}

#[test]
fn kernels(rt: HostRuntime) -> Result<(), Fail> {
    for (construct, rows) in KERNELS {
        let told = are_told(rt.alloc(), STORE_SEVEN, construct, rows)?;
        assert!(rt; told, "{construct} of a kernel");
    }
    Ok(())
}

#[test]
fn regions(rt: HostRuntime) -> Result<(), Fail> {
    for (construct, rows) in REGIONS {
        let told = are_told(rt.alloc(), FORKED, construct, rows)?;
        assert!(rt; told, "{construct} of a region");
    }
    Ok(())
}
