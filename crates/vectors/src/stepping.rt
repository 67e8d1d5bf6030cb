//! Instructions and traps, each run by the steps of a replay: what the kernel leaves in its buffer, or the line at which it traps.
//! Values are by hand, from the LLVM Language Reference.
use crate::refused::with_line;
use crate::replaying::answer_of;
use std::alloc::{AllocError, Global};
use std::process::Abort;
use std::test::Fail;

/// User code from line 7 of a kernel on, with an item behind the kernel.
struct Run {
    code: &'static str,
    item: &'static str,
    /// The bytes of the buffer.
    size: u32,
    /// How many instructions of the code are run, the one that traps with them.
    steps: u32,
    /// The buffer behind the run.
    memory: &'static str,
}

const VALUES: [Run; 10] = [
    // Two phis that swap two registers at once.
    Run {
        code: "br label %head\nhead:\n%a = phi i32 [ 1, %user ], [ %b, %head ]\n%b = phi i32 [ 2, %user ], [ %a, %head ]\n%c = phi i32 [ 0, %user ], [ %d, %head ]\n%d = add i32 %c, 1\n%t = icmp slt i32 %d, 2\nbr i1 %t, label %head, label %done\ndone:\nstore i32 %a, ptr %p\n%q = getelementptr i32, ptr %p, i32 1\nstore i32 %b, ptr %q",
        item: "",
        size: 8,
        steps: 10,
        memory: "0200000001000000",
    },
    // The first equal case.
    Run {
        code: "%v = load i32, ptr %p\nswitch i32 %v, label %other [\ni32 1, label %one\ni32 0, label %none ]\nother:\nstore i32 1, ptr %p\nbr label %done\none:\nstore i32 2, ptr %p\nbr label %done\nnone:\nstore i32 3, ptr %p\nbr label %done\ndone:",
        item: "",
        size: 4,
        steps: 4,
        memory: "03000000",
    },
    // A function that calls itself three times.
    Run {
        code: "%v = call i32 @sum(i32 3)\nstore i32 %v, ptr %p",
        item: "define i32 @sum(i32 %n) {\n%z = icmp eq i32 %n, 0\nbr i1 %z, label %end, label %more\nmore:\n%m = sub i32 %n, 1\n%r = call i32 @sum(i32 %m)\n%s = add i32 %r, %n\nret i32 %s\nend:\nret i32 0\n}",
        size: 4,
        steps: 23,
        memory: "06000000",
    },
    // 5, 3, 15, 10, 9, 9, -1, -1, 7, 258, and not (258 and 3).
    Run {
        code: "%a = atomicrmw add ptr %p, i32 5 seq_cst\n%b = atomicrmw sub ptr %p, i32 2 seq_cst\n%c = atomicrmw or ptr %p, i32 12 seq_cst\n%d = atomicrmw and ptr %p, i32 10 seq_cst\n%e = atomicrmw xor ptr %p, i32 3 seq_cst\n%f = atomicrmw max ptr %p, i32 -1 seq_cst\n%g = atomicrmw min ptr %p, i32 -1 seq_cst\n%h = atomicrmw umax ptr %p, i32 7 seq_cst\n%j = atomicrmw umin ptr %p, i32 7 seq_cst\n%l = atomicrmw xchg ptr %p, i32 258 seq_cst\n%n = atomicrmw nand ptr %p, i32 3 seq_cst\n%q = getelementptr i32, ptr %p, i32 1\nstore i32 %n, ptr %q",
        item: "",
        size: 8,
        steps: 13,
        memory: "fdffffff02010000",
    },
    // Of { i8, i32, [2 x i16] } the last item lies at byte 10.
    Run {
        code: "%q = getelementptr { i8, i32, [2 x i16] }, ptr %p, i64 0, i32 2, i64 1\nstore i16 513, ptr %q",
        item: "",
        size: 12,
        steps: 2,
        memory: "000000000000000000000102",
    },
    Run {
        code: "%v = sext i8 -3 to i32\nstore i32 %v, ptr %p\n%w = zext i8 -3 to i16\n%q = getelementptr i8, ptr %p, i64 4\nstore i16 %w, ptr %q\n%x = trunc i32 %v to i8\n%r = getelementptr i8, ptr %p, i64 6\nstore i8 %x, ptr %r",
        item: "",
        size: 7,
        steps: 8,
        memory: "fdfffffffd00fd",
    },
    Run {
        code: "%t = icmp ugt i32 -1, 1\n%v = select i1 %t, i32 4, i32 5\nstore i32 %v, ptr %p",
        item: "",
        size: 4,
        steps: 3,
        memory: "04000000",
    },
    // A block of the thread's own stack.
    Run {
        code: "%s = alloca i32\nstore i32 9, ptr %s\n%v = load i32, ptr %s\nstore i32 %v, ptr %p",
        item: "",
        size: 4,
        steps: 4,
        memory: "09000000",
    },
    // A pointer that is stored and read back; its bytes aren't shown.
    Run {
        code: "store ptr %p, ptr %p\n%q = load ptr, ptr %p\n%r = getelementptr i8, ptr %q, i64 8\nstore i32 7, ptr %r",
        item: "",
        size: 12,
        steps: 4,
        memory: "****************07000000",
    },
    Run {
        code: "%v = sdiv i32 -7, 2\n%w = srem i32 -7, 2\n%x = ashr i32 -7, 1\n%y = mul i32 %v, %w\n%z = sub i32 %y, %x\nstore i32 %z, ptr %p\nfence seq_cst",
        item: "",
        size: 4,
        steps: 7,
        memory: "07000000",
    },
];

/// A run that traps, with the line and the trap.
const TRAPS: [(Run, u32, &str); 13] = [
    (
        Run {
            code: "%v = add nsw i32 2147483647, 1",
            item: "",
            size: 4,
            steps: 1,
            memory: "00000000",
        },
        7,
        "Overflow",
    ),
    (
        Run {
            code: "%v = mul nuw i32 65536, 65536",
            item: "",
            size: 4,
            steps: 1,
            memory: "00000000",
        },
        7,
        "Overflow",
    ),
    (
        Run {
            code: "%v = udiv exact i32 3, 2",
            item: "",
            size: 4,
            steps: 1,
            memory: "00000000",
        },
        7,
        "Overflow",
    ),
    (
        Run {
            code: "%v = udiv i32 1, 0",
            item: "",
            size: 4,
            steps: 1,
            memory: "00000000",
        },
        7,
        "Division",
    ),
    (
        Run {
            code: "%v = sdiv i32 -2147483648, -1",
            item: "",
            size: 4,
            steps: 1,
            memory: "00000000",
        },
        7,
        "Division",
    ),
    (
        Run {
            code: "%v = shl i32 1, 32",
            item: "",
            size: 4,
            steps: 1,
            memory: "00000000",
        },
        7,
        "Shift",
    ),
    (
        Run {
            code: "store i32 1, ptr %p\nstore i32 1, ptr null",
            item: "",
            size: 4,
            steps: 2,
            memory: "01000000",
        },
        8,
        "NoBlock",
    ),
    (
        Run {
            code: "%q = getelementptr i8, ptr %p, i64 5\nstore i32 1, ptr %q",
            item: "",
            size: 8,
            steps: 2,
            memory: "0000000000000000",
        },
        8,
        "OutOfBlock",
    ),
    (
        Run {
            code: "store i32 1, ptr @c",
            item: "@c = constant i32 0",
            size: 4,
            steps: 1,
            memory: "00000000",
        },
        7,
        "Constant",
    ),
    (
        Run {
            code: "%s = alloca i32\nstore ptr %s, ptr %p",
            item: "",
            size: 8,
            steps: 2,
            memory: "0000000000000000",
        },
        8,
        "StackLeak",
    ),
    (
        Run {
            code: "store ptr %p, ptr %p\n%v = load i64, ptr %p",
            item: "",
            size: 8,
            steps: 2,
            memory: "****************",
        },
        8,
        "NotNumber",
    ),
    (
        Run {
            code: "unreachable\nnext:",
            item: "",
            size: 4,
            steps: 1,
            memory: "00000000",
        },
        7,
        "Unreachable",
    ),
    (
        Run {
            code: "store i32 %u, ptr %p\n%u = add i32 1, 1",
            item: "",
            size: 4,
            steps: 1,
            memory: "00000000",
        },
        7,
        "Unassigned",
    ),
];

/// The kernel with the code of a run, and its item.
fn module_of(alloc: Global, run: &Run) -> Result<Vec<u8>, AllocError> {
    let mut text = with_line(alloc, run.code)?;
    text.extend_from_slice(run.item.as_bytes())?;
    Ok(text)
}

/// What a replay of the kernel by one worker and the main thread writes.
fn written(alloc: Global, run: &Run, schedule: &str) -> Result<Vec<u8>, AllocError> {
    let module = module_of(alloc, run)?;
    let size = run.size;
    let launch = format!(in alloc; "kernel k\nthreads 1\nsteps 100\narg zeros {size}\n")?;
    let answer = answer_of(
        alloc,
        module.as_slice(),
        launch.as_bytes(),
        schedule.as_bytes(),
    )?;
    Ok(answer.out)
}

/// Whether the kernel ends, and leaves the buffer so. Its code stands between three steps and two.
fn leaves(alloc: Global, run: &Run) -> Result<bool, AllocError> {
    let count = u64::from(run.steps) + 5;
    let memory = run.memory;
    let schedule = format!(in alloc; "1 {count}\n0 4\n")?;
    let want = format!(in alloc;
        "mode none\nend ended\nmemory 0 {memory}\nschedule 2\n{schedule}"
    )?;
    let out = written(alloc, run, schedule.as_str())?;
    Ok(out.as_slice() == want.as_bytes())
}

/// Whether the kernel's main thread traps so.
fn traps(alloc: Global, run: &Run, line: u32, trap: &str) -> Result<bool, AllocError> {
    let count = u64::from(run.steps) + 3;
    let memory = run.memory;
    let schedule = format!(in alloc; "1 {count}\n")?;
    let want = format!(in alloc;
        "mode none\nend trapped 1 line {line} {trap}\nmemory 0 {memory}\nschedule 1\n{schedule}"
    )?;
    let out = written(alloc, run, schedule.as_str())?;
    Ok(out.as_slice() == want.as_bytes())
}

#[test]
fn values(rt: HostRuntime) -> Result<(), Fail> {
    for run in &VALUES {
        assert!(rt; leaves(rt.alloc(), run)?, "at {}", run.code);
    }
    Ok(())
}

#[test]
fn trapping(rt: HostRuntime) -> Result<(), Fail> {
    for (run, line, trap) in &TRAPS {
        assert!(rt;
            traps(rt.alloc(), run, *line, *trap)?,
            "{trap} at {}",
            run.code
        );
    }
    Ok(())
}
