//! The top call of a replay over files in memory.
ghost use Rattle.std.specs.Prelude.{◌≡◌, [], ◌∷◌, IfOk, IsSome, Some, codes};
ghost use Rattle.opt_core.specs.Answer.{texts};
ghost use Rattle.opt_core.specs.Replay.{paths_of};
ghost use Rattle.io_edge.specs.Files.{names_of};

use crate::texts::STORE_SEVEN;
use io_edge::{NamedFile, StreamSink, SureInputs};
use ir_core::{FileName, List};
use opt_core::replay_main;
use std::alloc::{AllocError, Global};
use std::process::Abort;
use std::test::Fail;

/// A launch that fits the kernel.
const LAUNCH: &str = "kernel k\nthreads 1\nsteps 100\narg zeros 4\n";

/// A file of this name.
fn file_of(alloc: Global, name: &str, text: &[u8]) -> Result<NamedFile, AllocError>
    ensures name { IfOk result (λ file. file.name ≡ name.now) }
    ensures bytes { IfOk result (λ file. IsSome file.bytes) }
{
    Ok(NamedFile {
        name: FileName::new(String::from_str(alloc, name)?),
        bytes: Some(List::from_slice(alloc, text)?),
    })
}

/// Inputs that hold a module, a launch and a schedule.
fn files_of(
    alloc: Global,
    module: &[u8],
    launch: &[u8],
    schedule: &[u8],
) -> Result<SureInputs, AllocError>
    ensures { IfOk result (λ inputs. names_of inputs ≡ codes "a.ll" ∷ codes "launch" ∷ codes "schedule" ∷ []) }
{
    let mut files = List::new(alloc);
    files.push(file_of(alloc, "a.ll", module)?)?;
    files.push(file_of(alloc, "launch", launch)?)?;
    files.push(file_of(alloc, "schedule", schedule)?)?;
    Ok(SureInputs::new(files))
}

fn replay_words(alloc: Global) -> Result<Vec<String>, AllocError>
    ensures { IfOk result (λ words. paths_of (texts words.items) ≡ Some (record { «module» = codes "a.ll"; launch = codes "launch"; schedule = codes "schedule" })) }
{
    let mut words = Vec::new(alloc);
    words.push(String::from_str(alloc, "replay")?)?;
    words.push(String::from_str(alloc, "a.ll")?)?;
    words.push(String::from_str(alloc, "launch")?)?;
    words.push(String::from_str(alloc, "schedule")?)?;
    Ok(words)
}

/// The status of a replay, and what is written on the output and on the notes.
#[derive(Drop)]
pub(crate) struct Answer {
    pub(crate) status: u8,
    pub(crate) out: Vec<u8>,
    pub(crate) notes: Vec<u8>,
}

/// The answer to a module, a launch and a schedule.
pub(crate) fn answer_of(
    alloc: Global,
    module: &[u8],
    launch: &[u8],
    schedule: &[u8],
) -> Result<Answer, AllocError> {
    let words = replay_words(alloc)?;
    let mut inputs = files_of(alloc, module, launch, schedule)?;
    let (mut out, mut notes) = (Vec::new(alloc), Vec::new(alloc));
    let mut output = StreamSink::new(&mut out);
    let mut noted = StreamSink::new(&mut notes);
    let status = replay_main(
        alloc,
        words.as_slice(),
        &mut inputs,
        &mut output,
        &mut noted,
    );
    Ok(Answer { status, out, notes })
}

/// The answer to a launch and a schedule of the kernel that stores 7.
fn seven_of(alloc: Global, launch: &[u8], schedule: &[u8]) -> Result<Answer, AllocError> {
    answer_of(alloc, STORE_SEVEN.as_bytes(), launch, schedule)
}

/// A launch and a schedule, with the status and what is written.
struct Row {
    launch: &'static str,
    schedule: &'static str,
    status: u8,
    out: &'static str,
    notes: &'static str,
}

const ROWS: [Row; 15] = [
    Row {
        launch: LAUNCH,
        schedule: "1 6\n0 4\n",
        status: 0,
        out: "mode none\nend ended\nmemory 0 07000000\nschedule 2\n1 6\n0 4\n",
        notes: "",
    },
    Row {
        launch: LAUNCH,
        schedule: "1 6\n",
        status: 10,
        out: "mode none\nend open\nmemory 0 07000000\nschedule 1\n1 6\n",
        notes: "",
    },
    Row {
        launch: "kernel k\nthreads 1\nsteps 100\narg zeros 2\n",
        schedule: "1 4\n",
        status: 8,
        out: "mode none\nend trapped 1 line 7 OutOfBlock\nmemory 0 0000\nschedule 1\n1 4\n",
        notes: "",
    },
    Row {
        launch: LAUNCH,
        schedule: "1 6\n1\n",
        status: 4,
        out: "",
        notes: "ompopt: schedule: line_form at line 2 step 0\n",
    },
    Row {
        launch: LAUNCH,
        schedule: "2 1\n",
        status: 4,
        out: "",
        notes: "ompopt: schedule: thread_range at line 1 step 0\n",
    },
    Row {
        launch: LAUNCH,
        schedule: "0 4\n0 1\n",
        status: 4,
        out: "",
        notes: "ompopt: schedule: not_ready at line 2 step 1\n",
    },
    Row {
        launch: "kernel k\nthreads 1\nsteps 5\narg zeros 4\n",
        schedule: "1 6\n",
        status: 4,
        out: "",
        notes: "ompopt: schedule: over_bound at line 1 step 6\n",
    },
    Row {
        launch: "# k\nkernel\n",
        schedule: "",
        status: 4,
        out: "",
        notes: "ompopt: launch: line_form at line 2\n",
    },
    Row {
        launch: "kernel j\n",
        schedule: "",
        status: 4,
        out: "",
        notes: "ompopt: launch: no_kernel at line 1\n",
    },
    Row {
        launch: "kernel k\nthreads 65\n",
        schedule: "",
        status: 4,
        out: "",
        notes: "ompopt: launch: threads_range at line 2\n",
    },
    Row {
        launch: "kernel k\nthreads 1\nsteps 0\n",
        schedule: "",
        status: 4,
        out: "",
        notes: "ompopt: launch: steps_range at line 3\n",
    },
    Row {
        launch: "kernel k\nthreads 1\nsteps 100\n",
        schedule: "",
        status: 4,
        out: "",
        notes: "ompopt: launch: argument_count at line 4\n",
    },
    Row {
        launch: "kernel k\nthreads 1\nsteps 100\narg int 4\n",
        schedule: "",
        status: 4,
        out: "",
        notes: "ompopt: launch: argument_form at line 4\n",
    },
    Row {
        launch: "kernel k\nthreads 1\nsteps 100\narg zeros 1048577\n",
        schedule: "",
        status: 4,
        out: "",
        notes: "ompopt: launch: argument_size at line 4\n",
    },
    Row {
        launch: "",
        schedule: "",
        status: 4,
        out: "",
        notes: "ompopt: launch: line_form at line 1\n",
    },
];

/// Whether the answer to the row's texts is what the row says.
fn is_answered(alloc: Global, row: &Row) -> Result<bool, AllocError> {
    let answer = seven_of(alloc, row.launch.as_bytes(), row.schedule.as_bytes())?;
    Ok(
        answer.status == row.status
            && answer.out.as_slice() == row.out.as_bytes()
            && answer.notes.as_slice() == row.notes.as_bytes(),
    )
}

#[test]
fn launches_and_schedules(rt: HostRuntime) -> Result<(), Fail> {
    for row in &ROWS {
        assert!(rt;
            is_answered(rt.alloc(), row)?,
            "at {}{}",
            row.launch,
            row.schedule
        );
    }
    Ok(())
}

/// A text of this many bytes.
fn long_text(alloc: Global, size: usize) -> Result<Vec<u8>, AllocError> {
    vec![in alloc; b'#'; size]
}

/// Whether the notes for these texts are this line.
fn is_noted(
    alloc: Global,
    launch: &[u8],
    schedule: &[u8],
    line: &[u8],
) -> Result<bool, AllocError> {
    let answer = seven_of(alloc, launch, schedule)?;
    Ok(answer.notes.as_slice() == line)
}

#[test]
fn launches_that_are_too_long(rt: HostRuntime) -> Result<(), Fail> {
    let launch = long_text(rt.alloc(), 4_194_305)?;
    let line = b"ompopt: launch: text_size at line 1\n".as_slice();
    assert!(rt; is_noted(rt.alloc(), launch.as_slice(), b"".as_slice(), line)?);
    Ok(())
}

#[test]
fn schedules_that_are_too_long(rt: HostRuntime) -> Result<(), Fail> {
    let schedule = long_text(rt.alloc(), 33_554_433)?;
    let line = b"ompopt: schedule: text_size at line 1 step 0\n".as_slice();
    assert!(rt; is_noted(rt.alloc(), LAUNCH.as_bytes(), schedule.as_slice(), line)?);
    Ok(())
}
