//! The program: the top calls over the files that its words name and the standard streams.
#![tactic(auto)]

ghost use Rattle.std.specs.Prelude.{◌≡◌};

use io_edge::{FileInputs, Sink, StreamSink};
use opt_core::{opt_main, replay_main};
use std::alloc::Global;
use std::env;
use std::process::ExitCode;
use std::rt::Files;

// The status of the program where there is no memory for its words.
const OUT_OF_MEMORY: u8 = 7;

fn words_of(rt: &HostRuntime) -> Option<Vec<String>> {
    let mut words = Vec::new(rt.alloc());
    for word in env::args(rt).ok()?.skip(1) {
        words.push(word).ok()?;
    }
    Some(words)
}

fn is_replay(words: &[String]) -> bool {
    match words {
        [command, ..] => command.as_str() == "replay",
        [] => false,
    }
}

// The top call for the words, over files by name.
fn answer<R: Files, K: Sink, N: Sink>(
    alloc: Global,
    inputs: &mut FileInputs<'_, R>,
    words: &[String],
    out: &mut K,
    notes: &mut N,
) -> u8
    requires { inputs.old.words.now ≡ words.now }
{
    if is_replay(words) {
        replay_main(alloc, words, inputs, out, notes)
    } else {
        opt_main(alloc, words, inputs, out, notes)
    }
}

fn main(rt: HostRuntime) -> ExitCode {
    let Some(words) = words_of(&rt) else {
        return ExitCode::from(OUT_OF_MEMORY);
    };
    let mut inputs = FileInputs::new(&rt, words.as_slice());
    let mut out = StreamSink::new(rt.stdout());
    let mut notes = StreamSink::new(rt.stderr());
    let status = answer(
        rt.alloc(),
        &mut inputs,
        words.as_slice(),
        &mut out,
        &mut notes,
    );
    ExitCode::from(status)
}
