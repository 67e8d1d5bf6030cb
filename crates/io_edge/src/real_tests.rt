//! Tests of the real inputs and sinks: what a file or a stream does, no clause tells.

use crate::outside::{InputFailed, Inputs, Sink};
use crate::real::{FileInputs, StreamSink};
use std::io::{self, Write};
use std::rt::Files;
use std::test::Fail;

// A stream that takes nothing.
#[derive(Drop)]
struct Full;

impl Write for Full {
    fn write(&mut self, _: &[u8]) -> io::Result<usize> {
        Ok(0)
    }

    fn flush(&mut self) -> io::Result<()> {
        Ok(())
    }
}

// Reads from the start of the file that a word names.
fn read_named<R: Files>(rt: &R, word: String, buf: &mut [u8]) -> Result<usize, InputFailed> {
    let words = [word];
    let mut inputs = FileInputs::new(rt, &words);
    inputs.read(words[0].as_str(), 0, buf)
}

#[test]
fn a_missing_file_is_a_fault(rt: HostRuntime) -> Result<(), Fail> {
    let mut buf = [0; 16];
    let word = format!(in rt.alloc(); "no/such/file.ll")?;
    assert!(rt; read_named(&rt, word, &mut buf).is_err());
    Ok(())
}

#[test]
fn a_stream_that_takes_nothing_is_a_fault(rt: HostRuntime) {
    let mut sink = StreamSink::new(Full);
    assert!(rt; sink.write(b"text").is_err());
    assert!(rt; sink.write(b"").is_ok());
}
