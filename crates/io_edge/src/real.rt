//! The real inputs and sinks: files by name, and streams.
ghost use Rattle.std.specs.Prelude.{◌≡◌, ◌≤◌, length, replicate, IfOk, None};
ghost use Rattle.io_edge.specs.Place.{IsServed, count_at, place};

use crate::outside::{InputFailed, Inputs, Sink, SinkFailed};
use std::io::{Read, Seek, SeekFrom, Write};
use std::rt::Files;
use std::{fs, io};

/// Files by name, which serve the names among the first eight words that they were made with.
///
/// A count of faults is kept for each of these words, and a name is counted at the first word that equals it.
/// They do not tell what a file holds.
#[derive(Drop)]
pub struct FileInputs<'a, R> {
    rt: &'a R,
    words: &'a [String],
    counts: [u64; 8],
}

impl<'a, R> FileInputs<'a, R> {
    /// Files by the names among the first eight words. No fault is counted yet.
    pub fn new(rt: &'a R, words: &'a [String]) -> FileInputs<'a, R>
        ensures words { result.words.now ≡ words.now }
        ensures counts { result.counts ≡ replicate 8 0 }
    {
        FileInputs {
            rt,
            words,
            counts: [0; 8],
        }
    }
}

// The place of the first word that equals the name.
fn place_of(words: &[String], name: &str) -> Option<usize>
    ensures { result ≡ place words.now name.now }
{
    words.iter().position(|word| word.as_str() == name)
}

// Reads from a place of a file into the front of the buffer, and answers how many bytes it read.
fn read_at<R: Files>(rt: &R, name: &str, at: u64, buf: &mut [u8]) -> io::Result<usize>
    ensures { IfOk result (λ count. count ≤ length buf.new) }
{
    let mut file = fs::open(rt, name)?;
    file.seek(SeekFrom::Start(at))?;
    file.read(buf)
}

impl<R: Files> Inputs for FileInputs<'_, R> {
    ghost served = { λ files name. IsServed files.words.now name };

    ghost held = { λ _ _. None };

    ghost faults = { λ files name. count_at files.counts (place files.words.now name) };

    fn read(&mut self, name: &str, at: u64, buf: &mut [u8]) -> Result<usize, InputFailed> {
        match read_at(self.rt, name, at, buf) {
            Ok(count) => Ok(count),
            Err(_) => {
                if let Some(index) = place_of(self.words, name) {
                    self.counts[index] = self.counts[index].saturating_add(1);
                }
                Err(InputFailed)
            }
        }
    }
}

/// A stream as a sink. Its failed writes are counted, and so are those that took nothing of a piece that is not empty.
/// It does not tell what it has taken.
#[derive(Drop)]
pub struct StreamSink<W> {
    stream: W,
    faults: u64,
}

impl<W> StreamSink<W> {
    /// A sink over this stream. No fault is counted yet.
    pub fn new(stream: W) -> StreamSink<W>
        ensures { result.faults ≡ 0 }
    {
        StreamSink { stream, faults: 0 }
    }
}

impl<W: Write> Sink for StreamSink<W> {
    ghost taken = { λ _. None };

    ghost faults = { λ sink. sink.faults };

    fn write(&mut self, piece: &[u8]) -> Result<usize, SinkFailed> {
        match self.stream.write(piece) {
            Ok(count) if count > 0 || piece.is_empty() => Ok(count),
            _ => {
                self.faults = self.faults.saturating_add(1);
                Err(SinkFailed)
            }
        }
    }
}
