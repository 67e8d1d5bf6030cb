//! Inputs and sinks in memory.
ghost use Rattle.std.specs.Prelude.{◌≡◌, ◌≤◌, length, None, Some};
ghost use Rattle.std.specs.Option.{option_copied};
ghost use Rattle.io_edge.specs.Files.{HaveBytes, HaveDistinctNames, content_of, file_of};
ghost use Rattle.io_edge.specs.Outside.{GivesFrom};

use crate::outside::{InputFailed, Inputs, Sink, SinkFailed};
use ir_core::{FileName, List};
use std::marker::Model;

/// A file that is kept in memory.
#[derive(Debug, Drop)]
pub struct NamedFile {
    /// The name that it is read by.
    pub name: FileName,
    /// What it holds, or nothing where it is missing.
    pub bytes: Option<List<u8>>,
}

/// Files in memory, which serve the names that they were made with and never fail.
/// Contracts see them as the list of files.
#[derive(Debug, Drop)]
pub struct SureInputs {
    files: List<NamedFile>,
}

impl Model for SureInputs {
    ghost use Rattle.std.specs.Prelude.{List};
    ghost use Rattle.io_edge.specs.declared.memory.NamedFile.{NamedFile};
    ghost use Rattle.io_edge.specs.Files.{HaveBytes};

    ghost Value = { List NamedFile };

    ghost view = { λ inputs. inputs.files };

    ghost invariant = { λ inputs. HaveBytes inputs.files };
}

impl SureInputs {
    /// Inputs that hold these files. Their names are distinct, and each has bytes.
    pub fn new(files: List<NamedFile>) -> SureInputs
        requires names { HaveDistinctNames files }
        requires bytes { HaveBytes files }
        ensures { result ≡ files }
    {
        SureInputs { files }
    }
}

// The first file of a name.
fn file_in<'a>(files: &'a [NamedFile], name: &str) -> Option<&'a NamedFile>
    ensures { option_copied result ≡ file_of files.now name.now }
{
    files.iter().find(|file| file.name.as_str() == name)
}

// The bytes that stand under a name.
fn content_in<'a>(files: &'a [NamedFile], name: &str) -> Option<&'a List<u8>>
    ensures { option_copied result ≡ content_of files.now name.now }
{
    file_in(files, name).and_then(|file| file.bytes.as_ref())
}

// Copies the bytes from a place on into the front of the buffer, as many as it has room for, and answers how many.
fn copy_from(content: &[u8], at: usize, buf: &mut [u8]) -> usize
    ensures within { result ≤ length buf.new }
    ensures bytes { GivesFrom (Some content.now) at buf.new result }
{
    let Some(rest) = content.get(at..) else {
        return 0;
    };
    let count = rest.len().min(buf.len());
    buf[..count].copy_from_slice(&rest[..count]);
    count
}

impl Inputs for SureInputs {
    ghost use Rattle.std.specs.Prelude.{Contains};
    ghost use Rattle.io_edge.specs.Files.{content_of, names_of};

    ghost served = { λ files name. Contains (names_of files) name };

    ghost held = { content_of };

    ghost faults = { λ _ _. 0 };

    fn read(&mut self, name: &str, at: u64, buf: &mut [u8]) -> Result<usize, InputFailed> {
        match content_in(self.files.as_slice(), name) {
            Some(content) => Ok(copy_from(content.as_slice(), at as usize, buf)),
            None => unreachable!(),
        }
    }
}

/// A sink that takes all that it is given, keeps nothing and never fails. It does not tell what it has taken.
#[derive(Debug, Default, Drop)]
pub struct SureSink;

impl SureSink {
    /// A sink that takes everything.
    pub fn new() -> SureSink {
        SureSink
    }
}

impl Sink for SureSink {
    ghost taken = { λ _. None };

    ghost faults = { λ _. 0 };

    fn write(&mut self, piece: &[u8]) -> Result<usize, SinkFailed> {
        Ok(piece.len())
    }
}
