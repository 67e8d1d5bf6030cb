//! A whole turn in memory: a file is read, and its text is written.
ghost use Rattle.std.specs.Prelude.{Contains, IfOk};
ghost use Rattle.io_edge.specs.Files.{names_of};

use crate::memory::{NamedFile, SureInputs, SureSink};
use crate::transfer::{read_file, write_all};
use ir_core::{FileName, List};
use std::alloc::{AllocError, Global};
use std::test::Fail;

// Inputs that hold one file.
pub fn one_file(alloc: Global, name: &str, text: Vec<u8>) -> Result<SureInputs, AllocError>
    ensures { IfOk result (λ inputs. Contains (names_of inputs) name.now) }
{
    let mut files = List::new(alloc);
    files.push(NamedFile {
        name: FileName::new(String::from_str(alloc, name)?),
        bytes: Some(List::from_vec(text)),
    })?;
    Ok(SureInputs::new(files))
}

// A text of this many bytes.
fn text_of(alloc: Global, size: usize) -> Result<Vec<u8>, AllocError> {
    vec![in alloc; b'A'; size]
}

#[test]
fn a_file_is_read_and_written(rt: HostRuntime) -> Result<(), Fail> {
    let alloc = rt.alloc();
    let mut inputs = one_file(alloc, "a.ll", text_of(alloc, 100_000)?)?;
    let bytes = read_file(alloc, &mut inputs, "a.ll", 200_000)?;
    assert_eq!(rt; bytes.len(), 100_000);
    write_all(&mut SureSink::new(), bytes.as_slice())?;
    Ok(())
}
