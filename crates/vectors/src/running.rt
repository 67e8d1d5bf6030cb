//! The top call over files in memory.
ghost use Rattle.std.specs.Prelude.{◌≡◌, Contains, IfOk, Some};
ghost use Rattle.opt_core.specs.Answer.{path_of, texts};
ghost use Rattle.io_edge.specs.Files.{names_of};

use crate::texts::STORE_SEVEN;
use io_edge::{NamedFile, SureInputs, SureSink};
use ir_core::{FileName, List};
use opt_core::opt_main;
use std::alloc::{AllocError, Global};
use std::process::Abort;
use std::test::Fail;

/// Inputs that hold one file.
fn one_file(alloc: Global, name: &str, text: Vec<u8>) -> Result<SureInputs, AllocError>
    ensures { IfOk result (λ inputs. Contains (names_of inputs) name.now) }
{
    let mut files = List::new(alloc);
    files.push(NamedFile {
        name: FileName::new(String::from_str(alloc, name)?),
        bytes: Some(List::from_vec(text)),
    })?;
    Ok(SureInputs::new(files))
}

fn opt_words(alloc: Global, name: &str) -> Result<Vec<String>, AllocError>
    ensures { IfOk result (λ words. path_of (texts words.items) ≡ Some name.now) }
{
    let mut words = Vec::new(alloc);
    words.push(String::from_str(alloc, "opt")?)?;
    words.push(String::from_str(alloc, name)?)?;
    Ok(words)
}

/// The status of `opt` on a file of this text.
fn status_of(alloc: Global, text: &[u8]) -> Result<u8, AllocError> {
    let words = opt_words(alloc, "a.ll")?;
    let mut inputs = one_file(alloc, "a.ll", Vec::from_slice(alloc, text)?)?;
    let (mut out, mut notes) = (SureSink::new(), SureSink::new());
    Ok(opt_main(alloc, words.as_slice(), &mut inputs, &mut out, &mut notes))
}

/// The first 100 bytes of a text.
fn front(text: &[u8]) -> &[u8] {
    if text.len() < 100 { text } else { &text[..100] }
}

#[test]
fn statuses(rt: HostRuntime) -> Result<(), Fail> {
    let kernel = STORE_SEVEN.as_bytes();
    for (text, status) in [(kernel, 0), (b"".as_slice(), 3), (front(kernel), 3)] {
        assert_eq!(rt; status_of(rt.alloc(), text)?, status);
    }
    Ok(())
}
