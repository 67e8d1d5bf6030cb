//! Why texts are refused.
use crate::texts::{BEFORE_SEVEN, BEHIND_SEVEN};
use ir_core::{Or, Refusal};
use opt_core::read_checked;
use std::alloc::{AllocError, Global};

/// The kernel that stores 7, with another line in place of its line 7.
pub(crate) fn with_line(alloc: Global, line: &str) -> Result<Vec<u8>, AllocError> {
    let mut text = Vec::from_slice(alloc, BEFORE_SEVEN.as_bytes())?;
    text.extend_from_slice(line.as_bytes())?;
    text.extend_from_slice(BEHIND_SEVEN.as_bytes())?;
    Ok(text)
}

/// Why the text is refused.
pub(crate) fn refusal_of(alloc: Global, text: &[u8]) -> Result<Option<Refusal>, AllocError> {
    match read_checked(alloc, text) {
        Ok(_) => Ok(None),
        Err(Or::Refused(refusal)) => Ok(Some(refusal)),
        Err(Or::Memory) => Err(AllocError),
    }
}

/// Whether the text is refused with this line.
pub(crate) fn is_refused_so(alloc: Global, text: &[u8], want: &str) -> Result<bool, AllocError> {
    let mut buffer = [0; 128];
    match refusal_of(alloc, text)? {
        Some(refusal) => {
            let end = refusal.print(&mut buffer);
            Ok(&buffer[..end] == want.as_bytes())
        }
        None => Ok(false),
    }
}
