//! Reads what stands behind an instruction: alignments, attachments, and a call's groups and words.
#![tactic(auto)]

mod ends;

pub use ends::{
    expect_group, expect_text, is_at_attachment, plain_function_word, read_attached,
    read_attachment, read_next_alignment, read_tail, skip_attachments, skip_call_end,
};
