//! The top call of `opt`: what the program answers to its words, over the inputs and into the sinks.
ghost use Rattle.std.specs.Prelude.{◌≡◌, ◌⊎◌, IfOk, ◌<◌, IfErr, IfSome, MatchOption, None, Some};
ghost use Rattle.io_edge.specs.Outside.{Rose};
ghost use Rattle.opt_core.specs.Answer.{texts, path_of, IsAnswer, IsReply, IsTold, HasRisen};

use crate::reply::{Reply, bad_words, note_of, reply_to_text, text_read_limit, write_reply};
use io_edge::{Inputs, ReadFault, Sink, read_file};
use ir_core::OutOfMemory;
use std::alloc::Global;

/// The file that the words name, where they are `opt` and one word.
fn path_in(words: &[String]) -> Option<&str>
    ensures { MatchOption result (path_of (texts words.now) ≡ None) (λ p. path_of (texts words.now) ≡ Some p.now) }
{
    match words {
        [command, path] => {
            if command.as_str() == "opt" {
                Some(path.as_str())
            } else {
                None
            }
        }
        _ => None,
    }
}

/// The reply to the words.
fn reply_to_words<I: Inputs>(
    alloc: Global,
    words: &[String],
    inputs: &mut I,
) -> Result<Reply, ReadFault>
    requires { IfSome (path_of (texts words.now)) (λ path. I.served inputs.old path) }
    ensures reply { IfOk result (λ r. IsAnswer (path_of (texts words.now)) (I.held inputs.old) r.status r.out r.notes) }
    ensures own { IfOk result (λ r. r.status < 5) }
    ensures cause { IfErr result (λ e. e ≡ ReadFault.Failed → HasRisen (path_of (texts words.now)) (I.faults inputs.old) (I.faults inputs.new)) }
{
    let Some(path) = path_in(words) else {
        return bad_words(alloc);
    };
    let text = read_file(alloc, inputs, path, text_read_limit())?;
    match reply_to_text(alloc, text.as_slice()) {
        Ok(reply) => Ok(reply),
        Err(OutOfMemory) => Err(ReadFault::Memory),
    }
}

/// Answers the words of a command line, `opt` and the name of a file, over the inputs and into the sinks.
/// It gives the status:
///
/// - 0: the optimised module is on the output, and the remarks on it are on the notes;
/// - 2: the words aren't read;
/// - 3: the text is refused;
/// - 5: the file's input failed, which comes only where its count of faults rose;
/// - 6: a sink failed, which comes only where its count of faults rose;
/// - 7: there wasn't enough memory.
///
/// At each status but 0 and 6 the notes have the status's line and the output has nothing.
pub fn opt_main<I: Inputs, K: Sink, N: Sink>(
    alloc: Global,
    words: &[String],
    inputs: &mut I,
    out: &mut K,
    notes: &mut N,
) -> u8
    requires { IfSome (path_of (texts words.now)) (λ path. I.served inputs.old path) }
    ensures input { result ≡ 5 → HasRisen (path_of (texts words.now)) (I.faults inputs.old) (I.faults inputs.new) }
    ensures sink { result ≡ 6 → Rose (K.faults out.old) (K.faults out.new) ⊎ Rose (N.faults notes.old) (N.faults notes.new) }
    ensures told { IsTold (IsReply (path_of (texts words.now)) (I.held inputs.old)) (K.taken out.old) (K.taken out.new) (N.taken notes.old) (N.taken notes.new) result }
{
    match reply_to_words(alloc, words, inputs) {
        Ok(reply) => write_reply(out, notes, &reply),
        Err(ReadFault::Failed) => note_of(notes, b"ompopt: input failed\n", 5),
        Err(ReadFault::Memory) => note_of(notes, b"ompopt: out of memory\n", 7),
    }
}
