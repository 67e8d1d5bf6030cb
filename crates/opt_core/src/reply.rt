//! Replies: a status, and what is to be written on the output and on the notes.
ghost use Rattle.std.specs.Prelude.{◌≡◌, ◌⊎◌, ◌+◌, ◌++◌, [], ◌<◌, ◌≤◌, codes, None, IfOk, IfErr};
ghost use Rattle.ir_core.specs.Text.{Text};
ghost use Rattle.ir_core.specs.Tokens.{text_limit};
ghost use Rattle.ir_core.specs.MachineOff.{machine_off, Remarks};
ghost use Rattle.ir_core.specs.Notes.{refusal_text, remarks_text};
ghost use Rattle.shapes.specs.Refusals.{unbuilt};
ghost use Rattle.io_edge.specs.Outside.{Rose, Grows, GrowsByFront};
ghost use Rattle.opt_core.specs.Answer.{Accepts, IsUnbuilt, IsNotAccepted, IsTextReply, IsNote, IsBadWords, IsWritten};

use crate::optimiser::optimise;
use crate::remarks::print_remarks;
use checked_modules::Checked;
use io_edge::{ReadFault, Sink, SinkFailed, write_all};
use ir_check::check;
use ir_core::{List, Or, OutOfMemory, Refusal};
use ir_print::print_module;
use ir_read::read_module;
use ir_shapes::unbuilt;
use std::alloc::Global;

/// A status, and what is to be written with it.
#[derive(Drop)]
pub struct Reply {
    pub status: u8,
    pub out: List<u8>,
    pub notes: List<u8>,
}

/// A reply that is a line on the notes alone.
pub fn note_reply(alloc: Global, status: u8, line: List<u8>) -> Reply
    ensures { IsNote status line result.status result.out result.notes }
{
    Reply {
        status,
        out: List::new(alloc),
        notes: line,
    }
}

/// The reply to words that aren't read.
pub fn bad_words(alloc: Global) -> Result<Reply, ReadFault>
    ensures reply { IfOk result (λ r. IsBadWords r.status r.out r.notes) }
    ensures memory { IfErr result (λ e. e ≡ ReadFault.Memory) }
{
    let line = List::from_slice(alloc, b"ompopt: bad command line\n")?;
    Ok(note_reply(alloc, 2, line))
}

fn refusal_line(alloc: Global, refusal: &Refusal) -> Result<List<u8>, OutOfMemory>
    ensures { IfOk result (λ line. line ≡ refusal_text refusal.now ++ codes "\n") }
{
    let mut buffer = [0; 128];
    let end = refusal.print(&mut buffer);
    let mut line = Vec::from_slice(alloc, &buffer[..end])?;
    line.extend_from_slice(b"\n")?;
    Ok(List::from_vec(line))
}

/// The reply to a module that is refused.
pub fn refused(alloc: Global, refusal: &Refusal) -> Result<Reply, OutOfMemory>
    ensures { IfOk result (λ r. IsNote 3 (refusal_text refusal.now ++ codes "\n") r.status r.out r.notes) }
{
    Ok(note_reply(alloc, 3, refusal_line(alloc, refusal)?))
}

fn optimised(alloc: Global, m: &Checked) -> Result<Reply, OutOfMemory>
    ensures { IfOk result (λ r. (r.status ≡ 0) × (r.out ≡ Text (machine_off m.now)) × (r.notes ≡ remarks_text (Remarks m.now))) }
{
    let optimised = optimise(alloc, m)?;
    Ok(Reply {
        status: 0,
        out: print_module(alloc, optimised.module.module())?,
        notes: print_remarks(alloc, optimised.remarks.as_slice())?,
    })
}

/// How many bytes of a module's text are read: those that a text may have, and one more, so that a longer one shows.
#[tactic(auto, unfolding(ir_core::specs::Tokens::text_limit))]
pub fn text_read_limit() -> usize
    ensures value { result ≡ text_limit + 1 }
    ensures near { result ≤ 33554433 }
{
    4_194_305
}

/// The module, where each entry point that it calls can be run.
fn built(m: Checked) -> Result<Checked, Or<Refusal>>
    ensures same { IfOk result (λ c. (c ≡ m) × (unbuilt m ≡ None)) }
    ensures refused { IfErr result (λ e. IsUnbuilt m e) }
{
    match unbuilt(m.module()) {
        Some(call) => Err(Or::Refused(call)),
        None => Ok(m),
    }
}

/// The module that the text spells, where nothing is refused of it and each entry point that it calls can be run.
///
/// # Errors
///
/// The least refusal of the first phase that refuses something: of the text, of its names and types, of its shapes; where none does, the
/// first call of an entry point that can't be run yet.
pub fn read_checked(alloc: Global, text: &[u8]) -> Result<Checked, Or<Refusal>>
    ensures taken { IfOk result (λ m. Accepts text.now m) }
    ensures refused { IfErr result (λ e. IsNotAccepted text.now e) }
{
    let m = read_module(alloc, text)?;
    let checked = check(alloc, m)?;
    built(checked)
}

/// The reply to the text of a module: the optimised module with the remarks on it, or the refusal.
pub fn reply_to_text(alloc: Global, text: &[u8]) -> Result<Reply, OutOfMemory>
    ensures reply { IfOk result (λ r. IsTextReply text.now r.status r.out r.notes) }
    ensures own { IfOk result (λ r. r.status < 5) }
{
    match read_checked(alloc, text) {
        Ok(m) => optimised(alloc, &m),
        Err(Or::Refused(refusal)) => refused(alloc, &refusal),
        Err(Or::Memory) => Err(OutOfMemory),
    }
}

/// Writes a note, and gives the status where it was written whole, else 6.
pub fn note_of<N: Sink>(notes: &mut N, note: &[u8], status: u8) -> u8
    ensures written { ((result ≡ status) × Grows (N.taken notes.old) (N.taken notes.new) note.now) ⊎ ((result ≡ 6) × GrowsByFront (N.taken notes.old) (N.taken notes.new) note.now × Rose (N.faults notes.old) (N.faults notes.new)) }
{
    match write_all(notes, note) {
        Ok(()) => status,
        Err(SinkFailed) => 6,
    }
}

/// Writes a reply, first its output and then its notes, and gives its status where all was written, else 6.
pub fn write_reply<K: Sink, N: Sink>(out: &mut K, notes: &mut N, reply: &Reply) -> u8
    ensures written { IsWritten result reply.now.status reply.now.out reply.now.notes (K.taken out.old) (K.taken out.new) (N.taken notes.old) (N.taken notes.new) }
    ensures sink { (result ≡ reply.now.status) ⊎ ((result ≡ 6) × (Rose (K.faults out.old) (K.faults out.new) ⊎ Rose (N.faults notes.old) (N.faults notes.new))) }
{
    match write_all(out, reply.out.as_slice()) {
        Ok(()) => note_of(notes, reply.notes.as_slice(), reply.status),
        Err(SinkFailed) => 6,
    }
}
