//! Whole files from inputs, and whole texts into sinks.
ghost use Rattle.std.specs.Prelude.{◌≡◌, ◌≢◌, ℕ, List, ◌+◌, ◌<◌, ◌≤◌, length, take, vec_len, IfOk, IfErr, IfSome, OnErr, OnOk};
ghost use Rattle.io_edge.specs.Outside.{Grows, GrowsByFront, HasCause, ReadsMore, Rose};

use crate::outside::{InputFailed, Inputs, Sink, SinkFailed};
use ir_core::OutOfMemory;
use std::alloc::{AllocError, Global};
use thiserror::Error;

/// Why a file was not read: its input failed, or there was not enough memory.
#[derive(Debug, Drop, Error)]
pub enum ReadFault {
    /// The input failed. It comes only where the name's count of faults rose.
    #[error("an input failed")]
    Failed,
    /// There was not enough memory for the bytes.
    #[error("out of memory")]
    Memory,
}

impl From<InputFailed> for ReadFault {
    ghost use Rattle.io_edge.specs.declared.transfer.ReadFault.TheVariants.{Failed};

    ghost from_gives = { λ _ fault. fault ≡ Failed };

    fn from(_: InputFailed) -> ReadFault {
        ReadFault::Failed
    }
}

impl From<AllocError> for ReadFault {
    ghost use Rattle.io_edge.specs.declared.transfer.ReadFault.TheVariants.{Memory};

    ghost from_gives = { λ _ fault. fault ≡ Memory };

    fn from(_: AllocError) -> ReadFault {
        ReadFault::Memory
    }
}

impl From<OutOfMemory> for ReadFault {
    ghost use Rattle.io_edge.specs.declared.transfer.ReadFault.TheVariants.{Memory};

    ghost from_gives = { λ _ fault. fault ≡ Memory };

    fn from(_: OutOfMemory) -> ReadFault {
        ReadFault::Memory
    }
}

// The most bytes that are read at once.
const TURN: usize = 65_536;

// Makes room for another turn, where the first bytes fill the buffer.
fn make_room(buffer: &mut Vec<u8>, filled: usize, limit: usize) -> Result<(), AllocError>
    requires filled { filled ≤ vec_len buffer.old }
    requires below { filled < limit }
    requires near { limit ≤ 33554433 }
    requires short { vec_len buffer.old ≤ limit }
    ensures room { OnOk result (filled < vec_len buffer.new) }
    ensures short { OnOk result (vec_len buffer.new ≤ limit) }
    ensures front { OnOk result (take filled buffer.new.items ≡ take filled buffer.old.items) }
{
    if filled < buffer.len() {
        return Ok(());
    }
    buffer.resize(limit.min(filled + TURN), 0)
}

// Reads once behind the bytes that fill the buffer's front, and answers how many bytes it read.
fn read_more<I: Inputs>(
    inputs: &mut I,
    name: &str,
    buffer: &mut Vec<u8>,
    filled: usize,
    limit: usize,
) -> Result<usize, ReadFault>
    requires served { I.served inputs.old name.now }
    requires filled { filled ≤ vec_len buffer.old }
    requires below { filled < limit }
    requires near { limit ≤ 33554433 }
    requires short { vec_len buffer.old ≤ limit }
    ensures within { IfOk result (λ count. filled + count ≤ vec_len buffer.new) }
    ensures short { OnOk result (vec_len buffer.new ≤ limit) }
    ensures bytes { IfOk result (λ count. ReadsMore (I.held inputs.old name.now) buffer.old.items filled buffer.new.items count) }
    ensures serves { (other : List ℕ) → I.served inputs.old other → I.served inputs.new other }
    ensures holds { (other : List ℕ) → I.held inputs.new other ≡ I.held inputs.old other }
    ensures others { (other : List ℕ) → other ≢ name.now → I.faults inputs.new other ≡ I.faults inputs.old other }
    ensures cause { IfErr result (λ fault. fault ≡ ReadFault.Failed → Rose (I.faults inputs.old name.now) (I.faults inputs.new name.now)) }
    ensures later { I.faults inputs.old name.now ≤ I.faults inputs.new name.now }
{
    make_room(buffer, filled, limit)?;
    Ok(inputs.read(name, filled as u64, &mut buffer[filled..])?)
}

/// Reads the file of this name from its start to its end, but no more than so many of its first bytes (at most 33,554,433).
/// `Failed` comes only where the name's count of faults rose.
pub fn read_file<I: Inputs>(
    alloc: Global,
    inputs: &mut I,
    name: &str,
    limit: usize,
) -> Result<Vec<u8>, ReadFault>
    requires served { I.served inputs.old name.now }
    requires near { limit ≤ 33554433 }
    ensures bytes { IfOk result (λ bytes. IfSome (I.held inputs.old name.now) (λ content. bytes.items ≡ take limit content)) }
    ensures within { IfOk result (λ bytes. vec_len bytes ≤ limit) }
    ensures cause { IfErr result (λ fault. fault ≡ ReadFault.Failed → Rose (I.faults inputs.old name.now) (I.faults inputs.new name.now)) }
    ensures later { I.faults inputs.old name.now ≤ I.faults inputs.new name.now }
    ensures serves { (other : List ℕ) → I.served inputs.old other → I.served inputs.new other }
    ensures holds { (other : List ℕ) → I.held inputs.new other ≡ I.held inputs.old other }
    ensures others { (other : List ℕ) → other ≢ name.now → I.faults inputs.new other ≡ I.faults inputs.old other }
{
    let mut bytes = Vec::new(alloc);
    let mut filled = 0;
    while filled < limit {
        let count = read_more(inputs, name, &mut bytes, filled, limit)?;
        if count == 0 {
            break;
        }
        filled += count;
    }
    bytes.truncate(filled);
    Ok(bytes)
}

/// Writes all of the bytes. It fails only where the sink's count of faults rose, and the sink has then taken some of
/// them, from their front on.
pub fn write_all<S: Sink>(sink: &mut S, bytes: &[u8]) -> Result<(), SinkFailed>
    ensures ok { OnOk result (Grows (S.taken sink.old) (S.taken sink.new) bytes.now) }
    ensures err { OnErr result (GrowsByFront (S.taken sink.old) (S.taken sink.new) bytes.now) }
    ensures cause { HasCause (S.faults sink.old) (S.faults sink.new) result }
{
    let mut written = 0;
    while written < bytes.len() {
        written += sink.write(&bytes[written..])?;
    }
    Ok(())
}
