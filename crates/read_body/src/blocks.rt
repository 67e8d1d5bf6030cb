//! Blocks.
ghost use Rattle.std.specs.Prelude.{◌≡◌, ◌++◌, [], ◌∷◌, take, OnOk};
ghost use Rattle.std.specs.List.{filter};
ghost use Rattle.ir_core.specs.Instructions.{is_kept, is_dropped_name};
ghost use Rattle.read_forms.specs.Read.{Gives, head};
ghost use Rattle.read_body.specs.Body.{plain_goes, kept_at, body_at, label_goes, block_at};

use crate::forms::plain_form_ahead;
use crate::last::read_last;
use crate::plain::read_plain;
use ir_core::{Block, Inst, Kind, List, Name, Value};
use read_forms::{Ahead, Part, Reading, Repeated, read_label};
use std::alloc::{AllocError, Global};

/// The first 14 bytes.
fn front(name: &[u8]) -> &[u8]
    ensures { result.now ≡ take 14 name.now }
{
    if name.len() < 14 { name } else { &name[..14] }
}

/// Whether calls of a function of this name are dropped: `llvm.assume` and `llvm.lifetime.*`.
fn is_dropped_name(name: &[u8]) -> bool
    ensures { result ≡ is_dropped_name name.now }
{
    name == b"llvm.assume".as_slice() || front(name) == b"llvm.lifetime.".as_slice()
}

fn is_kept(inst: &Inst) -> bool
    ensures { result ≡ is_kept inst.now }
{
    match &inst.kind {
        Kind::Call {
            callee: Value::Global(name),
            ..
        } => !is_dropped_name(name.as_slice()),
        _ => true,
    }
}

fn is_at_plain(ahead: &Ahead) -> bool
    ensures { result ≡ plain_goes (head ahead.now) }
{
    plain_form_ahead(ahead).is_some()
}

fn push_kept(out: &mut List<Inst>, inst: Inst) -> Result<(), AllocError>
    ensures { OnOk result (out.new ≡ out.old ++ filter is_kept (inst ∷ [])) }
{
    if is_kept(&inst) {
        out.push(inst)?;
    }
    Ok(())
}

/// As many instructions as end no block, but for the calls that are dropped.
fn read_kept<'a>(alloc: Global, ahead: Ahead<'a>) -> Reading<'a, List<Inst>>
    ensures { Gives result (kept_at ahead.entry) }
{
    let mut out = List::new(alloc);
    let mut rest = ahead;
    while is_at_plain(&rest) {
        let (inst, after) = read_plain(alloc, rest)?;
        push_kept(&mut out, inst)?;
        rest = after;
    }
    Ok((out, rest))
}

/// The instructions of a block, whose name and line are given.
#[tactic(auto, unfolding(crate::specs::Body::body_at))]
pub fn read_body_of<'a>(
    alloc: Global,
    name: Name,
    line: u32,
    ahead: Ahead<'a>,
) -> Reading<'a, Block>
    ensures { Gives result (body_at (name, line) ahead.entry) }
{
    let (mut insts, rest) = read_kept(alloc, ahead)?;
    let (last, rest) = read_last(alloc, rest)?;
    insts.push(last)?;
    Ok((Block { name, insts, line }, rest))
}

/// A label, and the instructions to the end of the block.
#[tactic(auto, unfolding(crate::specs::Body::block_at))]
pub fn read_block<'a>(alloc: Global, ahead: Ahead<'a>) -> Reading<'a, Block>
    ensures { Gives result (block_at ahead.entry) }
{
    let ((name, line), rest) = read_label(alloc, ahead)?;
    read_body_of(alloc, name, line, rest)
}

/// Blocks with labels.
pub enum Blocks {}

impl Part for Blocks {
    type Item = Block;

    ghost reading = { block_at };

    fn read<'a>(alloc: Global, ahead: Ahead<'a>) -> Reading<'a, Block> {
        read_block(alloc, ahead)
    }
}

impl Repeated for Blocks {
    ghost goes = { label_goes };

    fn begins(ahead: &Ahead) -> bool {
        match ahead.first() {
            Some(token) => token.is_label(),
            None => false,
        }
    }
}
