//! Captured words, published in the capture area.
ghost use Rattle.std.specs.Prelude.{◌≡◌, ◌<◌};
ghost use Rattle.team_model.specs.Team.{published};
ghost use Rattle.captures.specs.Captured.{IsShared};
ghost use Rattle.captures.specs.Published.{IsArea, with_word};

use crate::gathered::{Captures, WORD_SIZE};
use mem_model::{BlockName, Cell, Memory, Ptr, Word};

/// Puts a word into the capture area, at a place among the words.
fn put(memory: &mut Memory, at: usize, word: Ptr)
    requires area { IsArea memory.old }
    requires at { at < 64 }
    requires shared { IsShared word }
    ensures { memory.new ≡ with_word memory.old at word }
{
    let place = Ptr::At(BlockName::Captures, WORD_SIZE * at as i64);
    if memory.write(&place, Cell::Ptr, Word::Ptr(word)).is_err() {
        unreachable!()
    }
}

/// Puts captured words into the capture area, one behind another from its beginning on. The area is a block of 512 bytes, and stays one.
pub fn publish(memory: &mut Memory, words: &Captures)
    requires { IsArea memory.old }
    ensures published { memory.new ≡ published 0 words.now memory.old }
    ensures area { IsArea memory.new }
{
    for at in 0..words.len() {
        if let Some(word) = words.get(at) {
            put(memory, at, word);
        }
    }
}
