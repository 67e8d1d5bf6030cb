//! Where a text is refused. What can stand at a place is told by reading again, with another token in the refused one's place.
ghost use Rattle.std.specs.Prelude.{◌≡◌, ◌<◌, ◌≤◌, ◌+◌, ◌++◌, ◌^◌, ℕ, List as Listed, [], ◌∷◌, length, take, drop, map, IfOk};
ghost use Rattle.ir_core.specs.Tokens.{lexeme_of};
ghost use Rattle.ir_core.specs.Tokens.{lexemes};
ghost use Rattle.ir_core.specs.TextRefusals.{Begins, TypeStands, InitStands, ValueStands, OperandStands, SpaceStands};
ghost use Rattle.ir_lex.specs.Seen.{kind_seen, token_seen, tokens_seen};
ghost use Rattle.ir_read.specs.Probes.{probe_bytes, probe_seen, Tells, AreWithin};

use ir_core::{List, Or, OutOfMemory};
use ir_lex::{Token, TokenKind};
use read_forms::{Ahead, Lexeme};
use read_items::read_tokens;
use std::alloc::{AllocError, Global};
use std::marker::Model;

/// A token that is tried at a place.
#[derive(Clone, Copy)]
pub(crate) enum Probe {
    /// `ptr`, which stands where a type does.
    Pointer,
    /// `null`, which stands where the value of an operand or an initializer does.
    Null,
    /// `zeroinitializer`, which stands where an initializer does.
    Zeros,
    /// `0`.
    Zero,
    /// `1`.
    One,
}

/// The bytes of all probes.
const PROBES: &[u8] = b"ptr null zeroinitializer 0 1";

impl Probe {
    /// What token the probe is, where it begins in the bytes of all probes, and how long it is.
    fn part(self) -> (TokenKind, u32, u32)
        ensures seen { record { kind = kind_seen result.0; bytes = take result.2 (drop result.1 probe_bytes); line = 1 } ≡ probe_seen self }
        ensures within { result.1 + result.2 ≤ 28 }
    {
        match self {
            Probe::Pointer => (TokenKind::Word, 0, 3),
            Probe::Null => (TokenKind::Word, 4, 4),
            Probe::Zeros => (TokenKind::Word, 9, 15),
            Probe::Zero => (TokenKind::Number, 25, 1),
            Probe::One => (TokenKind::Number, 27, 1),
        }
    }

    /// The probe as a token of a text behind which the probes' bytes begin at `base`.
    fn token(self, base: u32) -> Token
        requires { base < 2 ^ 31 }
        ensures { (text : Listed ℕ) → length text ≡ base → lexeme_of (text ++ probe_bytes) (token_seen result) ≡ probe_seen self }
    {
        let (kind, start, size) = self.part();
        Token {
            kind,
            start: base + start,
            end: base + start + size,
            line: 1,
        }
    }
}

/// A refused token, and the tokens before it. Contracts see it as a place of the grammar.
#[derive(Drop)]
pub(crate) struct Stopped<'a> {
    alloc: Global,
    /// The bytes of the text, and behind them those of the probes.
    text: Vec<u8>,
    base: u32,
    before: &'a [Token],
    pub(crate) token: Lexeme<'a>,
}

impl<'a> Model for Stopped<'a> {
    ghost use Rattle.ir_read.specs.Probes.{Place, HasProbes};
    ghost use Rattle.ir_core.specs.Tokens.{lexemes};
    ghost use Rattle.ir_lex.specs.Seen.{tokens_seen};

    ghost Value = { Place };

    ghost view = { λ s. record { front = lexemes s.text.items (tokens_seen s.before.now); token = s.token } };

    ghost invariant = { HasProbes };
}

/// The bytes of a text, and behind them those of the probes.
fn with_probes(alloc: Global, text: &[u8]) -> Result<Vec<u8>, AllocError>
    ensures { IfOk result (λ bytes. bytes.items ≡ text.now ++ probe_bytes) }
{
    let mut bytes = Vec::from_slice(alloc, text)?;
    bytes.extend_from_slice(PROBES)?;
    Ok(bytes)
}

/// Whether some text begins with the tokens.
#[tactic(auto, using(crate::proofs::Begun::spelled_begins, crate::proofs::Begun::refused_begins))]
fn some_text_begins(alloc: Global, ahead: Ahead) -> Result<bool, OutOfMemory>
    ensures { IfOk result (Tells (Begins ahead.entry)) }
{
    let _module = match read_tokens(alloc, ahead) {
        Ok(module) => module,
        Err(Or::Refused(left)) => return Ok(left == 0),
        Err(Or::Memory) => return Err(OutOfMemory),
    };
    Ok(true)
}

impl<'a> Stopped<'a> {
    /// The place of a token behind others of a text.
    #[tactic(auto, using(crate::proofs::Tried::lexemes_longer))]
    pub(crate) fn new(
        alloc: Global,
        text: &[u8],
        before: &'a [Token],
        token: Lexeme<'a>,
    ) -> Result<Stopped<'a>, OutOfMemory>
        requires short { length text.now < 2 ^ 31 }
        requires within { AreWithin text.now before.now }
        ensures { IfOk result (λ s. (s.front ≡ lexemes text.now (tokens_seen before.now)) × (s.token ≡ token.entry)) }
    {
        Ok(Stopped {
            alloc,
            text: with_probes(alloc, text)?,
            base: text.len() as u32,
            before,
            token,
        })
    }

    /// Whether some text begins with the tokens before the place and then these.
    fn begins(&self, probes: &[Probe]) -> Result<bool, OutOfMemory>
        ensures { IfOk result (Tells (Begins (self.now.front ++ map probe_seen probes.now))) }
    {
        let mut tokens = List::from_slice(self.alloc, self.before)?;
        for probe in probes {
            tokens.push(probe.token(self.base))?;
        }
        some_text_begins(
            self.alloc,
            Ahead::new(self.text.as_slice(), tokens.as_slice()),
        )
    }

    /// Whether a type can stand at the place.
    pub(crate) fn type_stands(&self) -> Result<bool, OutOfMemory>
        ensures { IfOk result (Tells (TypeStands self.now.front)) }
    {
        self.begins(&[Probe::Pointer])
    }

    /// Whether an initializer can stand at the place.
    pub(crate) fn init_stands(&self) -> Result<bool, OutOfMemory>
        ensures { IfOk result (Tells (InitStands self.now.front)) }
    {
        self.begins(&[Probe::Zeros])
    }

    /// Whether the value of an operand can stand at the place.
    pub(crate) fn value_stands(&self) -> Result<bool, OutOfMemory>
        ensures { IfOk result (Tells (ValueStands self.now.front)) }
    {
        Ok(self.begins(&[Probe::Null])? && !self.init_stands()?)
    }

    /// Whether the value of an operand can stand behind a pointer type at the place.
    #[tactic(auto, using(crate::proofs::Begun::pointer_operand))]
    fn pointer_operand_stands(&self) -> Result<bool, OutOfMemory>
        ensures { IfOk result (Tells (ValueStands (self.now.front ++ probe_seen Probe.Pointer ∷ []))) }
    {
        Ok(
            self.begins(&[Probe::Pointer, Probe::Null])?
                && !self.begins(&[Probe::Pointer, Probe::Zeros])?,
        )
    }

    /// Whether an operand can stand at the place, or its value.
    #[tactic(auto, using(crate::proofs::Begun::either_operand))]
    pub(crate) fn operand_stands(&self) -> Result<bool, OutOfMemory>
        ensures { IfOk result (Tells (OperandStands self.now.front)) }
    {
        Ok(self.pointer_operand_stands()? || self.value_stands()?)
    }

    /// Whether the number of an address space can stand at the place.
    pub(crate) fn space_stands(&self) -> Result<bool, OutOfMemory>
        ensures { IfOk result (Tells (SpaceStands self.now.front)) }
    {
        Ok(self.begins(&[Probe::Zero])? && !self.begins(&[Probe::One])?)
    }
}
