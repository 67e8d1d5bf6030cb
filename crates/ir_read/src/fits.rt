//! What a refused token is refused for: a construct by the token itself or by where it stands, and syntax where none fits.
ghost use Rattle.std.specs.Prelude.{◌≡◌, ◌≢◌, IfOk};
ghost use Rattle.ir_core.specs.Tokens as tokens;
ghost use Rattle.ir_core.specs.Numbers.{magnitude};
ghost use Rattle.ir_core.specs.EntryPoints.{is_among};
ghost use Rattle.ir_core.specs.TextRefusals.{IsWordAmong, NamesWideInteger, IsOpening, SpaceStands, Fits, IsConstruct, names_wide_integer, instruction_words};
ghost use Rattle.ir_read.specs.Probes.{Tells, words_seen, has_digit_above_zero};

use crate::stopped::Stopped;
use ir_core::{Construct, OutOfMemory, is_digits};
use ir_lex::TokenKind;
use read_forms::Lexeme;

/// Types and instructions of floats.
const FLOAT_WORDS: [&[u8]; 20] = [
    b"half",
    b"bfloat",
    b"float",
    b"double",
    b"x86_fp80",
    b"fp128",
    b"ppc_fp128",
    b"fneg",
    b"fadd",
    b"fsub",
    b"fmul",
    b"fdiv",
    b"frem",
    b"fcmp",
    b"fptrunc",
    b"fpext",
    b"fptoui",
    b"fptosi",
    b"uitofp",
    b"sitofp",
];
/// Address spaces.
const SPACE_WORDS: [&[u8]; 3] = [b"addrspace", b"addrspacecast", b"thread_local"];
/// Values that are not defined.
const UNDEF_WORDS: [&[u8]; 2] = [b"undef", b"poison"];
/// Values with parts.
const AGGREGATE_WORDS: [&[u8]; 5] = [
    b"extractvalue",
    b"insertvalue",
    b"cmpxchg",
    b"byval",
    b"sret",
];
/// Calls that can unwind.
const INVOKE_WORDS: [&[u8]; 4] = [b"invoke", b"callbr", b"landingpad", b"resume"];
/// The words that begin an instruction or name its operation in LLVM 16.
const INSTRUCTION_WORDS: [&[u8]; 68] = [
    b"ret",
    b"br",
    b"switch",
    b"indirectbr",
    b"invoke",
    b"callbr",
    b"resume",
    b"catchswitch",
    b"catchret",
    b"cleanupret",
    b"unreachable",
    b"fneg",
    b"add",
    b"fadd",
    b"sub",
    b"fsub",
    b"mul",
    b"fmul",
    b"udiv",
    b"sdiv",
    b"fdiv",
    b"urem",
    b"srem",
    b"frem",
    b"shl",
    b"lshr",
    b"ashr",
    b"and",
    b"or",
    b"xor",
    b"extractelement",
    b"insertelement",
    b"shufflevector",
    b"extractvalue",
    b"insertvalue",
    b"alloca",
    b"load",
    b"store",
    b"fence",
    b"cmpxchg",
    b"atomicrmw",
    b"getelementptr",
    b"trunc",
    b"zext",
    b"sext",
    b"fptrunc",
    b"fpext",
    b"fptoui",
    b"fptosi",
    b"uitofp",
    b"sitofp",
    b"ptrtoint",
    b"inttoptr",
    b"bitcast",
    b"addrspacecast",
    b"icmp",
    b"fcmp",
    b"phi",
    b"select",
    b"freeze",
    b"call",
    b"tail",
    b"musttail",
    b"notail",
    b"va_arg",
    b"landingpad",
    b"catchpad",
    b"cleanuppad",
];

/// The types of integers.
const INTEGER_WORDS: [&[u8]; 5] = [b"i1", b"i8", b"i16", b"i32", b"i64"];

/// The constructs that a token can be refused for beside syntax, in the order of their numbers.
const CONSTRUCTS: [Construct; 12] = [
    Construct::FloatType,
    Construct::VectorType,
    Construct::WideInteger,
    Construct::AddressSpace,
    Construct::UndefValue,
    Construct::AggregateValue,
    Construct::VolatileAccess,
    Construct::InlineAsm,
    Construct::Invoke,
    Construct::MetadataOperand,
    Construct::Limit,
    Construct::ConstantExpression,
];

/// Whether a word is one of these.
fn is_among(words: &[&[u8]], word: &[u8]) -> bool
    ensures { result ≡ is_among (words_seen words.now) word.now }
{
    for candidate in words {
        if word == *candidate {
            return true;
        }
    }
    false
}

fn is_word_among(token: &Lexeme, words: &[&[u8]]) -> bool
    ensures { Tells (IsWordAmong (words_seen words.now) token.now) result }
{
    token.is_word() && is_among(words, token.bytes())
}

fn is_float(token: &Lexeme) -> bool
    ensures { Tells (token.now.kind ≡ tokens.Float) result }
{
    matches!(token.kind(), TokenKind::Float)
}

fn is_meta(token: &Lexeme) -> bool
    ensures { Tells (token.now.kind ≡ tokens.Meta) result }
{
    matches!(token.kind(), TokenKind::Meta)
}

fn is_past(token: &Lexeme) -> bool
    ensures { Tells (token.now.kind ≡ tokens.Past) result }
{
    matches!(token.kind(), TokenKind::Past)
}

fn is_opening(token: &Lexeme) -> bool
    ensures { Tells (IsOpening token.now) result }
{
    token.is_mark(b'[') || token.is_mark(b'{')
}

fn is_instruction(token: &Lexeme) -> bool
    ensures { Tells (IsWordAmong instruction_words token.now) result }
{
    is_word_among(token, &INSTRUCTION_WORDS)
}

fn names_wide_integer(word: &[u8]) -> bool
    ensures { result ≡ names_wide_integer word.now }
{
    match word {
        [b'i', digits @ ..] => is_digits(digits) && !is_among(&INTEGER_WORDS, word),
        _ => false,
    }
}

fn is_wide_integer(token: &Lexeme) -> bool
    ensures { Tells (NamesWideInteger token.now) result }
{
    token.is_word() && names_wide_integer(token.bytes())
}

fn has_digit_above_zero(digits: &[u8]) -> bool
    ensures { result ≡ has_digit_above_zero digits.now }
{
    for digit in digits {
        if *digit > b'0' {
            return true;
        }
    }
    false
}

/// Whether digits, with a `-` before them or not, stand for another number than 0.
#[tactic(auto, using(crate::proofs::Digits::tells_nonzero))]
fn is_not_zero(digits: &[u8]) -> bool
    ensures { Tells (magnitude digits.now ≢ 0) result }
{
    has_digit_above_zero(digits)
}

fn is_number(token: &Lexeme) -> bool
    ensures { Tells (token.now.kind ≡ tokens.Number) result }
{
    matches!(token.kind(), TokenKind::Number)
}

impl<'a> Stopped<'a> {
    fn is_other_space(&self) -> Result<bool, OutOfMemory>
        ensures { IfOk result (Tells ((self.now.token.kind ≡ tokens.Number) × (magnitude self.now.token.bytes ≢ 0) × SpaceStands self.now.front)) }
    {
        Ok(is_number(&self.token) && is_not_zero(self.token.bytes()) && self.space_stands()?)
    }

    fn fits(&self, construct: Construct) -> Result<bool, OutOfMemory>
        ensures { IfOk result (Tells (Fits self.now.front self.now.token construct)) }
    {
        let token = &self.token;
        match construct {
            Construct::FloatType => Ok(is_float(token) || is_word_among(token, &FLOAT_WORDS)),
            Construct::VectorType => Ok(token.is_mark(b'<') && self.type_stands()?),
            Construct::WideInteger => Ok(is_wide_integer(token)),
            Construct::AddressSpace => Ok(
                is_word_among(token, &SPACE_WORDS) || self.is_other_space()?,
            ),
            Construct::UndefValue => Ok(is_word_among(token, &UNDEF_WORDS)),
            Construct::AggregateValue => Ok(is_word_among(token, &AGGREGATE_WORDS)),
            Construct::VolatileAccess => Ok(is_word_among(token, &[b"volatile"])),
            Construct::InlineAsm => Ok(is_word_among(token, &[b"asm"])),
            Construct::Invoke => Ok(is_word_among(token, &INVOKE_WORDS)),
            Construct::MetadataOperand => Ok(
                is_word_among(token, &[b"metadata"]) || is_meta(token) && self.operand_stands()?,
            ),
            Construct::Limit => Ok(
                is_past(token) || is_opening(token) && (self.type_stands()? || self.init_stands()?),
            ),
            Construct::ConstantExpression => Ok(is_instruction(token) && self.value_stands()?),
            Construct::Syntax
            | Construct::DuplicateName
            | Construct::MissingName
            | Construct::TypeMismatch
            | Construct::IndirectCall
            | Construct::UnknownCallee
            | Construct::PointerOrder
            | Construct::Signature
            | Construct::KernelShape
            | Construct::SpmdInput
            | Construct::WrapperShape
            | Construct::ClauseArgument
            | Construct::NestedParallel
            | Construct::ModeIntrinsic
            | Construct::NotBuilt => Ok(false),
        }
    }

    /// What the token is refused for.
    pub(crate) fn construct(&self) -> Result<Construct, OutOfMemory>
        ensures { IfOk result (IsConstruct self.now.front self.now.token) }
    {
        for construct in CONSTRUCTS {
            if self.fits(construct)? {
                return Ok(construct);
            }
        }
        Ok(Construct::Syntax)
    }
}
