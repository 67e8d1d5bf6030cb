//! Functions.
ghost use Rattle.std.specs.Prelude.{◌≡◌, ◌+◌, ◌<◌, ◌∷◌, [], ◌^◌, decimal, length, IfOk, MatchOption};
ghost use Rattle.std.specs.List.{filter};
ghost use Rattle.ir_core.specs.Language.{name_or, params_behind, next_number};
ghost use Rattle.ir_core.specs.Text.{is_digits};
ghost use Rattle.read_forms.specs.Read.{Gives, GivesAs, head};
ghost use Rattle.read_body.specs.Body.{label_goes};
ghost use Rattle.read_items.specs.Seen.{heading_seen};
ghost use Rattle.read_items.specs.Functions.{local_goes, param_at, param_type_at, heading_at, unlabelled_at, first_block_at, blocks_at, definition_at, declaration_at};
ghost use Rattle.read_items.specs.Numbered.{numerals, names_of};

use crate::function_words::read_groups;
use crate::words::read_kept_words;
use ir_core::{Block, Copies, Function, List, Name, OutOfMemory, Param, Ty, is_digits};
use itoa::Buffer;
use read_body::{Blocks, read_block, read_body_of};
use read_forms::{
    Ahead, Part, Reading, expect_mark, expect_word, read_global, read_list, read_local, read_many,
    read_result_type, read_type, skip_attributes,
};
use std::alloc::{AllocError, Global};

/// The type of a parameter, and its name where it has one.
type Unnumbered = (Ty, Option<Name>);

fn is_at_local(ahead: &Ahead) -> bool
    ensures { result ≡ local_goes (head ahead.now) }
{
    match ahead.first() {
        Some(token) => token.is_local(),
        None => false,
    }
}

/// `T %N`, where the name can be missing.
#[tactic(auto, unfolding(crate::specs::Functions::param_at, crate::specs::Functions::some_local_at))]
fn read_param<'a>(alloc: Global, ahead: Ahead<'a>) -> Reading<'a, Unnumbered>
    ensures { Gives result (param_at ahead.entry) }
{
    let (_, rest) = skip_attributes(alloc, ahead)?;
    let (ty, rest) = read_type(alloc, rest)?;
    let (_, rest) = skip_attributes(alloc, rest)?;
    if is_at_local(&rest) {
        let (name, rest) = read_local(alloc, rest)?;
        return Ok(((ty, Some(name)), rest));
    }
    Ok(((ty, None), rest))
}

/// `T`.
#[tactic(auto, unfolding(crate::specs::Functions::param_type_at))]
fn read_param_type<'a>(alloc: Global, ahead: Ahead<'a>) -> Reading<'a, Unnumbered>
    ensures { Gives result (param_type_at ahead.entry) }
{
    let (_, rest) = skip_attributes(alloc, ahead)?;
    let (ty, rest) = read_type(alloc, rest)?;
    let (_, rest) = skip_attributes(alloc, rest)?;
    Ok(((ty, None), rest))
}

/// Parameters of a definition.
enum Params {}

impl Part for Params {
    type Item = Unnumbered;

    ghost reading = { param_at };

    fn read<'a>(alloc: Global, ahead: Ahead<'a>) -> Reading<'a, Unnumbered> {
        read_param(alloc, ahead)
    }
}

/// Parameters of a declaration.
enum ParamTypes {}

impl Part for ParamTypes {
    type Item = Unnumbered;

    ghost reading = { param_type_at };

    fn read<'a>(alloc: Global, ahead: Ahead<'a>) -> Reading<'a, Unnumbered> {
        read_param_type(alloc, ahead)
    }
}

fn decimal_name(alloc: Global, number: usize) -> Result<Name, AllocError>
    ensures { IfOk result (λ name. name ≡ decimal number) }
{
    let mut buffer = Buffer::new();
    Name::from_slice(alloc, buffer.format(number).as_bytes())
}

/// The name that is given, or the number.
fn name_or(alloc: Global, given: &Option<Name>, number: usize) -> Result<Name, AllocError>
    ensures { IfOk result (λ name. name ≡ name_or given.now (decimal number)) }
{
    match given {
        Some(name) => Name::from_slice(alloc, name.as_slice()),
        None => decimal_name(alloc, number),
    }
}

/// The number behind those that are taken, where this name is taken too.
fn number_behind(number: usize, name: &[u8]) -> usize
    requires { number < 2 ^ 63 }
    ensures { result ≡ number + length (filter is_digits (name.now ∷ [])) }
{
    if is_digits(name) { number + 1 } else { number }
}

/// Parameters of which those without a name are numbered, and the next number.
fn numbered(alloc: Global, given: &[Unnumbered]) -> Result<(List<Param>, usize), OutOfMemory>
    ensures params { IfOk result (λ r. r.0 ≡ params_behind [] given.now) }
    ensures next { IfOk result (λ r. r.1 ≡ numerals r.0) }
{
    let mut params = List::new(alloc);
    let mut next = 0;
    for (at, (ty, name)) in given.iter().enumerate() {
        let name = name_or(alloc, name, next)?;
        next = number_behind(next, name.as_slice());
        let ty = ty.copy(alloc)?;
        params.push(Param { name, ty })?;
    }
    Ok((params, next))
}

/// What stands before the parameters.
#[derive(Drop)]
struct Heading {
    words: List<Name>,
    ret: Ty,
    name: Name,
}

/// `WORDS T @N(`.
#[tactic(auto, unfolding(crate::specs::Functions::heading_at))]
fn read_heading<'a>(alloc: Global, ahead: Ahead<'a>) -> Reading<'a, Heading>
    ensures { GivesAs heading_seen result (heading_at ahead.entry) }
{
    let (words, rest) = read_kept_words(alloc, ahead)?;
    let (_, rest) = skip_attributes(alloc, rest)?;
    let (ret, rest) = read_result_type(alloc, rest)?;
    let (name, rest) = read_global(alloc, rest)?;
    let (_, rest) = expect_mark(rest, b'(')?;
    Ok((Heading { words, ret, name }, rest))
}

/// A block without a label, which has the line of its first token.
#[tactic(auto, unfolding(crate::specs::Functions::unlabelled_at))]
fn read_unlabelled<'a>(alloc: Global, name: Name, ahead: Ahead<'a>) -> Reading<'a, Block>
    ensures { Gives result (unlabelled_at name ahead.entry) }
{
    let line = match ahead.first() {
        Some(token) => token.line(),
        None => 1,
    };
    read_body_of(alloc, name, line, ahead)
}

fn is_at_label(ahead: &Ahead) -> bool
    ensures { result ≡ label_goes (head ahead.now) }
{
    match ahead.first() {
        Some(token) => token.is_label(),
        None => false,
    }
}

/// The first block, of which the label can be missing.
fn read_first_block<'a>(alloc: Global, number: Name, ahead: Ahead<'a>) -> Reading<'a, Block>
    ensures { Gives result (first_block_at number ahead.entry) }
{
    if is_at_label(&ahead) {
        read_block(alloc, ahead)
    } else {
        read_unlabelled(alloc, number, ahead)
    }
}

fn in_front(alloc: Global, first: Block, more: List<Block>) -> Result<List<Block>, AllocError>
    ensures { IfOk result (λ blocks. blocks ≡ first ∷ more) }
{
    let mut blocks = List::new(alloc);
    blocks.push(first)?;
    blocks.append(more)?;
    Ok(blocks)
}

/// `{ BLOCKS }`, where the number names the first block if that has no label.
#[tactic(auto, unfolding(crate::specs::Functions::blocks_at))]
fn read_blocks<'a>(alloc: Global, number: Name, ahead: Ahead<'a>) -> Reading<'a, List<Block>>
    ensures { Gives result (blocks_at number ahead.entry) }
{
    let (_, rest) = expect_mark(ahead, b'{')?;
    let (first, rest) = read_first_block(alloc, number, rest)?;
    let (more, rest) = read_many::<Blocks>(alloc, rest)?;
    let (_, rest) = expect_mark(rest, b'}')?;
    Ok((in_front(alloc, first, more)?, rest))
}

/// `define T @N(T %N, ..) { BLOCKS }`.
#[tactic(auto, unfolding(crate::specs::Functions::definition_at))]
pub(crate) fn read_definition<'a>(alloc: Global, ahead: Ahead<'a>) -> Reading<'a, Function>
    ensures { Gives result (definition_at ahead.entry) }
{
    let (line, rest) = expect_word(ahead, b"define".as_slice())?;
    let (heading, rest) = read_heading(alloc, rest)?;
    let (given, rest) = read_list::<Params>(alloc, rest, b')')?;
    let (groups, rest) = read_groups(alloc, rest)?;
    let (params, next) = numbered(alloc, given.as_slice())?;
    let (blocks, rest) = read_blocks(alloc, decimal_name(alloc, next)?, rest)?;
    let Heading { words, ret, name } = heading;
    let function = Function {
        name,
        words,
        ret,
        params,
        groups,
        blocks,
        line,
    };
    Ok((function, rest))
}

/// `declare T @N(T, ..)`.
#[tactic(auto, unfolding(crate::specs::Functions::declaration_at))]
pub(crate) fn read_declaration<'a>(alloc: Global, ahead: Ahead<'a>) -> Reading<'a, Function>
    ensures { Gives result (declaration_at ahead.entry) }
{
    let (line, rest) = expect_word(ahead, b"declare".as_slice())?;
    let (heading, rest) = read_heading(alloc, rest)?;
    let (given, rest) = read_list::<ParamTypes>(alloc, rest, b')')?;
    let (groups, rest) = read_groups(alloc, rest)?;
    let (params, _) = numbered(alloc, given.as_slice())?;
    let Heading { words, ret, name } = heading;
    let function = Function {
        name,
        words,
        ret,
        params,
        groups,
        blocks: List::new(alloc),
        line,
    };
    Ok((function, rest))
}
