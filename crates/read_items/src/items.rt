//! The items of a module, and the module that they make.
ghost use Rattle.std.specs.Prelude.{◌≡◌, IfOk, IfErr, OnOk};
ghost use Rattle.ir_core.specs.Language.{module_to_end, is_prelude_line, LineItem};
ghost use Rattle.read_forms.specs.Read.{Gives, GivesAs, head, one_at, with_line_of};
ghost use Rattle.read_forms.specs.Seen.{if_some};
ghost use Rattle.read_items.specs.Linked.{link_goes};
ghost use Rattle.read_items.specs.Items.{as_item_name, as_line, item_form_of, item_ahead, item_goes, begun_at, type_item_at, variable_item_at, definition_item_at, declaration_item_at, line_item_at, item_at, items_module_at, module_at};
ghost use Rattle.read_items.specs.Joined.{form_seen, item_seen, step_seen, with_item};
ghost use Rattle.read_items.specs.Refused.{IsTokenRefusal};

use crate::functions::{read_declaration, read_definition};
use crate::globals::{Named, begins_with_llvm, read_type_def, read_variable};
use crate::words::front;
use ir_core::{Function, Global as Variable, List, Module, Name, Or, TypeDef};
use ir_lex::TokenKind;
use read_forms::{Ahead, Lexeme, Reading, expect_mark, spelled_name};
use std::alloc::{AllocError, Global};

/// A part of a module's text.
#[derive(Drop)]
enum Item {
    NamedType(TypeDef),
    Variable(Variable),
    Function(Function),
    /// A line that is kept whole.
    Line(Name),
}

/// An item, and the name of the next global where that is begun already.
type Step = (Item, Option<Named>);

/// How an item begins.
#[derive(Clone, Copy)]
enum ItemForm {
    Types,
    Variables,
    Definitions,
    Declarations,
    Lines,
}

/// The name of a global, with which an item begins unless it is one of LLVM's own.
fn item_name(alloc: Global, token: &Lexeme) -> Result<Option<Name>, AllocError>
    ensures { IfOk result (λ name. name ≡ as_item_name token.now) }
{
    if !token.is_global() {
        return Ok(None);
    }
    let name = spelled_name(alloc, token.name())?;
    if begins_with_llvm(name.as_slice()) {
        Ok(None)
    } else {
        Ok(Some(name))
    }
}

/// How the item begins that begins with this token.
fn item_form(alloc: Global, token: &Lexeme) -> Result<Option<ItemForm>, AllocError>
    ensures { IfOk result (λ form. if_some form_seen form ≡ item_form_of token.now) }
{
    match token.kind() {
        TokenKind::Local => Ok(Some(ItemForm::Types)),
        TokenKind::Global => match item_name(alloc, token)? {
            Some(_) => Ok(Some(ItemForm::Variables)),
            None => Ok(None),
        },
        TokenKind::Passive => Ok(Some(ItemForm::Lines)),
        TokenKind::Word => {
            if token.bytes() == b"define".as_slice() {
                Ok(Some(ItemForm::Definitions))
            } else if token.bytes() == b"declare".as_slice() {
                Ok(Some(ItemForm::Declarations))
            } else {
                Ok(None)
            }
        }
        _ => Ok(None),
    }
}

fn item_form_ahead(alloc: Global, ahead: &Ahead) -> Result<Option<ItemForm>, AllocError>
    ensures { IfOk result (λ form. if_some form_seen form ≡ item_ahead (head ahead.now)) }
{
    match ahead.first() {
        Some(token) => item_form(alloc, &token),
        None => Ok(None),
    }
}

/// What stands behind a global's name and `=`.
#[tactic(auto, unfolding(crate::specs::Items::begun_at))]
fn read_begun<'a>(alloc: Global, name: Named, ahead: Ahead<'a>) -> Reading<'a, Step>
    ensures { GivesAs step_seen result (begun_at name ahead.entry) }
{
    let ((variable, next), rest) = read_variable(alloc, name, ahead)?;
    Ok(((Item::Variable(variable), next), rest))
}

#[tactic(auto, unfolding(crate::specs::Items::type_item_at))]
fn read_type_item<'a>(alloc: Global, ahead: Ahead<'a>) -> Reading<'a, Step>
    ensures { GivesAs step_seen result (type_item_at ahead.entry) }
{
    let (def, rest) = read_type_def(alloc, ahead)?;
    Ok(((Item::NamedType(def), None), rest))
}

fn read_item_name<'a>(alloc: Global, ahead: Ahead<'a>) -> Reading<'a, Named>
    ensures { Gives result (one_at (with_line_of as_item_name) ahead.entry) }
{
    let left = ahead.left();
    let Some((token, rest)) = ahead.split() else {
        return Err(Or::Refused(left));
    };
    match item_name(alloc, &token)? {
        Some(name) => Ok(((name, token.line()), rest)),
        None => Err(Or::Refused(left)),
    }
}

#[tactic(auto, unfolding(crate::specs::Items::variable_item_at))]
fn read_variable_item<'a>(alloc: Global, ahead: Ahead<'a>) -> Reading<'a, Step>
    ensures { GivesAs step_seen result (variable_item_at ahead.entry) }
{
    let (name, rest) = read_item_name(alloc, ahead)?;
    let (_, rest) = expect_mark(rest, b'=')?;
    read_begun(alloc, name, rest)
}

#[tactic(auto, unfolding(crate::specs::Items::definition_item_at))]
fn read_definition_item<'a>(alloc: Global, ahead: Ahead<'a>) -> Reading<'a, Step>
    ensures { GivesAs step_seen result (definition_item_at ahead.entry) }
{
    let (function, rest) = read_definition(alloc, ahead)?;
    Ok(((Item::Function(function), None), rest))
}

#[tactic(auto, unfolding(crate::specs::Items::declaration_item_at))]
fn read_declaration_item<'a>(alloc: Global, ahead: Ahead<'a>) -> Reading<'a, Step>
    ensures { GivesAs step_seen result (declaration_item_at ahead.entry) }
{
    let (function, rest) = read_declaration(alloc, ahead)?;
    Ok(((Item::Function(function), None), rest))
}

fn read_line<'a>(alloc: Global, ahead: Ahead<'a>) -> Reading<'a, Name>
    ensures { Gives result (one_at as_line ahead.entry) }
{
    let left = ahead.left();
    let Some((token, rest)) = ahead.split() else {
        return Err(Or::Refused(left));
    };
    match token.kind() {
        TokenKind::Passive => Ok((Name::from_slice(alloc, token.bytes())?, rest)),
        _ => Err(Or::Refused(left)),
    }
}

#[tactic(auto, unfolding(crate::specs::Items::line_item_at))]
fn read_line_item<'a>(alloc: Global, ahead: Ahead<'a>) -> Reading<'a, Step>
    ensures { GivesAs step_seen result (line_item_at ahead.entry) }
{
    let (line, rest) = read_line(alloc, ahead)?;
    Ok(((Item::Line(line), None), rest))
}

/// The next item, of which the name and the `=` behind it are read already or not.
fn read_item<'a>(alloc: Global, pending: Option<Named>, ahead: Ahead<'a>) -> Reading<'a, Step>
    ensures { GivesAs step_seen result (item_at pending ahead.entry) }
{
    if let Some(name) = pending {
        return read_begun(alloc, name, ahead);
    }
    match item_form_ahead(alloc, &ahead)? {
        Some(ItemForm::Types) => read_type_item(alloc, ahead),
        Some(ItemForm::Variables) => read_variable_item(alloc, ahead),
        Some(ItemForm::Definitions) => read_definition_item(alloc, ahead),
        Some(ItemForm::Declarations) => read_declaration_item(alloc, ahead),
        Some(ItemForm::Lines) => read_line_item(alloc, ahead),
        None => Err(Or::Refused(ahead.left())),
    }
}

/// Whether a line that is kept whole stands before the items.
fn is_prelude_line(line: &[u8]) -> bool
    ensures { result ≡ is_prelude_line line.now }
{
    front(line, 1) == b"$".as_slice()
        || front(line, 15) == b"source_filename".as_slice()
        || front(line, 6) == b"target".as_slice()
}

fn push_line(whole: &mut Module, line: Name) -> Result<(), AllocError>
    ensures { OnOk result (whole.new ≡ with_item whole.old (LineItem line)) }
{
    if is_prelude_line(line.as_slice()) {
        whole.prelude.push(line)?;
    } else {
        whole.tail.push(line)?;
    }
    Ok(())
}

fn push_item(whole: &mut Module, item: Item) -> Result<(), AllocError>
    ensures { OnOk result (whole.new ≡ with_item whole.old (item_seen item)) }
{
    match item {
        Item::NamedType(def) => whole.types.push(def)?,
        Item::Variable(variable) => whole.globals.push(variable)?,
        Item::Function(function) => whole.functions.push(function)?,
        Item::Line(line) => push_line(whole, line)?,
    }
    Ok(())
}

/// Whether another item is begun, or begins here.
fn goes_on(alloc: Global, pending: &Option<Named>, ahead: &Ahead) -> Result<bool, AllocError>
    ensures { IfOk result (λ more. more ≡ link_goes item_goes pending.now (head ahead.now)) }
{
    match pending {
        Some(_) => Ok(true),
        None => Ok(item_form_ahead(alloc, ahead)?.is_some()),
    }
}

/// As many items as stand here, one after another.
fn read_items<'a>(alloc: Global, ahead: Ahead<'a>) -> Reading<'a, Module>
    ensures { Gives result (items_module_at ahead.entry) }
{
    let mut module = Module {
        prelude: List::new(alloc),
        types: List::new(alloc),
        globals: List::new(alloc),
        functions: List::new(alloc),
        tail: List::new(alloc),
    };
    let mut pending = None;
    let mut rest = ahead;
    while goes_on(alloc, &pending, &rest)? {
        let ((item, next), after) = read_item(alloc, pending, rest)?;
        push_item(&mut module, item)?;
        pending = next;
        rest = after;
    }
    Ok((module, rest))
}

/// Items to the end of the tokens.
fn read_to_end<'a>(alloc: Global, ahead: Ahead<'a>) -> Reading<'a, Module>
    ensures { Gives result (module_at ahead.entry) }
{
    let (module, rest) = read_items(alloc, ahead)?;
    match rest.left() {
        0 => Ok((module, rest)),
        left => Err(Or::Refused(left)),
    }
}

/// The module that the tokens spell (LLVM Language Reference, "High Level Structure").
///
/// # Errors
///
/// `Refused` where they spell none: how many tokens are left from the first one on with which no text goes on.
/// `Memory` where memory runs out.
pub fn read_tokens(alloc: Global, ahead: Ahead) -> Result<Module, Or<usize>>
    ensures found { IfOk result (λ m. module_to_end ahead.entry m) }
    ensures refused { IfErr result (λ e. IsTokenRefusal ahead.entry e) }
{
    let (module, _) = read_to_end(alloc, ahead)?;
    Ok(module)
}
