//! How a type lies in memory, by what its names stand for.
ghost use Rattle.std.specs.Prelude.{◌≡◌, option_copied};
ghost use Rattle.ir_core.specs.Layout.{body_of};
ghost use Rattle.ir_tables.specs.Laid.{laid_of, fields_laid, stride, start};
ghost use Rattle.ir_tables.specs.Named.{name_laid};

use crate::laid::{Align, Laid};
use crate::table::Table;
use ir_core::{Name, Ty, TypeDef};

/// Where the layouts of named types are looked up.
#[derive(Clone, Copy)]
pub(crate) enum Named<'a> {
    /// In a table of the types.
    InTable(&'a [TypeDef], &'a Table),
    /// In their list, with names looked through so deep.
    InList(&'a [TypeDef], usize),
}

/// What the one type of a name is; none where there is no such type, or more than one.
pub(crate) fn body_of<'a>(types: &'a [TypeDef], name: &Name) -> Option<&'a Ty>
    ensures { option_copied result ≡ body_of types.now name.now }
{
    let mut body: Option<&'a Ty> = None;
    for def in types {
        if def.name.as_slice() == name.as_slice() {
            if body.is_some() {
                return None;
            }
            body = Some(&def.body);
        }
    }
    body
}

/// What is kept of a name's layout.
#[cycle(laid_of)]
fn name_laid(named: Named, name: &Name) -> Option<Laid>
    ensures { result ≡ name_laid named.entry name.now }
{
    match named {
        Named::InTable(_, table) => table.laid(name),
        Named::InList(types, depth) => {
            let less = depth.checked_sub(1)?;
            let body = body_of(types, name)?;
            laid_of(Named::InList(types, less), body)
        }
    }
}

/// What is kept of a type's layout; none where it has none, or a name in it isn't known yet.
#[cycle(laid_of)]
pub(crate) fn laid_of(named: Named, ty: &Ty) -> Option<Laid>
    ensures { result ≡ laid_of (name_laid named.entry) ty.now }
{
    match ty {
        Ty::Void => None,
        Ty::Int(width) => Laid::integer(*width),
        Ty::Ptr => Some(Laid::scalar(Align::Eight)),
        Ty::Array(count, item) => Some(laid_of(named, item.get())?.times(*count)),
        Ty::Struct(fields) => Some(laid_fields(named, fields.as_slice())?.padded()),
        Ty::Named(name) => name_laid(named, name),
    }
}

/// The same of fields one after another, not yet padded.
#[cycle(laid_of)]
fn laid_fields(named: Named, fields: &[Ty]) -> Option<Laid>
    ensures { result ≡ fields_laid (name_laid named.entry) fields.now }
{
    let mut whole = Laid::empty();
    for field in fields {
        whole = whole.with(laid_of(named, field)?);
    }
    Some(whole)
}

/// How many bytes a value takes, modulo 2^64; any number for a type without a layout.
pub(crate) fn stride(named: Named, ty: &Ty) -> i64
    ensures { result ≡ stride (laid_of (name_laid named.entry) ty.now) }
{
    match laid_of(named, ty) {
        None => 0,
        Some(laid) => laid.low.cast_signed(),
    }
}

/// Where a field starts behind those before it, likewise.
pub(crate) fn start(named: Named, before: &[Ty], field: &Ty) -> i64
    ensures { result ≡ start (fields_laid (name_laid named.entry) before.now) (laid_of (name_laid named.entry) field.now) }
{
    match (laid_fields(named, before), laid_of(named, field)) {
        (Some(whole), Some(field)) => field.align.round(whole.low).cast_signed(),
        _ => 0,
    }
}
