//! Where an index goes inside a type (LLVM Language Reference, "getelementptr").
ghost use Rattle.std.specs.Prelude.{◌≡◌, Some, option_map, List as Listed, ℤ, []};
ghost use Rattle.ir_core.specs.declared.module.TypeDef.{TypeDef};
ghost use Rattle.ir_core.specs.Layout.{named_parts, WellFormed, Offset};
ghost use Rattle.ir_tables.specs.Table.{own_parts, end_parts, known_of};
ghost use Rattle.ir_tables.specs.Named.{parts_by, Serves};
ghost use Rattle.ir_tables.specs.Walk.{parts_seen, step_seen, step_into, offset_from, StandsIn, WalksInto};

use crate::named::{Named, body_of, start, stride};
use crate::table::Table;
use ir_core::{Name, Ty, TypeDef};

/// What an index can go into.
enum Inside<'a> {
    Items(&'a Ty),
    Fields(&'a [Ty]),
    Nothing,
}

fn own_parts(ty: &Ty) -> Inside<'_>
    ensures { parts_seen result ≡ own_parts (Some ty.now) }
{
    match ty {
        Ty::Array(_, item) => Inside::Items(item.get()),
        Ty::Struct(fields) => Inside::Fields(fields.as_slice()),
        _ => Inside::Nothing,
    }
}

fn table_parts<'a>(types: &'a [TypeDef], table: &Table, name: &Name) -> Inside<'a>
    ensures { parts_seen result ≡ end_parts types.now (known_of table.now name.now) }
{
    match table.known(name) {
        None => Inside::Nothing,
        Some(known) => match types.get(known.end) {
            None => Inside::Nothing,
            Some(def) => own_parts(&def.body),
        },
    }
}

fn list_parts<'a>(types: &'a [TypeDef], depth: usize, name: &'a Name) -> Inside<'a>
    ensures { parts_seen result ≡ named_parts depth types.now name.now }
{
    let mut last = name;
    for _ in 0..depth {
        match body_of(types, last) {
            None => return Inside::Nothing,
            Some(Ty::Named(next)) => last = next,
            Some(body) => return own_parts(body),
        }
    }
    Inside::Nothing
}

fn parts_of<'a>(named: Named<'a>, ty: &'a Ty) -> Inside<'a>
    ensures { parts_seen result ≡ parts_by named.entry ty.now }
{
    match ty {
        Ty::Named(name) => match named {
            Named::InTable(types, table) => table_parts(types, table, name),
            Named::InList(types, depth) => list_parts(types, depth, name),
        },
        _ => own_parts(ty),
    }
}

/// How far an index goes, modulo 2^64, and into which type.
fn step_into<'a>(named: Named<'a>, ty: &'a Ty, index: i64) -> Option<(i64, &'a Ty)>
    ensures { option_map step_seen result ≡ step_into named.entry index (parts_by named.entry ty.now) }
{
    match parts_of(named, ty) {
        Inside::Items(item) => Some((index.wrapping_mul(stride(named, item)), item)),
        Inside::Fields(fields) => {
            let place = usize::try_from(index).ok()?;
            let field = fields.get(place)?;
            Some((start(named, &fields[..place], field), field))
        }
        Inside::Nothing => None,
    }
}

/// How far the indices of a getelementptr have come, and into which type: the first one counts whole values, and each further one goes
/// into the type.
#[derive(Clone, Copy)]
pub struct Walk<'a> {
    inner: &'a Ty,
    /// What they add, modulo 2^64; none in front of the first index.
    sum: Option<i64>,
}

impl<'a> Walk<'a> {
    /// In front of the first index, at a type.
    pub fn new(ty: &'a Ty) -> Walk<'a>
        ensures well { (types : Listed TypeDef) → WellFormed types ty.now → StandsIn types result }
        ensures offset { (types : Listed TypeDef) (path : Listed ℤ) → offset_from types result path ≡ Offset types ty.now path }
    {
        Walk {
            inner: ty,
            sum: None,
        }
    }

    /// What the indices so far add, modulo 2^64 as a signed number.
    pub fn offset(self) -> i64
        ensures { (types : Listed TypeDef) → offset_from types self.entry [] ≡ Some result }
    {
        match self.sum {
            None => 0,
            Some(sum) => sum,
        }
    }
}

/// One index further; none where it is out of a struct's fields or goes into a type without parts.
pub(crate) fn walk_into<'a>(named: Named<'a>, walk: Walk<'a>, index: i64) -> Option<Walk<'a>>
    ensures { (types : Listed TypeDef) → Serves types named.entry → StandsIn types walk.entry → WalksInto types walk.entry index result }
{
    match walk.sum {
        None => Some(Walk {
            inner: walk.inner,
            sum: Some(index.wrapping_mul(stride(named, walk.inner))),
        }),
        Some(sum) => {
            let (distance, part) = step_into(named, walk.inner, index)?;
            Some(Walk {
                inner: part,
                sum: Some(sum.wrapping_add(distance)),
            })
        }
    }
}
