//! The named types by name: where each stands, and what is known of it.
ghost use Rattle.std.specs.Prelude.{◌≡◌, length, IfOk};
ghost use Rattle.std.specs.Str.{bytes_eq};
ghost use Rattle.indexmap.specs.IndexMap.{get_by};
ghost use Rattle.ir_core.specs.declared.types.Ty.{out-Ty};
ghost use Rattle.ir_tables.specs.Table.{next_place, ArePlaces, place_of, known_at, known_of, known_laid, layer_end, found_at, count, is_open, LaysOut, Grows, IsSound, IsTable};

use crate::laid::Laid;
use crate::named::{Named, laid_of};
use indexmap::IndexMap;
use ir_core::{List, Name, OutOfMemory, Ty, TypeDef};
use std::alloc::Global;

/// Where the type of a name stands.
#[derive(Clone, Copy)]
pub(crate) enum Place {
    Once(usize),
    /// More than one type has the name.
    Twice,
}

/// The places of types, by their names.
#[derive(Drop)]
pub(crate) struct Places {
    places: IndexMap<Vec<u8>, Place>,
}

/// What is known of a named type that has a layout.
#[derive(Clone, Copy)]
pub(crate) struct Known {
    pub(crate) laid: Laid,
    /// The place of the type that it is in the end, where its body is a name.
    pub(crate) end: usize,
}

/// What is known of each type, at its place.
#[derive(Drop)]
pub(crate) struct Table {
    places: Places,
    known: List<Option<Known>>,
}

/// The place of a name that is given once more.
fn next_place(places: &IndexMap<Vec<u8>, Place>, at: usize, name: &[u8]) -> Place
    ensures { result ≡ next_place at (get_by (λ k. bytes_eq name.now k.items) places.now) }
{
    match places.get(name) {
        None => Place::Once(at),
        Some(_) => Place::Twice,
    }
}

impl Places {
    /// The places of the types.
    pub(crate) fn of(alloc: Global, types: &[TypeDef]) -> Result<Places, OutOfMemory>
        ensures { IfOk result (λ p. ArePlaces types.now p) }
    {
        let mut places = IndexMap::new(alloc);
        for at in 0..types.len() {
            let name = types[at].name.as_slice();
            let place = next_place(&places, at, name);
            match places.insert(Vec::from_slice(alloc, name)?, place) {
                Ok(_) => {}
                Err(_) => return Err(OutOfMemory),
            }
        }
        Ok(Places { places })
    }

    /// The place of the one type of a name.
    pub(crate) fn place(&self, name: &Name) -> Option<usize>
        ensures { result ≡ place_of self.now name.now }
    {
        match self.places.get(name.as_slice()) {
            Some(Place::Once(at)) => Some(*at),
            _ => None,
        }
    }
}

impl Table {
    /// What is known of a name.
    pub(crate) fn known(&self, name: &Name) -> Option<Known>
        ensures { result ≡ known_of self.now name.now }
    {
        match self.known.get(self.places.place(name)?) {
            None => None,
            Some(known) => *known,
        }
    }

    /// Whether there is a type at this place that isn't laid out.
    fn is_open(&self, at: usize) -> bool
        ensures { result ≡ is_open self.now.known at }
    {
        match self.known.get(at) {
            None => false,
            Some(known) => known.is_none(),
        }
    }

    /// What is kept of a name's layout.
    pub(crate) fn laid(&self, name: &Name) -> Option<Laid>
        ensures { result ≡ known_laid self.now name.now }
    {
        match self.known(name) {
            None => None,
            Some(known) => Some(known.laid),
        }
    }

    /// The place of the type that a type is in the end.
    fn end(&self, at: usize, body: &Ty) -> usize
        ensures { result ≡ layer_end self.now at (out-Ty body.now) }
    {
        match body {
            Ty::Named(name) => match self.known(name) {
                None => at,
                Some(known) => known.end,
            },
            _ => at,
        }
    }
}

/// What the table gives for the type at a place; none where it has no layout, or not yet.
fn found(table: &Table, types: &[TypeDef], at: usize, body: &Ty) -> Option<Known>
    ensures { result ≡ found_at table.now at body.now }
{
    let laid = laid_of(Named::InTable(types, table), body)?;
    Some(Known {
        laid,
        end: table.end(at, body),
    })
}

/// Lays out the type at a place, unless it is laid out or can't be yet. Whether it did.
fn lay_out_at(table: &mut Table, types: &[TypeDef], at: usize) -> bool
    ensures { LaysOut types.now table.old table.new at result }
{
    let Some(def) = types.get(at) else {
        return false;
    };
    if !table.is_open(at) {
        return false;
    }
    let Some(known) = found(table, types, at, &def.body) else {
        return false;
    };
    table.known.set(at, Some(known));
    true
}

/// Lays out every type that isn't laid out and now can be. Whether there was one.
fn lay_out_more(table: &mut Table, types: &[TypeDef]) -> bool
    requires { IsSound types.now table.old }
    ensures sound { IsSound types.now table.new }
    ensures grows { Grows types.now table.old table.new result }
{
    let mut some = false;
    for at in 0..types.len() {
        some |= lay_out_at(table, types, at);
    }
    some
}

/// Nothing for each of so many types.
fn nothing_known(alloc: Global, types: usize) -> Result<List<Option<Known>>, OutOfMemory>
    ensures { IfOk result (λ known. (length known ≡ types) × (count known ≡ 0)) }
{
    let mut known = List::new(alloc);
    for _ in 0..types {
        known.push(None)?;
    }
    Ok(known)
}

/// Lays out the types. What comes out is the same for any order; the order bears the cost. Where each type that has a layout stands
/// behind its parts, all are laid out in one go, and the others are tried twice.
pub(crate) fn lay_out(
    alloc: Global,
    types: &[TypeDef],
    places: Places,
    order: &[usize],
) -> Result<Table, OutOfMemory>
    requires { ArePlaces types.now places }
    ensures { IfOk result (λ t. IsTable types.now t) }
{
    let mut table = Table {
        places,
        known: nothing_known(alloc, types.len())?,
    };
    for at in order {
        lay_out_at(&mut table, types, *at);
    }
    while lay_out_more(&mut table, types) {}
    Ok(table)
}
