//! The named types that each named type has in its body, by their places.
#![tactic(auto)]

ghost use Rattle.std.specs.Prelude.{◌≡◌, ◌++◌, map, IfOk, OnOk};
ghost use Rattle.std.specs.List.{flat_map};
ghost use Rattle.ir_core.specs.Given.{names_in};
ghost use Rattle.ir_tables.specs.Names.{HasPlaces, found_place};
ghost use Rattle.ir_tables.specs.Names.{type_name};
ghost use Rattle.item_names.specs.Circles.{found_places, found_parts};
ghost use Rattle.item_names.specs.Repeated.{is_place};

use ir_core::{List, OutOfMemory, Ty, TypeDef};
use ir_tables::{NameTable, place, table_of};
use std::alloc::Global;

/// The names of types, each with its first place.
pub(crate) fn names_of(alloc: Global, types: &[TypeDef]) -> Result<NameTable, OutOfMemory>
    ensures { IfOk result (λ t. HasPlaces (map type_name types.now) t) }
{
    let mut names = List::new(alloc);
    for def in types {
        names.push(def.name.as_slice())?;
    }
    table_of(alloc, names.as_slice())
}

/// Whether a name has that place.
pub(crate) fn stands_at(names: &NameTable, name: &[u8], at: usize) -> bool
    ensures { result ≡ is_place at (found_place names.now name.now) }
{
    match place(names, name) {
        None => false,
        Some(place) => place == at,
    }
}

#[cycle(add_parts)]
fn add_parts(names: &NameTable, ty: &Ty, parts: &mut List<usize>) -> Result<(), OutOfMemory>
    ensures { OnOk result (parts.new ≡ parts.old ++ found_places names.now (names_in ty.now)) }
{
    match ty {
        Ty::Void | Ty::Int(_) | Ty::Ptr => Ok(()),
        Ty::Array(_, item) => add_parts(names, item.get(), parts),
        Ty::Struct(fields) => add_parts_of(names, fields.as_slice(), parts),
        Ty::Named(name) => {
            if let Some(place) = place(names, name.as_slice()) {
                parts.push(place)?;
            }
            Ok(())
        }
    }
}

#[cycle(add_parts)]
fn add_parts_of(names: &NameTable, tys: &[Ty], parts: &mut List<usize>) -> Result<(), OutOfMemory>
    ensures { OnOk result (parts.new ≡ parts.old ++ flat_map (λ ty. found_places names.now (names_in ty)) tys.now) }
{
    for ty in tys {
        add_parts(names, ty, parts)?;
    }
    Ok(())
}

fn parts_of(alloc: Global, names: &NameTable, ty: &Ty) -> Result<List<usize>, OutOfMemory>
    ensures { IfOk result (λ ps. ps ≡ found_places names.now (names_in ty.now)) }
{
    let mut parts = List::new(alloc);
    add_parts(names, ty, &mut parts)?;
    Ok(parts)
}

/// For each type the places of the types that its body has.
pub(crate) fn all_parts(
    alloc: Global,
    names: &NameTable,
    types: &[TypeDef],
) -> Result<List<List<usize>>, OutOfMemory>
    ensures { IfOk result (λ all. all ≡ found_parts names.now types.now) }
{
    let mut all = List::new(alloc);
    for def in types {
        all.push(parts_of(alloc, names, &def.body)?)?;
    }
    Ok(all)
}
