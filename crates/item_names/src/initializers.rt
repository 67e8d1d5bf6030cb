//! What is refused of what a global holds at first (LLVM Language Reference, "Global Variables").
#![tactic(auto, using(name_tables::proofs::ConstructLaws::least_append))]

ghost use Rattle.std.specs.Prelude.{◌≡◌, ℕ, length, map};
ghost use Rattle.std.specs.List.{flat_map, list_all};
ghost use Rattle.ir_core.specs.declared.types.Ty.{out-Ty};
ghost use Rattle.ir_core.specs.Given.{same_type};
ghost use Rattle.ir_core.specs.NameRefusals.{in_init, is_bytes_of, are_items_of, are_fields_of, are_pairwise_same};
ghost use Rattle.name_tables.specs.Least.{least_of};
ghost use Rattle.item_names.specs.Parts.{in_element, part_type};

use crate::same::same_type;
use ir_core::{Construct, Element, Init, Ty};
use ir_names::{in_type, shape, symbol};
use name_tables::{Tables, expects, is_int_of, is_number_of, is_ptr, lesser};

fn is_bytes_of(count: usize, shape: &Ty) -> bool
    ensures { result ≡ is_bytes_of count (out-Ty shape.now) }
{
    match shape {
        Ty::Array(n, item) => *n == count as u64 && is_int_of(8, item.get()),
        _ => false,
    }
}

fn are_all(item: &Ty, parts: &[Element]) -> bool
    ensures { result ≡ list_all (same_type item.now) (map part_type parts.now) }
{
    for part in parts {
        if !same_type(item, &part.ty) {
            return false;
        }
    }
    true
}

fn are_items_of(parts: &[Element], shape: &Ty) -> bool
    ensures { result ≡ are_items_of (map part_type parts.now) (out-Ty shape.now) }
{
    match shape {
        Ty::Array(n, item) => *n == parts.len() as u64 && are_all(item.get(), parts),
        _ => false,
    }
}

fn are_pairwise_same(fields: &[Ty], parts: &[Element]) -> bool
    ensures { result ≡ are_pairwise_same fields.now (map part_type parts.now) }
{
    if fields.len() != parts.len() {
        return false;
    }
    for i in 0..fields.len() {
        if !same_type(&fields[i], &parts[i].ty) {
            return false;
        }
    }
    true
}

fn are_fields_of(parts: &[Element], shape: &Ty) -> bool
    ensures { result ≡ are_fields_of (map part_type parts.now) (out-Ty shape.now) }
{
    match shape {
        Ty::Struct(fields) => are_pairwise_same(fields.as_slice(), parts),
        _ => false,
    }
}

/// What is refused of an initializer of a global, or of a part of one, of the type.
#[cycle(in_init)]
pub fn in_init<'a>(tables: &'a Tables<'a>, init: &'a Init, ty: &'a Ty) -> Option<Construct>
    ensures { result ≡ least_of (in_init tables.now ty.now init.now) }
{
    match init {
        Init::Zero => None,
        Init::Int(n) => expects(is_number_of(*n, ty)),
        Init::Null => expects(is_ptr(ty)),
        Init::Addr(name) => symbol(false, ty, tables.symbol(name)),
        Init::Bytes(bytes) => expects(is_bytes_of(bytes.as_slice().len(), shape(tables, ty))),
        Init::Square(parts) => lesser(
            in_parts(tables, parts.as_slice()),
            expects(are_items_of(parts.as_slice(), shape(tables, ty))),
        ),
        Init::Braces(parts) => lesser(
            in_parts(tables, parts.as_slice()),
            expects(are_fields_of(parts.as_slice(), shape(tables, ty))),
        ),
    }
}

#[cycle(in_init)]
fn in_parts<'a>(tables: &'a Tables<'a>, parts: &'a [Element]) -> Option<Construct>
    ensures { result ≡ least_of (flat_map (in_element tables.now) parts.now) }
{
    let mut found = None;
    for part in parts {
        let refused = lesser(
            in_type(tables, &part.ty),
            in_init(tables, &part.init, &part.ty),
        );
        found = lesser(found, refused);
    }
    found
}
