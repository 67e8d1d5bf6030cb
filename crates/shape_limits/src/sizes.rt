//! How many bytes the types of a module take.
ghost use Rattle.std.specs.Prelude.{◌≡◌, ◌<◌, nat_lt};
ghost use Rattle.std.specs.List.{flat_map, list_any};
ghost use Rattle.ir_core.specs.NameRefusals.{least};
ghost use Rattle.ir_core.specs.Layout.{Size};
ghost use Rattle.shapes.specs.Limits as spec;
ghost use Rattle.shape_limits.specs.Sizes as sizes;

use ir_core::{Construct, Element, Global, Init, Refusal, Ty, TypeDef};
use ir_tables::Indexed;
use name_tables::earlier;
use shape_facts::rule;

#[tactic(auto, unfolding(shapes::specs::Limits::size_limit))]
fn size_limit() -> u64
    ensures value { result ≡ spec.size_limit }
    ensures near { result < 2000000 }
{
    1_048_576
}

/// Whether a type takes more bytes than a type may.
fn is_too_long(ty: &Ty, m: &Indexed) -> bool
    ensures { result ≡ nat_lt spec.size_limit (Size m.now.types ty.now) }
{
    m.size_of(ty) > size_limit()
}

/// Whether a type, or a part of it, takes more bytes than a type may.
#[tactic(auto, using(crate::proofs::LimitLaws::large_is))]
#[cycle(is_large)]
fn is_large(ty: &Ty, m: &Indexed) -> bool
    ensures { result ≡ spec.is_large m.now.types ty.now }
{
    match ty {
        Ty::Array(_, item) => is_large(item.get(), m) || is_too_long(ty, m),
        Ty::Struct(fields) => any_is_large(fields.as_slice(), m) || is_too_long(ty, m),
        Ty::Void | Ty::Int(_) | Ty::Ptr | Ty::Named(_) => is_too_long(ty, m),
    }
}

#[cycle(is_large)]
fn any_is_large(tys: &[Ty], m: &Indexed) -> bool
    ensures { result ≡ list_any (spec.is_large m.now.types) tys.now }
{
    for ty in tys {
        if is_large(ty, m) {
            return true;
        }
    }
    false
}

/// What is told of a type's size, on a line.
pub fn of_size(m: &Indexed, line: u32, ty: &Ty) -> Option<Refusal>
    ensures { result ≡ least (spec.of_size m.now line ty.now) }
{
    rule(Construct::Limit, !is_large(ty, m), line)
}

/// What is told of the sizes of the types in an initializer, on a line.
#[cycle(of_init)]
fn of_init(init: &Init, m: &Indexed, line: u32) -> Option<Refusal>
    ensures { result ≡ least (sizes.of_init m.now line init.now) }
{
    match init {
        Init::Square(parts) => of_parts(parts.as_slice(), m, line),
        Init::Braces(parts) => of_parts(parts.as_slice(), m, line),
        Init::Zero | Init::Int(_) | Init::Null | Init::Addr(_) | Init::Bytes(_) => None,
    }
}

#[cycle(of_init)]
fn of_parts(parts: &[Element], m: &Indexed, line: u32) -> Option<Refusal>
    ensures { result ≡ least (flat_map (sizes.of_element m.now line) parts.now) }
{
    let mut found = None;
    for part in parts {
        let own = of_size(m, line, &part.ty);
        found = earlier(found, earlier(own, of_init(&part.init, m, line)));
    }
    found
}

/// What is told of the sizes of the types of a global and of its contents.
fn of_global(m: &Indexed, global: &Global) -> Option<Refusal>
    ensures { result ≡ least (spec.of_global m.now global.now) }
{
    let own = of_size(m, global.line, &global.ty);
    match &global.init {
        None => own,
        Some(init) => earlier(own, of_init(init, m, global.line)),
    }
}

/// What is told of the sizes of the types of globals.
pub fn of_globals(m: &Indexed, globals: &[Global]) -> Option<Refusal>
    ensures { result ≡ least (flat_map (spec.of_global m.now) globals.now) }
{
    let mut found = None;
    for global in globals {
        found = earlier(found, of_global(m, global));
    }
    found
}

/// What is told of the sizes of named types.
pub fn of_types(m: &Indexed, types: &[TypeDef]) -> Option<Refusal>
    ensures { result ≡ least (flat_map (sizes.of_type m.now) types.now) }
{
    let mut found = None;
    for named in types {
        found = earlier(found, of_size(m, named.line, &named.body));
    }
    found
}
