//! What is refused of globals.
#![tactic(auto, using(name_tables::proofs::ConstructLaws::least_append))]

ghost use Rattle.std.specs.Prelude.{◌≡◌};
ghost use Rattle.std.specs.List.{flat_map};
ghost use Rattle.ir_core.specs.NameRefusals.{of_global, in_contents, if_entry_point, least};
ghost use Rattle.name_tables.specs.Least.{least_of};

use crate::initializers::in_init;
use ir_core::{Construct, Global, Init, Name, Refusal, Ty};
use ir_names::{in_type, is_entry_point};
use name_tables::{Tables, earlier, lesser, refused_at};

fn if_entry_point(name: &Name) -> Option<Construct>
    ensures { result ≡ least_of (if_entry_point name.now) }
{
    if is_entry_point(name) {
        Some(Construct::Signature)
    } else {
        None
    }
}

fn in_contents(tables: &Tables, ty: &Ty, init: &Option<Init>) -> Option<Construct>
    ensures { result ≡ least_of (in_contents tables.now ty.now init.now) }
{
    match init {
        None => Some(Construct::MissingName),
        Some(init) => in_init(tables, init, ty),
    }
}

/// What is refused of a global: its type, what it holds at first, and the name of an entry point.
#[tactic(auto, using(name_tables::proofs::ConstructLaws::least_append, name_tables::proofs::RefusalLaws::first_at))]
pub fn of_global(tables: &Tables, g: &Global) -> Option<Refusal>
    ensures { result ≡ least (of_global tables.now g.now) }
{
    let contents = in_contents(tables, &g.ty, &g.init);
    let typed = lesser(in_type(tables, &g.ty), contents);
    refused_at(g.line, lesser(typed, if_entry_point(&g.name)))
}

/// What is refused of all globals.
pub fn of_globals(tables: &Tables, globals: &[Global]) -> Option<Refusal>
    ensures { result ≡ least (flat_map (of_global tables.now) globals.now) }
{
    let mut found = None;
    for global in globals {
        found = earlier(found, of_global(tables, global));
    }
    found
}
