//! What is refused of the named types of a module.
#![tactic(auto)]

ghost use Rattle.std.specs.Prelude.{◌≡◌, ◌<◌, ◌++◌, [], map, length, not, IfOk, if◌then◌else◌};
ghost use Rattle.std.specs.List.{flat_map, list_any};
ghost use Rattle.ir_core.specs.Typing.{expects};
ghost use Rattle.ir_core.specs.NameRefusals.{least, repeated, of_type};
ghost use Rattle.name_tables.specs.Least.{or_first, at_line, least_of};
ghost use Rattle.item_names.specs.Circles.{parts_at, leads, descends_from};
ghost use Rattle.item_names.specs.Repeated.{type_entry};
ghost use Rattle.item_names.specs.Items.{is_told};

use crate::circles::{contains_itself, is_descending, may_lead};
use crate::components::ranks_of;
use crate::parts::{all_parts, names_of, stands_at};
use crate::repeated::if_second;
use ir_core::{Construct, List, OutOfMemory, Refusal};
use ir_names::in_type;
use name_tables::{Tables, earlier, is_before, refused_at};
use std::alloc::Global;

/// The parts of each named type, and what tells most types that aren't on a circle.
#[derive(Drop)]
struct Graph {
    parts: List<List<usize>>,
    ranks: List<usize>,
    /// Whether the ranks can be used; they always can.
    descends: bool,
    ghost tested: { descends ≡ descends_from 0 parts ranks },
}

impl Graph {
    fn of(alloc: Global, parts: List<List<usize>>) -> Result<Graph, OutOfMemory>
        ensures { IfOk result (λ g. g.parts ≡ parts) }
    {
        let ranks = ranks_of(alloc, parts.as_slice())?;
        let descends = is_descending(parts.as_slice(), ranks.as_slice());
        Ok(Graph {
            parts,
            ranks,
            descends,
        })
    }

    // By the ranks a type is found to be on no circle at once, and only one that is on a circle is asked further.
    fn is_on_circle(&self, alloc: Global, at: usize) -> Result<bool, OutOfMemory>
        requires { at < length self.now.parts }
        ensures { IfOk result (λ b. b ≡ list_any (leads self.now.parts at (length self.now.parts)) (parts_at self.now.parts at)) }
    {
        let parts = self.parts.as_slice();
        if self.descends && !may_lead(parts, self.ranks.as_slice(), at) {
            return Ok(false);
        }
        contains_itself(alloc, parts, at)
    }

    // What is told when the type at a place is looked at for a circle. That of a second type of its name is never told.
    fn with_circle(
        &self,
        alloc: Global,
        at: usize,
        line: u32,
        second: bool,
        found: Option<Refusal>,
    ) -> Result<Option<Refusal>, OutOfMemory>
        requires { at < length self.now.parts }
        ensures { IfOk result (λ r. r ≡ (if second then found else or_first found (at_line line (least_of (expects (not (list_any (leads self.now.parts at (length self.now.parts)) (parts_at self.now.parts at)))))))) }
    {
        let refusal = Refusal {
            construct: Construct::TypeMismatch,
            line,
        };
        if second || !is_told(refusal, found) {
            return Ok(found);
        }
        if self.is_on_circle(alloc, at)? {
            Ok(Some(refusal))
        } else {
            Ok(found)
        }
    }
}

fn is_told(refusal: Refusal, found: Option<Refusal>) -> bool
    ensures { result ≡ is_told refusal found }
{
    match found {
        None => true,
        Some(found) => is_before(refusal, found),
    }
}

/// What is refused of the named types: a second one of a name, a missing name in a body, and a type that contains itself.
pub fn of_types(alloc: Global, tables: &Tables) -> Result<Option<Refusal>, OutOfMemory>
    ensures { IfOk result (λ r. r ≡ least (repeated [] (map type_entry tables.now.types) ++ flat_map (of_type tables.now) tables.now.types)) }
{
    let types = tables.module().types.as_slice();
    let names = names_of(alloc, types)?;
    let graph = Graph::of(alloc, all_parts(alloc, &names, types)?)?;
    let mut found = None;
    for (at, def) in types.iter().enumerate() {
        let second = !stands_at(&names, def.name.as_slice(), at);
        let named = earlier(found, if_second(second, def.line));
        let typed = earlier(named, refused_at(def.line, in_type(tables, &def.body)));
        found = graph.with_circle(alloc, at, def.line, second, typed)?;
    }
    Ok(found)
}
