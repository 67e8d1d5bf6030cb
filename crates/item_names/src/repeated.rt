//! Names that are given twice. Whether an entry of a list is a second one of its name is told by one look-up.
#![tactic(auto)]

ghost use Rattle.std.specs.Prelude.{◌≡◌, [], ◌∷◌, ◌++◌, map, IfOk, OnOk, if◌then◌else◌};
ghost use Rattle.ir_core.specs.NameRefusals.{least, repeated_by_line, global_names};
ghost use Rattle.name_tables.specs.Repeated.{if_second};
ghost use Rattle.item_names.specs.Repeated.{entries_seen, global_entry, function_entry, sooner, earliest_from, found_earliest, HasEarliest, is_earliest};

use indexmap::IndexMap;
use ir_core::{Construct, Function, List, Module, OutOfMemory, Refusal};
use name_tables::earlier;
use std::alloc::Global;

/// A name with its line.
type Entry<'a> = (&'a [u8], u32);

/// For each name where it stands first by line: the place in a list, and the line.
type FirstTable<'a> = IndexMap<&'a [u8], (usize, u32)>;

fn sooner(at: usize, line: u32, other: Option<(usize, u32)>) -> (usize, u32)
    ensures { result ≡ sooner (at, line) other }
{
    match other {
        None => (at, line),
        Some((place, before)) => {
            if before < line {
                (place, before)
            } else {
                (at, line)
            }
        }
    }
}

fn firsts_of<'a>(alloc: Global, entries: &[Entry<'a>]) -> Result<FirstTable<'a>, OutOfMemory>
    ensures { IfOk result (λ t. HasEarliest 0 (entries_seen entries.now) t) }
{
    let mut table = IndexMap::new(alloc);
    let mut at = entries.len();
    while at > 0 {
        at -= 1;
        let (name, line) = entries[at];
        let first = sooner(at, line, table.get(name).copied());
        match table.insert(name, first) {
            Ok(_) => {}
            Err(_) => return Err(OutOfMemory),
        }
    }
    Ok(table)
}

fn is_first(firsts: &FirstTable, name: &[u8], at: usize) -> bool
    ensures { result ≡ is_earliest at (found_earliest firsts.now name.now) }
{
    match firsts.get(name) {
        None => false,
        Some((place, _)) => *place == at,
    }
}

/// `duplicate_name` at the line of a second entry.
pub(crate) fn if_second(second: bool, line: u32) -> Option<Refusal>
    ensures { result ≡ least (if_second second line) }
{
    if second {
        Some(Refusal {
            construct: Construct::DuplicateName,
            line,
        })
    } else {
        None
    }
}

fn repeated_by_line(entries: &[Entry], firsts: &FirstTable) -> Option<Refusal>
    requires { HasEarliest 0 (entries_seen entries.now) firsts.now }
    ensures { result ≡ least (repeated_by_line [] (entries_seen entries.now)) }
{
    let mut found = None;
    for (at, (name, line)) in entries.iter().enumerate() {
        let second = !is_first(firsts, *name, at);
        found = earlier(found, if_second(second, *line));
    }
    found
}

fn add_globals<'a>(
    entries: &mut List<Entry<'a>>,
    globals: &'a [ir_core::Global],
) -> Result<(), OutOfMemory>
    ensures { OnOk result (entries_seen entries.new ≡ entries_seen entries.old ++ map global_entry globals.now) }
{
    for global in globals {
        entries.push((global.name.as_slice(), global.line))?;
    }
    Ok(())
}

fn add_functions<'a>(
    entries: &mut List<Entry<'a>>,
    functions: &'a [Function],
) -> Result<(), OutOfMemory>
    ensures { OnOk result (entries_seen entries.new ≡ entries_seen entries.old ++ map function_entry functions.now) }
{
    for function in functions {
        entries.push((function.name.as_slice(), function.line))?;
    }
    Ok(())
}

/// What is refused of the names of globals and functions together: one that is given twice, at the later line.
pub fn repeated_symbols(alloc: Global, m: &Module) -> Result<Option<Refusal>, OutOfMemory>
    ensures { IfOk result (λ r. r ≡ least (repeated_by_line [] (global_names m.now))) }
{
    let mut entries = List::new(alloc);
    add_globals(&mut entries, m.globals.as_slice())?;
    add_functions(&mut entries, m.functions.as_slice())?;
    let firsts = firsts_of(alloc, entries.as_slice())?;
    Ok(repeated_by_line(entries.as_slice(), &firsts))
}
