//! Names in the contents of globals.
ghost use Rattle.std.specs.Prelude.{◌≡◌, ◌++◌, OnOk};
ghost use Rattle.std.specs.List.{flat_map};
ghost use Rattle.ir_tables.specs.Names.{names_seen};
ghost use Rattle.shapes.specs.Uses.{init_names, contents_names};
ghost use Rattle.name_uses.specs.Contents.{element_names, global_names};

use ir_core::{Element, Global, Init, List, OutOfMemory};

#[cycle(add_init)]
fn add_init<'a>(init: &'a Init, names: &mut List<&'a [u8]>) -> Result<(), OutOfMemory>
    ensures { OnOk result (names_seen names.new ≡ names_seen names.old ++ init_names init.now) }
{
    match init {
        Init::Addr(name) => {
            names.push(name.as_slice())?;
            Ok(())
        }
        Init::Square(parts) => add_parts(parts.as_slice(), names),
        Init::Braces(parts) => add_parts(parts.as_slice(), names),
        Init::Zero | Init::Int(_) | Init::Null | Init::Bytes(_) => Ok(()),
    }
}

#[cycle(add_init)]
fn add_parts<'a>(parts: &'a [Element], names: &mut List<&'a [u8]>) -> Result<(), OutOfMemory>
    ensures { OnOk result (names_seen names.new ≡ names_seen names.old ++ flat_map element_names parts.now) }
{
    for part in parts {
        add_init(&part.init, names)?;
    }
    Ok(())
}

fn add_contents<'a>(
    names: &mut List<&'a [u8]>,
    contents: &'a Option<Init>,
) -> Result<(), OutOfMemory>
    ensures { OnOk result (names_seen names.new ≡ names_seen names.old ++ contents_names contents.now) }
{
    match contents {
        None => Ok(()),
        Some(init) => add_init(init, names),
    }
}

/// The names in what globals hold at first.
pub fn add_globals<'a>(names: &mut List<&'a [u8]>, globals: &'a [Global]) -> Result<(), OutOfMemory>
    ensures { OnOk result (names_seen names.new ≡ names_seen names.old ++ flat_map global_names globals.now) }
{
    for global in globals {
        add_contents(names, &global.init)?;
    }
    Ok(())
}
