//! Names of operands.
ghost use Rattle.std.specs.Prelude.{◌≡◌, ◌++◌, OnOk};
ghost use Rattle.std.specs.List.{flat_map};
ghost use Rattle.ir_core.specs.Wrappers.{value_names};
ghost use Rattle.ir_tables.specs.Names.{names_seen};
ghost use Rattle.shapes.specs.Uses.{edge_names, case_names, operand_names, typed_names};

use ir_core::{Case, Edge, List, OutOfMemory, Typed, Value};

/// The name that an operand is, if it is that of a global or a function.
pub fn add_value<'a>(names: &mut List<&'a [u8]>, value: &'a Value) -> Result<(), OutOfMemory>
    ensures { OnOk result (names_seen names.new ≡ names_seen names.old ++ value_names value.now) }
{
    if let Value::Global(name) = value {
        names.push(name.as_slice())?;
    }
    Ok(())
}

pub fn add_pair<'a>(
    names: &mut List<&'a [u8]>,
    first: &'a Value,
    second: &'a Value,
) -> Result<(), OutOfMemory>
    ensures { OnOk result (names_seen names.new ≡ names_seen names.old ++ (value_names first.now ++ value_names second.now)) }
{
    add_value(names, first)?;
    add_value(names, second)
}

pub fn add_operands<'a>(
    names: &mut List<&'a [u8]>,
    operands: &'a [Typed],
) -> Result<(), OutOfMemory>
    ensures { OnOk result (names_seen names.new ≡ names_seen names.old ++ flat_map operand_names operands.now) }
{
    for operand in operands {
        add_value(names, &operand.value)?;
    }
    Ok(())
}

pub fn add_edges<'a>(names: &mut List<&'a [u8]>, edges: &'a [Edge]) -> Result<(), OutOfMemory>
    ensures { OnOk result (names_seen names.new ≡ names_seen names.old ++ flat_map edge_names edges.now) }
{
    for edge in edges {
        add_value(names, &edge.value)?;
    }
    Ok(())
}

pub fn add_cases<'a>(names: &mut List<&'a [u8]>, cases: &'a [Case]) -> Result<(), OutOfMemory>
    ensures { OnOk result (names_seen names.new ≡ names_seen names.old ++ flat_map case_names cases.now) }
{
    for case in cases {
        add_value(names, &case.value.value)?;
    }
    Ok(())
}

pub fn add_optional<'a>(
    names: &mut List<&'a [u8]>,
    value: &'a Option<Typed>,
) -> Result<(), OutOfMemory>
    ensures { OnOk result (names_seen names.new ≡ names_seen names.old ++ typed_names value.now) }
{
    match value {
        None => Ok(()),
        Some(operand) => add_value(names, &operand.value),
    }
}
