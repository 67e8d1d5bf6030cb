//! The text of functions.
ghost use Rattle.std.specs.Prelude.{◌≡◌, ◌++◌, codes, map, OnOk};
ghost use Rattle.std.specs.List.{flat_map};
ghost use Rattle.ir_core.specs.Text.{comma_list, block_text, param_text, param_type_text, function_text};
ghost use Rattle.ir_print.specs.Parts.{declaration_text, definition_heading, definition_text, heading_start, heading_end};

use crate::names::{write_global_name, write_local, write_name};
use crate::types::write_type;
use crate::writer::{Printed, Writer};
use ir_core::{Block, Function, OutOfMemory, Param};

impl Printed for Block {
    ghost text = { block_text };

    fn print(&self, out: &mut Writer) -> Result<(), OutOfMemory> {
        write_name(out, &self.name)?;
        out.text(":\n")?;
        out.each(self.insts.as_slice())
    }
}

impl Printed for Param {
    ghost text = { param_text };

    fn print(&self, out: &mut Writer) -> Result<(), OutOfMemory> {
        write_type(out, &self.ty)?;
        out.text(" ")?;
        write_local(out, &self.name)
    }
}

/// Writes the types of parameters with commas between them.
fn write_param_types(out: &mut Writer, params: &[Param]) -> Result<(), OutOfMemory>
    ensures { OnOk result (out.new ≡ out.old ++ comma_list (map param_type_text params.now)) }
{
    match params.split_first() {
        None => Ok(()),
        Some((first, rest)) => {
            write_type(out, &first.ty)?;
            for param in rest {
                out.text(", ")?;
                write_type(out, &param.ty)?;
            }
            Ok(())
        }
    }
}

/// Writes a heading up to its parameters.
fn write_heading_start(out: &mut Writer, function: &Function) -> Result<(), OutOfMemory>
    ensures { OnOk result (out.new ≡ out.old ++ heading_start function.now) }
{
    out.spaced_words(function.words.as_slice())?;
    write_type(out, &function.ret)?;
    out.text(" ")?;
    write_global_name(out, &function.name)?;
    out.text("(")
}

/// Writes a heading from the end of its parameters on.
fn write_heading_end(out: &mut Writer, function: &Function) -> Result<(), OutOfMemory>
    ensures { OnOk result (out.new ≡ out.old ++ heading_end function.now) }
{
    out.text(")")?;
    out.led_words(function.groups.as_slice())
}

fn write_declaration(out: &mut Writer, function: &Function) -> Result<(), OutOfMemory>
    ensures { OnOk result (out.new ≡ out.old ++ declaration_text function.now) }
{
    out.text("declare ")?;
    write_heading_start(out, function)?;
    write_param_types(out, function.params.as_slice())?;
    write_heading_end(out, function)?;
    out.text("\n")
}

/// Writes blocks between braces.
fn write_blocks(out: &mut Writer, blocks: &[Block]) -> Result<(), OutOfMemory>
    ensures { OnOk result (out.new ≡ out.old ++ codes " {\n" ++ flat_map block_text blocks.now ++ codes "}\n") }
{
    out.text(" {\n")?;
    out.each(blocks)?;
    out.text("}\n")
}

#[tactic(auto, unfolding(crate::specs::Parts::definition_heading))]
fn write_definition_heading(out: &mut Writer, function: &Function) -> Result<(), OutOfMemory>
    ensures { OnOk result (out.new ≡ out.old ++ definition_heading function.now) }
{
    out.text("define ")?;
    write_heading_start(out, function)?;
    out.parted(", ", function.params.as_slice())?;
    write_heading_end(out, function)
}

fn write_definition(out: &mut Writer, function: &Function) -> Result<(), OutOfMemory>
    ensures { OnOk result (out.new ≡ out.old ++ definition_text function.now) }
{
    write_definition_heading(out, function)?;
    write_blocks(out, function.blocks.as_slice())
}

impl Printed for Function {
    ghost text = { function_text };

    #[tactic(auto, using(crate::proofs::Bodies::of_function))]
    fn print(&self, out: &mut Writer) -> Result<(), OutOfMemory> {
        if self.blocks.is_empty() {
            write_declaration(out, self)
        } else {
            write_definition(out, self)
        }
    }
}
