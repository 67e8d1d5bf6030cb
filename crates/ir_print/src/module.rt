//! The text of modules, their types and their globals.
ghost use Rattle.std.specs.Prelude.{◌≡◌, ◌≤◌, ◌++◌, codes, length, map, OnOk, IfOk};
ghost use Rattle.ir_core.specs.Formed.{Formed, ReadsBack};
ghost use Rattle.ir_core.specs.Text.{
  Text,
  all_led,
  in_spaces,
  init_text,
  initial_text,
  type_def_text,
  global_text,
  type_text,
};
ghost use Rattle.ir_core.specs.Tokens.{text_limit};
ghost use Rattle.ir_print.specs.Parts.{global_start};
ghost use Rattle.text_laws.specs.Elements.{element_text};

use crate::instructions::write_align;
use crate::names::{write_global_name, write_local, write_quoted};
use crate::operands::write_number;
use crate::types::write_type;
use crate::words::constness_word;
use crate::writer::{Printed, Writer};
use ir_core::{Element, Global, Init, List, Module, OutOfMemory, Ty, TypeDef};
use std::alloc::Global as Heap;

impl Printed for TypeDef {
    ghost text = { type_def_text };

    fn print(&self, out: &mut Writer) -> Result<(), OutOfMemory> {
        write_local(out, &self.name)?;
        out.text(" = type ")?;
        write_type(out, &self.body)?;
        out.text("\n")
    }
}

/// Writes an initializer of a type, without the type.
#[cycle(write_init)]
fn write_init(out: &mut Writer, init: &Init, ty: &Ty) -> Result<(), OutOfMemory>
    ensures { OnOk result (out.new ≡ out.old ++ init_text ty.now init.now) }
{
    match init {
        Init::Zero => out.text("zeroinitializer"),
        Init::Int(number) => write_number(out, ty, *number),
        Init::Null => out.text("null"),
        Init::Addr(name) => write_global_name(out, name),
        Init::Bytes(bytes) => {
            out.text("c")?;
            write_quoted(out, bytes.as_slice())
        }
        Init::Square(elements) => {
            out.text("[")?;
            write_elements(out, elements.as_slice())?;
            out.text("]")
        }
        Init::Braces(elements) => {
            out.text("{")?;
            write_elements(out, elements.as_slice())?;
            out.text("}")
        }
    }
}

/// Writes an element with its type.
#[cycle(write_init)]
fn write_element(out: &mut Writer, element: &Element) -> Result<(), OutOfMemory>
    ensures { OnOk result (out.new ≡ out.old ++ element_text element.now) }
{
    write_type(out, &element.ty)?;
    out.text(" ")?;
    write_init(out, &element.init, &element.ty)
}

/// Writes elements with commas between them and a space on each side.
#[cycle(write_init)]
fn write_elements(out: &mut Writer, elements: &[Element]) -> Result<(), OutOfMemory>
    ensures { OnOk result (out.new ≡ out.old ++ in_spaces (codes ", ") (map element_text elements.now)) }
{
    out.text(" ")?;
    match elements.split_first() {
        None => Ok(()),
        Some((first, rest)) => {
            write_element(out, first)?;
            for element in rest {
                out.text(", ")?;
                write_element(out, element)?;
            }
            out.text(" ")
        }
    }
}

/// Writes what a global holds at first, with a space before it.
fn write_initial(out: &mut Writer, ty: &Ty, init: &Option<Init>) -> Result<(), OutOfMemory>
    ensures { OnOk result (out.new ≡ out.old ++ initial_text ty.now init.now) }
{
    match init {
        None => Ok(()),
        Some(init) => {
            out.text(" ")?;
            write_init(out, init, ty)
        }
    }
}

/// Writes a global up to its type.
fn write_global_start(out: &mut Writer, global: &Global) -> Result<(), OutOfMemory>
    ensures { OnOk result (out.new ≡ out.old ++ global_start global.now) }
{
    write_global_name(out, &global.name)?;
    out.text(" = ")?;
    out.spaced_words(global.words.as_slice())?;
    out.text(constness_word(global.constant))?;
    out.text(" ")
}

impl Printed for Global {
    ghost text = { global_text };

    fn print(&self, out: &mut Writer) -> Result<(), OutOfMemory> {
        write_global_start(out, self)?;
        write_type(out, &self.ty)?;
        write_initial(out, &self.ty, &self.init)?;
        write_align(out, self.align)?;
        out.text("\n")
    }
}

/// The canonical text of the module. Where some text spells the module, and the canonical one is of at most 4,194,304 bytes,
/// reading it gives the module back, but for its lines.
pub fn print_module(alloc: Heap, m: &Module) -> Result<List<u8>, OutOfMemory>
    ensures text { IfOk result (λ text. text ≡ Text m.now) }
    ensures back { IfOk result (λ text. Formed m.now → length text ≤ text_limit → ReadsBack text m.now) }
{
    let mut out = Writer::new(alloc);
    out.lines(m.prelude.as_slice())?;
    out.each(m.types.as_slice())?;
    out.each(m.globals.as_slice())?;
    out.each(m.functions.as_slice())?;
    out.lines(m.tail.as_slice())?;
    Ok(out.into_list())
}
