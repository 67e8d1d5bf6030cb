//! What a global holds at first: its initializer by the layout of its type, with zero bytes as padding.
ghost use Rattle.std.specs.Prelude.{◌≡◌, ◌≤◌, ◌<◌, ◌-◌, ◌++◌, ◌∷◌, [], map, IfOk, OnOk, length, replicate};
ghost use Rattle.std.specs.List.{flat_map, fold};
ghost use Rattle.ir_core.specs.Layout.{Size, aligned};
ghost use Rattle.mem_model.specs.declared.memory.Byte.TheVariants.{Num};
ghost use Rattle.mem_model.specs.Words.{cell_size, number_bytes, parts_from};
ghost use Rattle.mem_model.specs.Values.{cell_of};
ghost use Rattle.mem_model.specs.Globals.{contents};
ghost use Rattle.first_memory.specs.Contents.{value_bytes, element_bytes, address_bytes, with_element};

use ir_core::{Element, Init, Name, OutOfMemory, Ty};
use ir_tables::Indexed;
use mem_model::{BlockName, Byte, Ptr};
use std::alloc::Global;

/// Appends a byte.
fn add(out: &mut Vec<Byte>, byte: Byte) -> Result<(), OutOfMemory>
    ensures { OnOk result (out.new.items ≡ out.old.items ++ byte ∷ []) }
{
    match out.push(byte) {
        Ok(()) => Ok(()),
        Err(_) => Err(OutOfMemory),
    }
}

/// Appends the bytes of a number, the lowest first.
fn add_number(out: &mut Vec<Byte>, size: u64, number: u64) -> Result<(), OutOfMemory>
    ensures { OnOk result (out.new.items ≡ out.old.items ++ number_bytes size number) }
{
    let mut rest = number;
    for _turn in 0..size {
        add(out, Byte::Num((rest % 256) as u8))?;
        rest /= 256;
    }
    Ok(())
}

/// How many bytes a value of a scalar type takes.
fn value_size(ty: &Ty) -> u64
    ensures { result ≡ cell_size (cell_of ty.now) }
{
    match ty {
        Ty::Int(width) => (u64::from(*width) + 7) / 8,
        _ => 8,
    }
}

/// Appends the eight parts of a pointer.
fn add_parts(out: &mut Vec<Byte>, pointer: Ptr) -> Result<(), OutOfMemory>
    ensures { OnOk result (out.new.items ≡ out.old.items ++ parts_from 8 0 pointer) }
{
    for part in 0..8 {
        add(out, Byte::Part(pointer, part))?;
    }
    Ok(())
}

/// A place as the number in a block's name; want of memory for 2^32 or more, which no name has.
pub(crate) fn number_of(place: usize) -> Result<u32, OutOfMemory>
    ensures { IfOk result (λ n. n ≡ place) }
{
    match u32::try_from(place) {
        Ok(number) => Ok(number),
        Err(_) => Err(OutOfMemory),
    }
}

/// Appends the address of a global, or of a function's code.
fn add_address(out: &mut Vec<Byte>, name: &Name, m: &Indexed) -> Result<(), OutOfMemory>
    ensures { OnOk result (out.new.items ≡ out.old.items ++ address_bytes m.now name.now) }
{
    if let Some(place) = m.global(name) {
        return add_parts(out, Ptr::At(BlockName::Global(number_of(place)?), 0));
    }
    match m.function(name) {
        Some(place) => add_parts(out, Ptr::At(BlockName::Code(number_of(place)?), 0)),
        None => Ok(()),
    }
}

/// Appends zero bytes, until so many stand behind the place `base`.
fn pad(out: &mut Vec<Byte>, base: usize, size: u64) -> Result<(), OutOfMemory>
    requires { base ≤ length out.old.items }
    ensures { OnOk result (out.new.items ≡ out.old.items ++ replicate (size - (length out.old.items - base)) (Num 0)) }
{
    let missing = size.saturating_sub((out.len() - base) as u64);
    for _turn in 0..missing {
        add(out, Byte::Num(0))?;
    }
    Ok(())
}

/// Appends bytes as they stand.
pub(crate) fn add_bytes(out: &mut Vec<Byte>, bytes: &[u8]) -> Result<(), OutOfMemory>
    ensures { OnOk result (out.new.items ≡ out.old.items ++ map Num bytes.now) }
{
    for byte in bytes {
        add(out, Byte::Num(*byte))?;
    }
    Ok(())
}

/// How many bytes a value of a type takes; want of memory where they are 2^64-1 or more.
fn size_of(m: &Indexed, ty: &Ty) -> Result<u64, OutOfMemory>
    ensures { IfOk result (λ n. n ≡ Size m.now.types ty.now) }
{
    let size = m.size_of(ty);
    if size == u64::MAX {
        Err(OutOfMemory)
    } else {
        Ok(size)
    }
}

/// Appends what an initializer gives a value of a type, without the padding behind it.
#[cycle(add_value)]
fn add_value(out: &mut Vec<Byte>, init: &Init, ty: &Ty, m: &Indexed) -> Result<(), OutOfMemory>
    ensures { OnOk result (out.new.items ≡ out.old.items ++ value_bytes m.now ty.now init.now) }
{
    match init {
        Init::Zero => Ok(()),
        Init::Int(number) => add_number(out, value_size(ty), *number),
        Init::Null => add_number(out, 8, 0),
        Init::Addr(name) => add_address(out, name, m),
        Init::Bytes(bytes) => add_bytes(out, bytes.as_slice()),
        Init::Square(elements) => add_items(out, elements.as_slice(), m),
        Init::Braces(elements) => add_fields(out, elements.as_slice(), m),
    }
}

/// Appends an element, as many bytes as its type takes.
#[cycle(add_value)]
fn add_element(out: &mut Vec<Byte>, element: &Element, m: &Indexed) -> Result<(), OutOfMemory>
    ensures { OnOk result (out.new.items ≡ out.old.items ++ element_bytes m.now element.now) }
{
    let base = out.len();
    add_value(out, &element.init, &element.ty, m)?;
    pad(out, base, size_of(m, &element.ty)?)
}

/// Appends the items of an array.
#[cycle(add_value)]
fn add_items(out: &mut Vec<Byte>, elements: &[Element], m: &Indexed) -> Result<(), OutOfMemory>
    ensures { OnOk result (out.new.items ≡ out.old.items ++ flat_map (element_bytes m.now) elements.now) }
{
    for element in elements {
        add_element(out, element, m)?;
    }
    Ok(())
}

/// Appends the fields of a struct, each at its alignment.
#[cycle(add_value)]
fn add_fields(out: &mut Vec<Byte>, elements: &[Element], m: &Indexed) -> Result<(), OutOfMemory>
    ensures { OnOk result (out.new.items ≡ out.old.items ++ fold (with_element m.now) [] elements.now) }
{
    let base = out.len();
    for element in elements {
        let behind = (out.len() - base) as u64;
        pad(out, base, next_multiple(behind, m.align_of(&element.ty))?)?;
        add_element(out, element, m)?;
    }
    Ok(())
}

/// The least multiple of the alignment that isn't below a number.
fn next_multiple(number: u64, align: u64) -> Result<u64, OutOfMemory>
    requires { 0 < align }
    ensures { IfOk result (λ n. n ≡ aligned number align) }
{
    match number.checked_add(align - 1) {
        Some(end) => Ok(end / align * align),
        None => Err(OutOfMemory),
    }
}

/// What a global holds at first; nothing without an initializer.
pub(crate) fn contents_of(
    alloc: Global,
    m: &Indexed,
    global: &ir_core::Global,
) -> Result<Vec<Byte>, OutOfMemory>
    ensures { IfOk result (λ bytes. bytes.items ≡ contents m.now global.now.ty global.now.init) }
{
    let mut out = Vec::new(alloc);
    if let Some(init) = &global.init {
        add_value(&mut out, init, &global.ty, m)?;
        pad(&mut out, 0, size_of(m, &global.ty)?)?;
    }
    Ok(out)
}
