//! Arguments of a launch.
ghost use Rattle.std.specs.Prelude.{◌≡◌, ◌<◌, ◌≤◌, ◌-◌, ◌^◌, Some, length, option_map, option_and_then, replicate, IfOk, IfSome, MatchOption, None, true};
ghost use Rattle.ir_core.specs.Numbers.{fits, modulo};
ghost use Rattle.ir_core.specs.declared.types.Ty.TheVariants.{Int as IntTy};
ghost use Rattle.mem_model.specs.Memory.{block_limit};
ghost use Rattle.mem_model.specs.Launching.{buffer_size};
ghost use Rattle.run_text.specs.Lines.{behind, numeral, hex_value, hex_bytes};
ghost use Rattle.run_text.specs.LaunchText.{NumberForm, arg_form, arg_for, number_form, positive, sized, formed_arg, surplus};
ghost use Rattle.run_text.specs.Capped.{capped};
ghost use Rattle.run_text.specs.Replies.{Answers};
ghost use Rattle.run_text.specs.Forms.{HasWidth, held, held_surplus, spelled, pair_byte, IsNextByte, zeros_text, bytes_text};

use crate::launch::LaunchFaultKind;
use crate::lines::{behind, numeral};
use ir_core::{List, Name, Or, OutOfMemory, Ty};
use mem_model::Arg;
use std::alloc::Global;

/// What an argument line says. A number above 64 bits is 2^64 here.
#[derive(Drop)]
pub(crate) enum Form {
    /// So many bytes, all 0.
    Zeros(u128),
    Bytes(List<u8>),
    Null,
    Number { is_negative: bool, magnitude: u128 },
}

fn hex_value(digit: u8) -> Option<u8>
    ensures value { result ≡ hex_value digit }
    ensures small { IfSome result (λ v. v < 16) }
{
    match digit {
        b'0'..=b'9' => Some(digit - b'0'),
        b'a'..=b'f' => Some(digit - b'a' + 10),
        b'A'..=b'F' => Some(digit - b'A' + 10),
        _ => None,
    }
}

/// The byte that two hexadecimal digits spell.
fn pair_byte(high: u8, low: u8) -> Option<u8>
    ensures { result ≡ pair_byte (hex_value high) (hex_value low) }
{
    let high = hex_value(high)?;
    let low = hex_value(low)?;
    Some(16 * high + low)
}

/// The byte that the first two digits spell, and the digits behind them.
fn next_byte(digits: &[u8]) -> Option<(u8, &[u8])>
    requires { 0 < length digits.now }
    ensures { MatchOption result (hex_bytes digits.now ≡ None) (λ p. IsNextByte digits.now p.0 p.1.now) }
{
    match digits {
        [high, low, rest @ ..] => match pair_byte(*high, *low) {
            Some(byte) => Some((byte, rest)),
            None => None,
        },
        _ => None,
    }
}

/// The bytes that pairs of hexadecimal digits spell.
fn hex_bytes(alloc: Global, digits: &[u8]) -> Result<Option<List<u8>>, OutOfMemory>
    ensures { IfOk result (λ o. o ≡ hex_bytes digits.now) }
{
    let mut out = List::new(alloc);
    let mut rest = digits;
    'pairs: while !rest.is_empty() {
        let Some((byte, after)) = next_byte(rest) else {
            return Ok(None);
        };
        out.push(byte)?;
        rest = after;
    }
    Ok(Some(out))
}

fn positive(number: Option<u128>) -> Option<u128>
    ensures { result ≡ positive number }
{
    match number {
        Some(0) => None,
        other => other,
    }
}

/// The number behind these first bytes.
pub(crate) fn numeral_behind(front: &[u8], line: &[u8]) -> Option<u128>
    ensures { result ≡ option_map capped (option_and_then numeral (behind front.now line.now)) }
{
    match behind(front, line) {
        Some(digits) => numeral(digits),
        None => None,
    }
}

/// A number, with a `-` before it where it is below 0.
fn number_form(digits: &[u8]) -> Option<Form>
    ensures { result ≡ option_map held (number_form digits.now) }
{
    if let Some(magnitude) = numeral(digits) {
        return Some(Form::Number {
            is_negative: false,
            magnitude,
        });
    }
    match positive(numeral_behind(b"-".as_slice(), digits)) {
        Some(magnitude) => Some(Form::Number {
            is_negative: true,
            magnitude,
        }),
        None => None,
    }
}

/// `arg zeros N`.
fn zeros_form(line: &[u8]) -> Option<Form>
    ensures { result ≡ option_map held (zeros_text line.now) }
{
    match positive(numeral_behind(b"arg zeros ".as_slice(), line)) {
        Some(size) => Some(Form::Zeros(size)),
        None => None,
    }
}

/// `arg bytes HEX`.
fn bytes_form(alloc: Global, line: &[u8]) -> Result<Option<Form>, OutOfMemory>
    ensures { IfOk result (λ o. o ≡ option_map held (bytes_text line.now)) }
{
    let Some(digits) = behind(b"arg bytes ".as_slice(), line) else {
        return Ok(None);
    };
    match hex_bytes(alloc, digits)? {
        Some(bytes) => {
            if bytes.is_empty() {
                Ok(None)
            } else {
                Ok(Some(Form::Bytes(bytes)))
            }
        }
        None => Ok(None),
    }
}

/// The form of an argument line.
pub(crate) fn read_form(alloc: Global, line: &[u8]) -> Result<Option<Form>, OutOfMemory>
    ensures { IfOk result (λ o. o ≡ option_map held (arg_form line.now)) }
{
    if let Some(form) = zeros_form(line) {
        return Ok(Some(form));
    }
    if let Some(form) = bytes_form(alloc, line)? {
        return Ok(Some(form));
    }
    if line == b"arg null".as_slice() {
        return Ok(Some(Form::Null));
    }
    match behind(b"arg int ".as_slice(), line) {
        Some(digits) => Ok(number_form(digits)),
        None => Ok(None),
    }
}

fn block_limit() -> u32
    ensures value { result ≡ block_limit }
    ensures small { result < 2 ^ 31 }
{
    1_048_576
}

/// A buffer of so many bytes, all 0, where so many are left for all buffers.
fn zeros_arg(alloc: Global, left: u32, size: u128) -> Result<Arg, Or<LaunchFaultKind>>
    ensures { Answers (sized left size (replicate size 0)) result }
{
    if size > u128::from(block_limit()) || size > u128::from(left) {
        return Err(Or::Refused(LaunchFaultKind::ArgumentSize));
    }
    let zeros = vec![in alloc; 0; size as usize]?;
    Ok(Arg::Buffer(Name::from_slice(alloc, zeros.as_slice())?))
}

/// A buffer of these bytes, where so many are left for all buffers.
fn bytes_arg(alloc: Global, left: u32, bytes: &[u8]) -> Result<Arg, Or<LaunchFaultKind>>
    ensures { Answers (sized left (length bytes.now) bytes.now) result }
{
    if bytes.len() > block_limit() as usize || bytes.len() > left as usize {
        return Err(Or::Refused(LaunchFaultKind::ArgumentSize));
    }
    Ok(Arg::Buffer(Name::from_slice(alloc, bytes)?))
}

fn power(exponent: u32) -> u128
    requires { exponent ≤ 64 }
    ensures { result ≡ 2 ^ exponent }
{
    1 << exponent
}

/// Whether a number is of the integer type of this width, with a sign or without.
fn is_of_width(width: u32, is_negative: bool, magnitude: u128) -> bool
    requires low { 1 ≤ width }
    requires high { width ≤ 64 }
    ensures { result ≡ fits width is_negative magnitude }
{
    if is_negative {
        magnitude <= power(width - 1)
    } else {
        magnitude < power(width)
    }
}

/// A number of this width modulo two to it.
fn wrapped(width: u32, is_negative: bool, magnitude: u128) -> u64
    requires low { 1 ≤ width }
    requires high { width ≤ 64 }
    requires within { fits width is_negative magnitude ≡ true }
    ensures { result ≡ modulo width is_negative magnitude }
{
    let size = power(width);
    if is_negative {
        ((size - magnitude) % size) as u64
    } else {
        (magnitude % size) as u64
    }
}

fn int_arg(width: u32, is_negative: bool, magnitude: u128) -> Result<Arg, Or<LaunchFaultKind>>
    requires { HasWidth (IntTy width) }
    ensures { Answers (arg_for 0 (IntTy width) (NumberForm is_negative magnitude)) result }
{
    if is_of_width(width, is_negative, magnitude) {
        Ok(Arg::Int(wrapped(width, is_negative, magnitude)))
    } else {
        Err(Or::Refused(LaunchFaultKind::ArgumentForm))
    }
}

/// The argument for a parameter of this type, where so many bytes are left for all buffers.
pub(crate) fn arg_for(
    alloc: Global,
    left: u32,
    ty: &Ty,
    form: &Form,
) -> Result<Arg, Or<LaunchFaultKind>>
    requires { HasWidth ty.now }
    ensures { Answers (arg_for left ty.now (spelled form.now)) result }
{
    match (ty, form) {
        (Ty::Ptr, Form::Zeros(size)) => zeros_arg(alloc, left, *size),
        (Ty::Ptr, Form::Bytes(bytes)) => bytes_arg(alloc, left, bytes.as_slice()),
        (Ty::Ptr, Form::Null) => Ok(Arg::Null),
        (
            Ty::Int(width),
            Form::Number {
                is_negative,
                magnitude,
            },
        ) => int_arg(*width, *is_negative, *magnitude),
        _ => Err(Or::Refused(LaunchFaultKind::ArgumentForm)),
    }
}

/// The argument that a line spells for a parameter of this type, where so many bytes are left for all buffers.
pub(crate) fn read_arg(
    alloc: Global,
    left: u32,
    ty: &Ty,
    line: &[u8],
) -> Result<Arg, Or<LaunchFaultKind>>
    requires { HasWidth ty.now }
    ensures { Answers (formed_arg left ty.now (arg_form line.now)) result }
{
    match read_form(alloc, line)? {
        Some(form) => arg_for(alloc, left, ty, &form),
        None => Err(Or::Refused(LaunchFaultKind::LineForm)),
    }
}

fn surplus_of(form: &Option<Form>) -> LaunchFaultKind
    ensures { result ≡ held_surplus form.now }
{
    match form {
        Some(_) => LaunchFaultKind::ArgumentCount,
        None => LaunchFaultKind::LineForm,
    }
}

/// What is wrong with an argument line that is one too many.
pub(crate) fn surplus(alloc: Global, line: &[u8]) -> Result<LaunchFaultKind, OutOfMemory>
    ensures { IfOk result (λ k. k ≡ surplus (arg_form line.now)) }
{
    let form = read_form(alloc, line)?;
    Ok(surplus_of(&form))
}

/// How many bytes are left for all buffers behind an argument.
pub(crate) fn left_behind(left: u32, arg: &Arg) -> u32
    ensures { result ≡ left - buffer_size arg.now }
{
    match arg {
        Arg::Buffer(bytes) => {
            let size = bytes.as_slice().len();
            if size < left as usize {
                left - size as u32
            } else {
                0
            }
        }
        _ => left,
    }
}
