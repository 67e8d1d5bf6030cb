//! Arithmetic on integers of a width (LLVM Language Reference, "Binary Operations", "Bitwise Binary Operations", "icmp").
//!
//! A number of width w is kept as a whole number below 2 to w. Every operation computes on whole numbers of 128 bits,
//! where none overflows, so that one text serves all widths.
ghost use Rattle.std.specs.Prelude.{◌≡◌, ℕ, ◌+◌, ◌-◌, ◌*◌, ◌/◌, ◌%◌, ◌^◌, ◌<◌, ◌≤◌, ◌≢◌, ℤ, pos, neg_ℤ, ◌*ℤ◌, FitsSigned, unsigned_abs, int_div, int_rem, true, not, ◌&&◌, ◌==◌};
ghost use Rattle.std.specs.Int.{w64};
ghost use Rattle.ir_core.specs.FirstForm.{is_width};
ghost use Rattle.mem_model.specs.Eval as spec;
ghost use Rattle.mem_model.specs.Eval.{Eval, is_ordered, signed};

use crate::step::Trap;
use ir_core::{BinOp, Flags, Pred};

/// The value of a binary operation on numbers of a width, or the trap (LLVM Language Reference, "Binary Operations" and
/// "Bitwise Binary Operations").
///
/// The width is 1, 8, 16, 32 or 64, and both numbers are below 2 to the width.
///
/// # Errors
///
/// `Overflow` where a flag says that the value fits, or that nothing is lost, and it doesn't or is; `Division` where the
/// divisor is 0, or the least number is divided by -1 with signs; `Shift` where the shift is by the width or more.
pub fn eval(op: BinOp, flags: Flags, width: u32, a: u64, b: u64) -> Result<u64, Trap>
    requires width { is_width width ≡ true }
    requires fits { (a < 2 ^ width) × (b < 2 ^ width) }
    ensures { result ≡ Eval op flags width a b }
{
    match op {
        BinOp::Add => add(flags, width, a, b),
        BinOp::Sub => subtract(flags, width, a, b),
        BinOp::Mul => multiply(flags, width, a, b),
        BinOp::Shl => shift_left(flags, width, a, b),
        BinOp::UDiv => divide_unsigned(flags, width, a, b),
        BinOp::SDiv => divide_signed(flags, width, a, b),
        BinOp::LShr => shifted_right(flags, width, a, i128::from(a), b),
        BinOp::AShr => shifted_right(flags, width, a, exact(width, a), b),
        BinOp::URem => remainder_unsigned(width, a, b),
        BinOp::SRem => remainder_signed(width, a, b),
        BinOp::And => Ok(a & b),
        BinOp::Or => Ok(a | b),
        BinOp::Xor => Ok(a ^ b),
    }
}

/// Whether two numbers of a width are in the order that the predicate names (LLVM Language Reference, "icmp").
///
/// The width is 1, 8, 16, 32 or 64, and both numbers are below 2 to the width.
pub fn compare(pred: Pred, width: u32, a: u64, b: u64) -> bool
    requires width { is_width width ≡ true }
    requires fits { (a < 2 ^ width) × (b < 2 ^ width) }
    ensures { result ≡ is_ordered pred width a b }
{
    match pred {
        Pred::Eq => a == b,
        Pred::Ne => a != b,
        Pred::Ugt => a > b,
        Pred::Uge => a >= b,
        Pred::Ult => a < b,
        Pred::Ule => a <= b,
        Pred::Sgt => sign_extend(width, a) > sign_extend(width, b),
        Pred::Sge => sign_extend(width, a) >= sign_extend(width, b),
        Pred::Slt => sign_extend(width, a) < sign_extend(width, b),
        Pred::Sle => sign_extend(width, a) <= sign_extend(width, b),
    }
}

/// The number that the width's bits stand for, where the highest bit is the sign.
///
/// The width is 1, 8, 16, 32 or 64, and the number is below 2 to the width.
pub fn sign_extend(width: u32, n: u64) -> i64
    requires width { is_width width ≡ true }
    requires fits { n < 2 ^ width }
    ensures { result ≡ signed width n }
{
    if u128::from(n) < power(width - 1) {
        n as i64
    } else {
        (i128::from(n) - power(width) as i128) as i64
    }
}

/// Two to this power.
pub(crate) fn power(exponent: u32) -> u128
    requires { exponent ≤ 64 }
    ensures { result ≡ 2 ^ exponent }
{
    1u128 << exponent
}

/// What is left of a number in the width's bits.
pub(crate) fn low_bits(width: u32, n: u128) -> u64
    requires { width ≤ 64 }
    ensures { result ≡ n % 2 ^ width }
{
    (n & (power(width) - 1)) as u64
}

/// What is left of a number in the width's bits, where one below zero counts from 2 to the width down.
///
/// The width is 64 at most.
pub fn wrapped(width: u32, z: i128) -> u64
    requires { width ≤ 64 }
    ensures value { result ≡ spec.wrapped width z }
    ensures fits { result < 2 ^ width }
{
    low_bits(width, z.cast_unsigned())
}

/// Whether a number can be read with a sign from the width's bits.
fn fits_signed(width: u32, z: i128) -> bool
    requires { (0 < width) × (width ≤ 64) }
    ensures { result ≡ spec.fits_signed width z }
{
    let half = power(width - 1) as i128;
    -half <= z && z < half
}

/// The number that the width's bits stand for with a sign, in 128 bits.
fn exact(width: u32, n: u64) -> i128
    requires width { is_width width ≡ true }
    requires fits { n < 2 ^ width }
    ensures value { result ≡ signed width n }
    ensures small { FitsSigned w64 result }
{
    i128::from(sign_extend(width, n))
}

/// A sum, a difference, a product or a number shifted to the left: `whole` is its value modulo two to the width, and
/// `fits` says whether it fits, where the operands are read without a sign; `signed_value` is its value where they are read with one.
///
/// It traps as `Overflow` where a flag says that it fits, and it doesn't.
fn checked(
    flags: Flags,
    width: u32,
    whole: u128,
    fits: bool,
    signed_value: i128,
) -> Result<u64, Trap>
    requires { (0 < width) × (width ≤ 64) }
    ensures { (value : (ℕ → ℤ) → ℤ)
        → spec.wrapped width (value pos) ≡ whole % 2 ^ width
        → spec.fits_unsigned width (value pos) ≡ fits
        → value (signed width) ≡ signed_value
        → result ≡ spec.checked flags width value }
{
    if flags.nuw && !fits {
        return Err(Trap::Overflow);
    }
    if flags.nsw && !fits_signed(width, signed_value) {
        return Err(Trap::Overflow);
    }
    Ok(low_bits(width, whole))
}

/// `add`.
fn add(flags: Flags, width: u32, a: u64, b: u64) -> Result<u64, Trap>
    requires width { is_width width ≡ true }
    requires fits { (a < 2 ^ width) × (b < 2 ^ width) }
    ensures { result ≡ Eval BinOp.Add flags width a b }
{
    let whole = u128::from(a) + u128::from(b);
    let signed = exact(width, a) + exact(width, b);
    checked(flags, width, whole, whole < power(width), signed)
}

/// `sub`.
fn subtract(flags: Flags, width: u32, a: u64, b: u64) -> Result<u64, Trap>
    requires width { is_width width ≡ true }
    requires fits { (a < 2 ^ width) × (b < 2 ^ width) }
    ensures { result ≡ Eval BinOp.Sub flags width a b }
{
    let whole = u128::from(a) + power(width) - u128::from(b);
    let signed = exact(width, a) - exact(width, b);
    checked(flags, width, whole, b <= a, signed)
}

/// The product of a number with another, which is `by` where both are read without a sign and `signed_by` where they are
/// read with one.
fn multiplied(flags: Flags, width: u32, a: u64, by: u64, signed_by: i128) -> Result<u64, Trap>
    requires width { is_width width ≡ true }
    requires fits { a < 2 ^ width }
    requires small { unsigned_abs signed_by ≤ 2 ^ 63 }
    ensures { (value : (ℕ → ℤ) → ℤ)
        → value pos ≡ pos (a * by)
        → value (signed width) ≡ signed width a *ℤ signed_by
        → result ≡ spec.checked flags width value }
{
    let whole = u128::from(a) * u128::from(by);
    let signed = exact(width, a) * signed_by;
    checked(flags, width, whole, whole < power(width), signed)
}

/// `mul`.
fn multiply(flags: Flags, width: u32, a: u64, b: u64) -> Result<u64, Trap>
    requires width { is_width width ≡ true }
    requires fits { (a < 2 ^ width) × (b < 2 ^ width) }
    ensures { result ≡ Eval BinOp.Mul flags width a b }
{
    multiplied(flags, width, a, b, exact(width, b))
}

/// `shl`. A shift is by less than the width, and traps as `Shift` else.
fn shift_left(flags: Flags, width: u32, a: u64, b: u64) -> Result<u64, Trap>
    requires width { is_width width ≡ true }
    requires fits { (a < 2 ^ width) × (b < 2 ^ width) }
    ensures { result ≡ Eval BinOp.Shl flags width a b }
{
    if b >= u64::from(width) {
        return Err(Trap::Shift);
    }
    let by = power(b as u32);
    multiplied(flags, width, a, by as u64, by as i128)
}

/// A number shifted to the right and rounded down, of which `a` has the bits; the flag says that no 1 bit goes out.
fn shifted_right(flags: Flags, width: u32, a: u64, x: i128, b: u64) -> Result<u64, Trap>
    requires width { width ≤ 64 }
    ensures { result ≡ spec.shift width b (spec.shifted_right flags width a x b) }
{
    if b >= u64::from(width) {
        return Err(Trap::Shift);
    }
    if flags.exact && low_bits(b as u32, u128::from(a)) != 0 {
        return Err(Trap::Overflow);
    }
    Ok(wrapped(width, x >> b))
}

/// The quotient towards zero; the flag says that nothing is left.
fn quotient(flags: Flags, width: u32, x: i128, y: i128) -> Result<u64, Trap>
    requires width { width ≤ 64 }
    requires small { unsigned_abs x < 2 ^ 64 }
    requires divides { y ≢ pos 0 }
    ensures { result ≡ spec.quotient flags width x y }
{
    if flags.exact && x % y != 0 {
        return Err(Trap::Overflow);
    }
    Ok(wrapped(width, x / y))
}

/// What is left of a division, with the sign of the dividend.
fn remainder(width: u32, x: i128, y: i128) -> u64
    requires width { width ≤ 64 }
    requires small { unsigned_abs x < 2 ^ 64 }
    requires divides { y ≢ pos 0 }
    ensures { result ≡ spec.wrapped width (int_rem x y) }
{
    wrapped(width, x % y)
}

/// `udiv`. There is no division by 0.
fn divide_unsigned(flags: Flags, width: u32, a: u64, b: u64) -> Result<u64, Trap>
    requires { width ≤ 64 }
    ensures { result ≡ spec.unsigned_division a b (spec.quotient flags width) }
{
    if b == 0 {
        return Err(Trap::Division);
    }
    quotient(flags, width, i128::from(a), i128::from(b))
}

/// `urem`. There is no division by 0.
fn remainder_unsigned(width: u32, a: u64, b: u64) -> Result<u64, Trap>
    requires { width ≤ 64 }
    ensures { result ≡ spec.unsigned_division a b (spec.remainder width) }
{
    if b == 0 {
        return Err(Trap::Division);
    }
    Ok(remainder(width, i128::from(a), i128::from(b)))
}

/// Tests a division with signs: the divisor isn't 0, and the quotient fits, which that of the least number by -1 doesn't.
fn divisible(width: u32, a: u64, b: u64) -> bool
    requires width { is_width width ≡ true }
    requires fits { (a < 2 ^ width) × (b < 2 ^ width) }
    ensures { result ≡ (not (b == 0) && spec.fits_signed width (int_div (signed width a) (signed width b))) }
{
    b != 0 && fits_signed(width, exact(width, a) / exact(width, b))
}

/// `sdiv`.
fn divide_signed(flags: Flags, width: u32, a: u64, b: u64) -> Result<u64, Trap>
    requires width { is_width width ≡ true }
    requires fits { (a < 2 ^ width) × (b < 2 ^ width) }
    ensures { result ≡ spec.signed_division width a b (spec.quotient flags width) }
{
    if !divisible(width, a, b) {
        return Err(Trap::Division);
    }
    quotient(flags, width, exact(width, a), exact(width, b))
}

/// `srem`. It traps where the division does.
fn remainder_signed(width: u32, a: u64, b: u64) -> Result<u64, Trap>
    requires width { is_width width ≡ true }
    requires fits { (a < 2 ^ width) × (b < 2 ^ width) }
    ensures { result ≡ spec.signed_division width a b (spec.remainder width) }
{
    if !divisible(width, a, b) {
        return Err(Trap::Division);
    }
    Ok(remainder(width, exact(width, a), exact(width, b)))
}
