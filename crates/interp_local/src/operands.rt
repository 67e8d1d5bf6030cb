//! Operands of the innermost call as words, and the words that plain instructions give.
ghost use Rattle.std.specs.Prelude.{◌≡◌, ℕ, ◌<◌, ◌≤◌, ◌^◌, ◌&&◌, nat_lt, true, IfOk, Some, Ok, option_map};
ghost use Rattle.ir_core.specs.FirstForm.{is_width};
ghost use Rattle.ir_core.specs.Places.{place_in};
ghost use Rattle.mem_model.specs.Eval.{same_word, compared, truth};
ghost use Rattle.mem_model.specs.Answers.{IsCell};
ghost use Rattle.mem_model.specs.Values as spec;
ghost use Rattle.thread_state.specs.Moves.{names_of};
ghost use Rattle.interp_local.specs.Operands as read;
ghost use Rattle.interp_local.specs.Operands.{AreFew, registers};

use ir_core::{BinOp, CastOp, Flags, Name, Pred, Ty, Typed, Value};
use ir_tables::Indexed;
use mem_model::{BlockName, Cell, Ptr, Trap, Word, compare, eval, sign_extend, wrapped};
use thread_state::ThreadState;

/// The place of a register of the innermost call.
pub(crate) fn register(m: &Indexed, s: &ThreadState, name: &Name) -> Option<usize>
    ensures { result ≡ place_in (names_of m.now s.now) name.now }
{
    match s.frames.last() {
        None => None,
        Some(frame) => m.register(frame.function, name),
    }
}

/// The beginning of a global, or of a function's code.
fn address(m: &Indexed, name: &Name) -> Result<Word, Trap>
    requires { AreFew m.now }
    ensures { result ≡ spec.value_word m.now (λ x. None) (Value.Global name.now) }
{
    if let Some(place) = m.global(name) {
        return Ok(Word::Ptr(Ptr::At(BlockName::Global(place as u32), 0)));
    }
    match m.function(name) {
        Some(place) => Ok(Word::Ptr(Ptr::At(BlockName::Code(place as u32), 0))),
        None => Err(Trap::Unreachable),
    }
}

/// The word of a value.
pub(crate) fn value_word(m: &Indexed, s: &ThreadState, value: &Value) -> Result<Word, Trap>
    requires { AreFew m.now }
    ensures { result ≡ spec.value_word m.now (registers m.now s.now) value.now }
{
    match value {
        Value::Int(number) => Ok(Word::Int(*number)),
        Value::Null => Ok(Word::Ptr(Ptr::Num(0))),
        Value::Local(name) => match s.value(register(m, s, name)) {
            Some(word) => Ok(word),
            None => Err(Trap::Unassigned),
        },
        Value::Global(name) => address(m, name),
    }
}

/// Whether integers of the type have a width, and the number is below two to it.
fn has_width(width: u32, number: u64) -> bool
    ensures { result ≡ (is_width width && nat_lt number (2 ^ width)) }
{
    match width {
        1 => number < 2,
        8 => number < 0x100,
        16 => number < 0x1_0000,
        32 => number < 0x1_0000_0000,
        64 => true,
        _ => false,
    }
}

/// Whether a word is of the type.
fn is_word_of(ty: &Ty, word: Word) -> bool
    ensures { result ≡ spec.is_word_of ty.now word }
{
    match (ty, word) {
        (Ty::Int(width), Word::Int(number)) => has_width(*width, number),
        (Ty::Ptr, Word::Ptr(_)) => true,
        _ => false,
    }
}

/// The word of an operand, which is of its type.
pub(crate) fn operand(m: &Indexed, s: &ThreadState, ty: &Ty, value: &Value) -> Result<Word, Trap>
    requires { AreFew m.now }
    ensures value { result ≡ spec.operand m.now (registers m.now s.now) ty.now value.now }
    ensures fits { IfOk result (λ word. spec.is_word_of ty.now word ≡ true) }
{
    let word = value_word(m, s, value)?;
    if is_word_of(ty, word) {
        Ok(word)
    } else {
        Err(Trap::Unreachable)
    }
}

/// How many bits a value of the type has; 64 where it is no integer.
pub(crate) fn width_of(ty: &Ty) -> u32
    ensures { result ≡ spec.width_of ty.now }
{
    match ty {
        Ty::Int(width) => *width,
        _ => 64,
    }
}

/// The number that an operand is.
pub(crate) fn number(m: &Indexed, s: &ThreadState, ty: &Ty, value: &Value) -> Result<u64, Trap>
    requires { AreFew m.now }
    ensures value { result ≡ read.number m.now (registers m.now s.now) ty.now value.now }
    ensures fits { IfOk result (λ n. (is_width (spec.width_of ty.now) ≡ true) × (n < 2 ^ spec.width_of ty.now)) }
{
    match operand(m, s, ty, value)? {
        Word::Int(number) => Ok(number),
        Word::Ptr(_) => Err(Trap::Unreachable),
    }
}

/// The pointer that an operand is.
pub(crate) fn pointer(m: &Indexed, s: &ThreadState, ty: &Ty, value: &Value) -> Result<Ptr, Trap>
    requires { AreFew m.now }
    ensures { result ≡ read.pointer m.now (registers m.now s.now) ty.now value.now }
{
    match operand(m, s, ty, value)? {
        Word::Int(_) => Err(Trap::Unreachable),
        Word::Ptr(pointer) => Ok(pointer),
    }
}

/// What an access of the type is of.
pub(crate) fn cell(ty: &Ty) -> Result<Cell, Trap>
    ensures value { result ≡ read.cell ty.now }
    ensures fits { IfOk result IsCell }
    ensures narrow { IfOk result (λ c. spec.width_of ty.now ≤ 64) }
{
    match ty {
        Ty::Int(width) if has_width(*width, 0) => Ok(Cell::Int(*width)),
        Ty::Ptr => Ok(Cell::Ptr),
        _ => Err(Trap::Unreachable),
    }
}

/// The word of a binary operation.
pub(crate) fn binary(
    m: &Indexed,
    s: &ThreadState,
    op: BinOp,
    flags: Flags,
    ty: &Ty,
    a: &Value,
    b: &Value,
) -> Result<Word, Trap>
    requires { AreFew m.now }
    ensures { result ≡ read.binary m.now (registers m.now s.now) op flags ty.now a.now b.now }
{
    let a = number(m, s, ty, a)?;
    let b = number(m, s, ty, b)?;
    let value = eval(op, flags, width_of(ty), a, b)?;
    Ok(Word::Int(value))
}

/// Whether words are the same: equal numbers, or the same pointer.
fn same_words(a: Word, b: Word) -> bool
    ensures { result ≡ same_word a b }
{
    match (a, b) {
        (Word::Int(a), Word::Int(b)) => a == b,
        (Word::Ptr(a), Word::Ptr(b)) => a == b,
        _ => false,
    }
}

/// What a condition gives for two words of a type; none for an order of pointers.
fn compare_words(pred: Pred, ty: &Ty, a: Word, b: Word) -> Option<bool>
    requires first { spec.is_word_of ty.now a ≡ true }
    requires second { spec.is_word_of ty.now b ≡ true }
    ensures { option_map truth result ≡ compared pred (spec.width_of ty.now) a b }
{
    match pred {
        Pred::Eq => Some(same_words(a, b)),
        Pred::Ne => Some(!same_words(a, b)),
        _ => match (a, b) {
            (Word::Int(a), Word::Int(b)) => Some(compare(pred, width_of(ty), a, b)),
            _ => None,
        },
    }
}

/// The word of a comparison.
pub(crate) fn comparison(
    m: &Indexed,
    s: &ThreadState,
    pred: Pred,
    ty: &Ty,
    a: &Value,
    b: &Value,
) -> Result<Word, Trap>
    requires { AreFew m.now }
    ensures { result ≡ read.comparison m.now (registers m.now s.now) pred ty.now a.now b.now }
{
    let a = operand(m, s, ty, a)?;
    let b = operand(m, s, ty, b)?;
    match compare_words(pred, ty, a, b) {
        Some(holds) => Ok(Word::Int(u64::from(holds))),
        None => Err(Trap::Unreachable),
    }
}

/// A number converted to a width.
fn convert_number(op: CastOp, from: &Ty, to: u32, number: u64) -> Result<Word, Trap>
    requires to { to ≤ 64 }
    requires fits { spec.is_word_of from.now (Word.Int number) ≡ true }
    ensures { result ≡ spec.converted op (spec.width_of from.now) to (Word.Int number) }
{
    match op {
        CastOp::ZExt => Ok(Word::Int(number)),
        CastOp::SExt => {
            let signed = sign_extend(width_of(from), number);
            Ok(Word::Int(wrapped(to, i128::from(signed))))
        }
        CastOp::Trunc => Ok(Word::Int(wrapped(to, i128::from(number)))),
        CastOp::IntToPtr => Ok(Word::Ptr(Ptr::Num(number))),
        CastOp::PtrToInt => Err(Trap::Unreachable),
    }
}

/// A pointer converted to a width.
fn convert_pointer(op: CastOp, to: u32, pointer: Ptr) -> Result<Word, Trap>
    requires { to ≤ 64 }
    ensures { (from : ℕ) → result ≡ spec.converted op from to (Word.Ptr pointer) }
{
    match (op, pointer) {
        (CastOp::PtrToInt, Ptr::Num(number)) => Ok(Word::Int(wrapped(to, i128::from(number)))),
        (CastOp::PtrToInt, Ptr::At(..)) => Err(Trap::NotNumber),
        _ => Err(Trap::Unreachable),
    }
}

/// The word of a conversion.
pub(crate) fn conversion(
    m: &Indexed,
    s: &ThreadState,
    op: CastOp,
    from: &Typed,
    to: &Ty,
) -> Result<Word, Trap>
    requires { AreFew m.now }
    ensures { result ≡ read.conversion m.now (registers m.now s.now) op from.now to.now }
{
    let word = operand(m, s, &from.ty, &from.value)?;
    let _cell = cell(to)?;
    match word {
        Word::Int(number) => convert_number(op, &from.ty, width_of(to), number),
        Word::Ptr(pointer) => convert_pointer(op, width_of(to), pointer),
    }
}

/// The word that is chosen by a condition.
pub(crate) fn selection(
    m: &Indexed,
    s: &ThreadState,
    cond: &Typed,
    a: &Typed,
    b: &Typed,
) -> Result<Word, Trap>
    requires { AreFew m.now }
    ensures { result ≡ read.selection m.now (registers m.now s.now) cond.now a.now b.now }
{
    let chosen = number(m, s, &cond.ty, &cond.value)?;
    let a = operand(m, s, &a.ty, &a.value)?;
    let b = operand(m, s, &b.ty, &b.value)?;
    Ok(if chosen == 0 { b } else { a })
}
