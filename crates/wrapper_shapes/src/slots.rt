//! What a register or a slot of a wrapper can hold.
ghost use Rattle.std.specs.Prelude.{◌≡◌, option_map};
ghost use Rattle.shapes.specs.Walk as spec;
ghost use Rattle.wrapper_shapes.specs.Seen.{form_seen, given_seen, slot_seen, known_seen};

use ir_core::{CastOp, Ty, Typed, Value};
use name_tables::is_int_of;

/// How many bits of a captured word count, or that it is a pointer.
#[derive(Clone, Copy)]
pub enum Form {
    Bits(u32),
    Pointer,
}

/// What is held: the wrapper's own zero or thread number, a number, where the captured words stand or where one of
/// them does, and so much of a captured word.
#[derive(Clone, Copy)]
pub enum Given {
    Zero,
    Thread,
    Number(u64),
    Area,
    Address(u64),
    Word(u64, Form),
}

/// A slot of the stack: its type, how many bits of it were ever stored, and what it holds.
#[derive(Clone, Copy)]
pub struct Slot {
    pub form: Form,
    pub stored: u32,
    pub holds: Given,
}

/// What a register is.
#[derive(Clone, Copy)]
pub enum Known {
    /// The address of a slot of the stack.
    Stack(Slot),
    Is(Given),
}

pub fn form_of(ty: &Ty) -> Option<Form>
    ensures { option_map form_seen result ≡ spec.form_of ty.now }
{
    match ty {
        Ty::Int(width) => Some(Form::Bits(*width)),
        Ty::Ptr => Some(Form::Pointer),
        _ => None,
    }
}

fn bits(form: Form) -> u32
    ensures { result ≡ spec.bits (form_seen form) }
{
    match form {
        Form::Bits(n) => n,
        Form::Pointer => 64,
    }
}

fn is_pointer(form: Form) -> bool
    ensures { result ≡ spec.is_pointer (form_seen form) }
{
    match form {
        Form::Bits(_) => false,
        Form::Pointer => true,
    }
}

fn same_form(a: Form, b: Form) -> bool
    ensures { result ≡ spec.same_form (form_seen a) (form_seen b) }
{
    match (a, b) {
        (Form::Bits(n), Form::Bits(k)) => n == k,
        (Form::Pointer, Form::Pointer) => true,
        _ => false,
    }
}

/// Zero, the thread's number, a number and a word can be stored.
fn can_be_stored(given: Given) -> bool
    ensures { result ≡ spec.can_be_stored (given_seen given) }
{
    match given {
        Given::Area | Given::Address(_) => false,
        Given::Zero | Given::Thread | Given::Number(_) | Given::Word(_, _) => true,
    }
}

/// What is stored is no wider than the slot, and no narrower than what was stored before.
fn fits_slot(slot: Slot, form: Form) -> bool
    ensures { result ≡ spec.fits_slot (slot_seen slot) (form_seen form) }
{
    bits(form) <= bits(slot.form) && slot.stored <= bits(form)
}

/// The slot behind a store in it.
fn put_given(slot: Slot, given: Given, form: Form) -> Option<Slot>
    ensures { option_map slot_seen result ≡ spec.put_given (slot_seen slot) (given_seen given) (form_seen form) }
{
    if can_be_stored(given) && fits_slot(slot, form) {
        Some(Slot {
            form: slot.form,
            stored: bits(form),
            holds: given,
        })
    } else {
        None
    }
}

/// The area is a pointer, and a word is one exactly where the slot is.
fn is_loaded_as(form: Form, given: Given) -> bool
    ensures { result ≡ spec.is_loaded_as (form_seen form) (given_seen given) }
{
    match given {
        Given::Area => is_pointer(form),
        Given::Word(_, word) => is_pointer(form) == is_pointer(word),
        _ => true,
    }
}

/// What a load takes from a slot.
pub fn taken_from(slot: Slot, form: Form) -> Option<Known>
    ensures { option_map known_seen result ≡ spec.taken_from (slot_seen slot) (form_seen form) }
{
    if same_form(slot.form, form) && is_loaded_as(form, slot.holds) {
        Some(Known::Is(slot.holds))
    } else {
        None
    }
}

/// The slot whose address is taken, if it is one of a pointer.
fn pointer_slot(known: Option<Known>) -> Option<Slot>
    ensures { option_map slot_seen result ≡ spec.pointer_slot (option_map known_seen known) }
{
    match known {
        Some(Known::Stack(slot)) => {
            if is_pointer(slot.form) {
                Some(slot)
            } else {
                None
            }
        }
        _ => None,
    }
}

/// A slot of a pointer to where the captured words stand.
fn area_slot(slot: Slot) -> Slot
    ensures { slot_seen result ≡ spec.area_slot (slot_seen slot) }
{
    Slot {
        form: slot.form,
        stored: 64,
        holds: Given::Area,
    }
}

fn is_same_given(a: Given, b: Given) -> bool
    ensures { result ≡ spec.is_same_given (given_seen a) (given_seen b) }
{
    match (a, b) {
        (Given::Thread, Given::Thread) => true,
        (Given::Number(n), Given::Number(k)) => n == k,
        _ => false,
    }
}

/// Whether it is a slot of 32 bits that holds this.
pub fn is_slot_with(given: Given, known: Option<Known>) -> bool
    ensures { result ≡ spec.is_slot_with (given_seen given) (option_map known_seen known) }
{
    match known {
        Some(Known::Stack(slot)) => {
            same_form(slot.form, Form::Bits(32)) && is_same_given(given, slot.holds)
        }
        _ => false,
    }
}

/// The form of the word at a place, if it is that word.
pub fn form_at(place: u64, known: Option<Known>) -> Option<Form>
    ensures { option_map form_seen result ≡ spec.form_at place (option_map known_seen known) }
{
    match known {
        Some(Known::Is(Given::Word(n, form))) => { if n == place { Some(form) } else { None } }
        _ => None,
    }
}

/// What is known, if it is no slot.
pub fn given_known(known: Option<Known>) -> Option<Given>
    ensures { option_map given_seen result ≡ spec.given_known (option_map known_seen known) }
{
    match known {
        Some(Known::Is(given)) => Some(given),
        _ => None,
    }
}

/// The slot behind a store in it, where there is one and what is stored is known.
pub fn stored_in(known: Option<Known>, given: Option<Given>, form: Option<Form>) -> Option<Slot>
    ensures { option_map slot_seen result ≡ spec.stored_in (option_map known_seen known) (option_map given_seen given) (option_map form_seen form) }
{
    match (known, given, form) {
        (Some(Known::Stack(slot)), Some(given), Some(form)) => put_given(slot, given, form),
        _ => None,
    }
}

/// The slot that is made for a type: nothing was stored in it, and it holds a zero.
pub fn new_slot(ty: &Ty) -> Option<Known>
    ensures { option_map known_seen result ≡ option_map (λ f. spec.IsSlot (record { form = f; stored = 0; holds = spec.Number 0 })) (spec.form_of ty.now) }
{
    match form_of(ty) {
        None => None,
        Some(form) => Some(Known::Stack(Slot {
            form,
            stored: 0,
            holds: Given::Number(0),
        })),
    }
}

/// The slot in which the address of the captured words is put, if it is one of a pointer.
pub fn area_in(known: Option<Known>) -> Option<Slot>
    ensures { option_map slot_seen result ≡ option_map spec.area_slot (spec.pointer_slot (option_map known_seen known)) }
{
    match pointer_slot(known) {
        None => None,
        Some(slot) => Some(area_slot(slot)),
    }
}

fn number_of(value: &Value) -> Option<u64>
    ensures { result ≡ spec.number_of value.now }
{
    match value {
        Value::Int(n) => Some(*n),
        _ => None,
    }
}

/// The one index of a path, if it is a number of 64 bits.
pub fn number_at(path: &[Typed]) -> Option<u64>
    ensures { result ≡ spec.number_at path.now }
{
    match path {
        [index] => {
            if is_int_of(64, &index.ty) {
                number_of(&index.value)
            } else {
                None
            }
        }
        _ => None,
    }
}

/// The address of a captured word, counted from where they stand.
pub fn address_in(given: Option<Given>, place: Option<u64>) -> Option<Known>
    ensures { option_map known_seen result ≡ spec.address_in (option_map given_seen given) place }
{
    match (given, place) {
        (Some(Given::Area), Some(place)) => Some(Known::Is(Given::Address(place))),
        _ => None,
    }
}

fn cut(given: Option<Given>, form: Option<Form>) -> Option<Known>
    ensures { option_map known_seen result ≡ spec.cut (option_map given_seen given) (option_map form_seen form) }
{
    match (given, form) {
        (Some(Given::Word(place, Form::Bits(n))), Some(Form::Bits(width))) => {
            Some(Known::Is(Given::Word(place, Form::Bits(n.min(width)))))
        }
        _ => None,
    }
}

/// What a conversion makes of a captured word.
pub fn converted(op: CastOp, given: Option<Given>, form: Option<Form>) -> Option<Known>
    ensures { option_map known_seen result ≡ spec.converted op (option_map given_seen given) (option_map form_seen form) }
{
    match op {
        CastOp::Trunc | CastOp::ZExt => cut(given, form),
        CastOp::SExt | CastOp::IntToPtr | CastOp::PtrToInt => None,
    }
}
