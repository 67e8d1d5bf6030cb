//! The walk over a wrapper's instructions.
ghost use Rattle.std.specs.Prelude.{◌≡◌, ◌∷◌, [], option_map, IfOk, OnOk, None, false, if◌then◌else◌};
ghost use Rattle.std.specs.Option.{option_copied};
ghost use Rattle.ir_core.specs.FirstForm.{is_function, is_ptr};
ghost use Rattle.ir_core.specs.Wrappers.{captures_of};
ghost use Rattle.shapes.specs.Walk as spec;
ghost use Rattle.wrapper_shapes.specs.Seen.{form_seen, forms_seen, given_seen, slot_seen, known_seen, known_in, read_after, walk_seen, went};

use crate::slots::{
    Form, Given, Known, Slot, address_in, area_in, converted, form_at, form_of, given_known,
    is_slot_with, new_slot, number_at, stored_in, taken_from,
};
use indexmap::{IndexMap, IndexSet};
use ir_core::{Function, Inst, Kind, List, Name, OutOfMemory, Param, Rtl, Ty, Typed, Value};
use name_tables::is_ptr;
use std::alloc::Global;

/// What the registers are, whether the captured words were asked for, which of them were read, and in which forms they
/// were passed on.
#[derive(Drop)]
pub struct Walk {
    known: IndexMap<Vec<u8>, Known>,
    asked: bool,
    read: IndexSet<u64>,
    passed: Option<List<Form>>,
}

fn known_in(known: &IndexMap<Vec<u8>, Known>, name: &[u8]) -> Option<Known>
    ensures { option_map known_seen result ≡ known_in known.now name.now }
{
    known.get(name).copied()
}

/// Whether an operand is the global or the function of a name.
pub fn is_function(name: &[u8], value: &Value) -> bool
    ensures { result ≡ is_function name.now value.now }
{
    match value {
        Value::Global(found) => found.as_slice() == name,
        _ => false,
    }
}

/// How many words a region function captures.
pub fn captures_of(region: Option<&Function>) -> u64
    ensures { result ≡ captures_of (option_copied region.entry) }
{
    match region {
        None => 0,
        Some(region) => region.params.len().saturating_sub(2) as u64,
    }
}

impl Walk {
    /// A walk to which nothing is known.
    fn empty(alloc: Global) -> Walk
        ensures { walk_seen result ≡ spec.no_walk }
    {
        Walk {
            known: IndexMap::new(alloc),
            asked: false,
            read: IndexSet::new(alloc),
            passed: None,
        }
    }

    /// The walk before the first instruction: the two parameters of a wrapper are known.
    pub fn first(alloc: Global, params: &[Param]) -> Result<Walk, OutOfMemory>
        ensures { IfOk result (λ w. walk_seen w ≡ spec.first_walk params.now) }
    {
        let mut walk = Walk::empty(alloc);
        match params {
            [zero, thread] => {
                walk.set(alloc, &zero.name, Known::Is(Given::Zero))?;
                walk.set(alloc, &thread.name, Known::Is(Given::Thread))?;
                Ok(walk)
            }
            _ => Ok(walk),
        }
    }

    fn known_of(&self, value: &Value) -> Option<Known>
        ensures { option_map known_seen result ≡ spec.known_of (walk_seen self.now) value.now }
    {
        match value {
            Value::Local(name) => known_in(&self.known, name.as_slice()),
            _ => None,
        }
    }

    fn given_of(&self, value: &Value) -> Option<Given>
        ensures { option_map given_seen result ≡ spec.given_of (walk_seen self.now) value.now }
    {
        match value {
            Value::Int(n) => Some(Given::Number(*n)),
            _ => given_known(self.known_of(value)),
        }
    }

    fn set(&mut self, alloc: Global, name: &Name, known: Known) -> Result<(), OutOfMemory>
        ensures { OnOk result (walk_seen self.new ≡ spec.with_known name.now (known_seen known) (walk_seen self.old)) }
    {
        let key = Vec::from_slice(alloc, name.as_slice())?;
        match self.known.insert(key, known) {
            Ok(_) => Ok(()),
            Err(_) => Err(OutOfMemory),
        }
    }

    /// The register that takes an instruction's result is known from here on. The walk ends where nothing is known of
    /// it.
    fn give(
        &mut self,
        alloc: Global,
        register: &Option<Name>,
        known: Option<Known>,
    ) -> Result<bool, OutOfMemory>
        ensures { IfOk result (λ goes. went goes (walk_seen self.new) ≡ option_map (λ k. spec.with_result register.now k (walk_seen self.old)) (option_map known_seen known)) }
    {
        let Some(known) = known else {
            return Ok(false);
        };
        if let Some(name) = register {
            self.set(alloc, name, known)?;
        }
        Ok(true)
    }

    /// The register of a slot's address is that of this slot from here on.
    fn put(&mut self, alloc: Global, at: &Value, slot: Option<Slot>) -> Result<bool, OutOfMemory>
        ensures { IfOk result (λ goes. went goes (walk_seen self.new) ≡ spec.with_slot at.now (walk_seen self.old) (option_map slot_seen slot)) }
    {
        match (at, slot) {
            (Value::Local(name), Some(slot)) => {
                self.set(alloc, name, Known::Stack(slot))?;
                Ok(true)
            }
            _ => Ok(false),
        }
    }

    // ---- stores and loads

    fn store(&mut self, alloc: Global, value: &Typed, at: &Value) -> Result<bool, OutOfMemory>
        ensures { IfOk result (λ goes. went goes (walk_seen self.new) ≡ spec.with_slot at.now (walk_seen self.old) (spec.stored_in (spec.known_of (walk_seen self.old) at.now) (spec.given_of (walk_seen self.old) value.now.value) (spec.form_of value.now.ty))) }
    {
        let slot = stored_in(
            self.known_of(at),
            self.given_of(&value.value),
            form_of(&value.ty),
        );
        self.put(alloc, at, slot)
    }

    fn has_read(&self, place: u64) -> bool
        ensures { result ≡ spec.is_among (walk_seen self.now).read place }
    {
        self.read.contains(&place)
    }

    /// A word that wasn't read before is read.
    fn note_read(&mut self, place: u64) -> Result<(), OutOfMemory>
        requires { spec.is_among (walk_seen self.old).read place ≡ false }
        ensures { OnOk result (walk_seen self.new ≡ record (walk_seen self.old) { read = place ∷ (walk_seen self.old).read }) }
    {
        match self.read.insert(place) {
            Ok(_) => Ok(()),
            Err(_) => Err(OutOfMemory),
        }
    }

    /// The word at a place below the number of captures, which wasn't read before.
    fn read_word(
        &mut self,
        alloc: Global,
        captures: u64,
        register: &Option<Name>,
        place: u64,
        form: Form,
    ) -> Result<bool, OutOfMemory>
        ensures { IfOk result (λ goes. went goes (walk_seen self.new) ≡ spec.read_word captures (walk_seen self.old) register.now place (form_seen form)) }
    {
        if place < captures && !self.has_read(place) {
            self.note_read(place)?;
            self.give(alloc, register, Some(Known::Is(Given::Word(place, form))))
        } else {
            Ok(false)
        }
    }

    fn load(
        &mut self,
        alloc: Global,
        captures: u64,
        register: &Option<Name>,
        form: Option<Form>,
        at: Option<Known>,
    ) -> Result<bool, OutOfMemory>
        ensures { IfOk result (λ goes. went goes (walk_seen self.new) ≡ spec.loaded captures (walk_seen self.old) register.now (option_map form_seen form) (option_map known_seen at)) }
    {
        let Some(form) = form else {
            return Ok(false);
        };
        match at {
            Some(Known::Stack(slot)) => self.give(alloc, register, taken_from(slot, form)),
            Some(Known::Is(Given::Area)) => self.read_word(alloc, captures, register, 0, form),
            Some(Known::Is(Given::Address(place))) => {
                self.read_word(alloc, captures, register, place, form)
            }
            _ => Ok(false),
        }
    }

    // ---- calls

    /// The captured words are asked for, once.
    fn ask(&mut self, alloc: Global, args: &[Typed]) -> Result<bool, OutOfMemory>
        ensures { IfOk result (λ goes. went goes (walk_seen self.new) ≡ spec.asks (walk_seen self.old) args.now) }
    {
        match args {
            [at] => {
                if self.asked {
                    return Ok(false);
                }
                let slot = area_in(self.known_of(&at.value));
                self.asked = true;
                self.put(alloc, &at.value, slot)
            }
            _ => Ok(false),
        }
    }

    /// The forms of the captured words, each in its place.
    fn forms_of(&self, alloc: Global, words: &[Typed]) -> Result<Option<List<Form>>, OutOfMemory>
        ensures { IfOk result (λ forms. option_map forms_seen forms ≡ spec.forms_from (walk_seen self.now) 0 words.now) }
    {
        let mut forms = List::new(alloc);
        for (place, word) in words.iter().enumerate() {
            match form_at(place as u64, self.known_of(&word.value)) {
                None => return Ok(None),
                Some(form) => forms.push(form)?,
            }
        }
        Ok(Some(forms))
    }

    /// The thread's number, a zero, and the captured words: the forms of these.
    fn passes(&self, alloc: Global, args: &[Typed]) -> Result<Option<List<Form>>, OutOfMemory>
        ensures { IfOk result (λ forms. option_map forms_seen forms ≡ spec.passes (walk_seen self.now) args.now) }
    {
        match args {
            [thread, bound, words @ ..] => {
                if is_slot_with(Given::Thread, self.known_of(&thread.value))
                    && is_slot_with(Given::Number(0), self.known_of(&bound.value))
                {
                    self.forms_of(alloc, words)
                } else {
                    Ok(None)
                }
            }
            _ => Ok(None),
        }
    }

    /// The region function is called, once.
    fn call_region(&mut self, alloc: Global, args: &[Typed]) -> Result<bool, OutOfMemory>
        ensures { IfOk result (λ goes. went goes (walk_seen self.new) ≡ spec.calls_region (walk_seen self.old) (walk_seen self.old).passed args.now) }
    {
        if self.passed.is_some() {
            return Ok(false);
        }
        match self.passes(alloc, args)? {
            None => Ok(false),
            Some(forms) => {
                self.passed = Some(forms);
                Ok(true)
            }
        }
    }

    fn call(
        &mut self,
        alloc: Global,
        region: Option<&Function>,
        callee: &Value,
        args: &[Typed],
    ) -> Result<bool, OutOfMemory>
        ensures { IfOk result (λ goes. went goes (walk_seen self.new) ≡ spec.called (option_copied region.entry) (walk_seen self.old) callee.now args.now) }
    {
        if is_function(Rtl::GetSharedVariables.name(), callee) {
            return self.ask(alloc, args);
        }
        match region {
            None => Ok(false),
            Some(region) => {
                if is_function(region.name.as_slice(), callee) {
                    self.call_region(alloc, args)
                } else {
                    Ok(false)
                }
            }
        }
    }

    // ---- addresses and conversions

    fn goes_to(&self, ty: &Ty, base: &Value, path: &[Typed]) -> Option<Known>
        ensures { option_map known_seen result ≡ (if is_ptr ty.now then spec.address_in (spec.given_of (walk_seen self.now) base.now) (spec.number_at path.now) else None) }
    {
        if is_ptr(ty) {
            address_in(self.given_of(base), number_at(path))
        } else {
            None
        }
    }

    // ---- the walk

    /// Whether the walk goes on behind an instruction of a wrapper with this region function.
    pub fn step(
        &mut self,
        alloc: Global,
        region: Option<&Function>,
        inst: &Inst,
    ) -> Result<bool, OutOfMemory>
        ensures { IfOk result (λ goes. went goes (walk_seen self.new) ≡ spec.step_kind (captures_of (option_copied region.entry)) (option_copied region.entry) (walk_seen self.old) inst.now.result inst.now.kind) }
    {
        let register = &inst.result;
        match &inst.kind {
            Kind::Alloca { ty, .. } => self.give(alloc, register, new_slot(ty)),
            Kind::Store {
                value,
                at,
                order: None,
                ..
            } => self.store(alloc, value, &at.value),
            Kind::Load {
                ty,
                at,
                order: None,
                ..
            } => {
                let known = self.known_of(&at.value);
                self.load(alloc, captures_of(region), register, form_of(ty), known)
            }
            Kind::Gep { ty, base, path, .. } => {
                let known = self.goes_to(ty, &base.value, path.as_slice());
                self.give(alloc, register, known)
            }
            Kind::Cast { op, from, to } => {
                let known = converted(*op, self.given_of(&from.value), form_of(to));
                self.give(alloc, register, known)
            }
            Kind::Call { callee, args, .. } => self.call(alloc, region, callee, args.as_slice()),
            Kind::Ret { value: None } => Ok(true),
            _ => Ok(false),
        }
    }

    /// The forms in which the captured words were passed on.
    pub fn into_passed(self) -> Option<List<Form>>
        ensures { option_map forms_seen result ≡ (walk_seen self).passed }
    {
        self.passed
    }
}
