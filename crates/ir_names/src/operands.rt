//! What is refused of types and operands.
#![tactic(auto, using(name_tables::proofs::ConstructLaws::least_append, crate::proofs::KeptLaws::least_register, crate::proofs::KeptLaws::least_target))]

ghost use Rattle.std.specs.Prelude.{◌≡◌, option_map, ◌++◌, Some, None};
ghost use Rattle.std.specs.List.{flat_map};
ghost use Rattle.ir_core.specs.Typing.{in_type, as_symbol, value_in, operand_in, operand, pointer, target, scope_of};
ghost use Rattle.name_tables.specs.Tables.{symbol_seen};
ghost use Rattle.name_tables.specs.Least.{least_of};
ghost use Rattle.ir_names.specs.Operands.{as_kept, kept_target};

use ir_core::{Construct, Name, Ty, Typed, Value};
use name_tables::{Local, Scope, Symbol, Tables, expects, is_number_of, is_of, is_ptr, lesser};

/// What is refused of the names in a type.
#[cycle(in_type)]
pub fn in_type(tables: &Tables, ty: &Ty) -> Option<Construct>
    ensures { result ≡ least_of (in_type tables.now ty.now) }
{
    match ty {
        Ty::Void | Ty::Int(_) | Ty::Ptr => None,
        Ty::Array(_, item) => in_type(tables, item.get()),
        Ty::Struct(fields) => in_types(tables, fields.as_slice()),
        Ty::Named(name) => match tables.type_given(name) {
            None => Some(Construct::MissingName),
            Some(_) => None,
        },
    }
}

#[cycle(in_type)]
fn in_types(tables: &Tables, tys: &[Ty]) -> Option<Construct>
    ensures { result ≡ least_of (flat_map (in_type tables.now) tys.now) }
{
    let mut found = None;
    for ty in tys {
        found = lesser(found, in_type(tables, ty));
    }
    found
}

fn register(ty: &Ty, local: Option<Local>) -> Option<Construct>
    ensures { result ≡ least_of (as_kept ty.now local) }
{
    match local {
        None => Some(Construct::MissingName),
        Some(Local::Register(scalar)) => expects(is_of(scalar, ty)),
        Some(Local::Label(_)) => Some(Construct::TypeMismatch),
    }
}

/// What is refused of a value that is what a name of a global or a function stands for.
pub fn symbol(in_fork: bool, ty: &Ty, symbol: Option<Symbol>) -> Option<Construct>
    ensures { result ≡ least_of (as_symbol in_fork ty.now (option_map symbol_seen symbol.entry)) }
{
    match symbol {
        None => Some(Construct::MissingName),
        Some(Symbol::Variable) => expects(is_ptr(ty)),
        Some(Symbol::Routine(_)) => {
            if in_fork {
                expects(is_ptr(ty))
            } else {
                lesser(Some(Construct::IndirectCall), expects(is_ptr(ty)))
            }
        }
    }
}

/// What is refused of a value at a type; a function's name is one in a fork alone.
pub fn value_in(in_fork: bool, s: &Scope, ty: &Ty, value: &Value) -> Option<Construct>
    ensures { result ≡ least_of (value_in in_fork (scope_of s.now.0 s.now.1) ty.now value.now) }
{
    match value {
        Value::Int(n) => expects(is_number_of(*n, ty)),
        Value::Null => expects(is_ptr(ty)),
        Value::Local(name) => register(ty, s.local(name)),
        Value::Global(name) => symbol(in_fork, ty, s.tables().symbol(name)),
    }
}

/// What is refused of an operand; a function's name is one in a fork alone.
pub fn operand_in(in_fork: bool, s: &Scope, v: &Typed) -> Option<Construct>
    ensures { result ≡ least_of (operand_in in_fork (scope_of s.now.0 s.now.1) v.now) }
{
    lesser(
        in_type(s.tables(), &v.ty),
        value_in(in_fork, s, &v.ty, &v.value),
    )
}

/// What is refused of an operand outside a fork.
pub fn operand(s: &Scope, v: &Typed) -> Option<Construct>
    ensures { result ≡ least_of (operand (scope_of s.now.0 s.now.1) v.now) }
{
    operand_in(false, s, v)
}

/// What is refused of an operand that is an address.
pub fn pointer(s: &Scope, v: &Typed) -> Option<Construct>
    ensures { result ≡ least_of (pointer (scope_of s.now.0 s.now.1) v.now) }
{
    lesser(operand(s, v), expects(is_ptr(&v.ty)))
}

fn as_target(local: Option<Local>) -> Option<Construct>
    ensures { result ≡ least_of (kept_target local) }
{
    match local {
        None => Some(Construct::MissingName),
        Some(Local::Register(_)) => Some(Construct::TypeMismatch),
        Some(Local::Label(place)) => expects(place != 0),
    }
}

/// What is refused of the block that a branch names: it isn't the first.
pub fn target(s: &Scope, name: &Name) -> Option<Construct>
    ensures { result ≡ least_of (target (scope_of s.now.0 s.now.1) name.now) }
{
    as_target(s.local(name))
}
