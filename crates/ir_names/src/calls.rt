//! What is refused of a call.
#![tactic(auto, using(name_tables::proofs::ConstructLaws::least_append, crate::proofs::KeptLaws::least_callee))]

ghost use Rattle.std.specs.Prelude.{◌≡◌, List as Listed, ℕ, Some, option_map};
ghost use Rattle.std.specs.List.{flat_map};
ghost use Rattle.ir_core.specs.EntryPoints.{is_entry_point};
ghost use Rattle.ir_core.specs.Typing.{in_kind, calls, calls_symbol, calls_local, same_result, are_arguments, is_output, if_unknown, if_output, if_declared, is_fork, operand_in, scope_of};
ghost use Rattle.name_tables.specs.Tables.{symbol_seen};
ghost use Rattle.name_tables.specs.Least.{least_of};
ghost use Rattle.ir_core.specs.Given.{Routine};
ghost use Rattle.ir_names.specs.Operands.{kept_callee};

use crate::operands::{in_type, operand_in};
use ir_core::{
    Block, Construct, Function, Kind, List, Name, Param, Rtl, TailWord, Ty, Typed, Value,
};
use name_tables::{Local, Scope, Symbol, expects, is_void, lesser, same_scalar};

/// Whether the name is an entry point's of the device runtime.
pub fn is_entry_point(name: &Name) -> bool
    ensures { result ≡ is_entry_point name.now }
{
    Rtl::of(name).is_some()
}

fn is_output(name: &Name) -> bool
    ensures { result ≡ is_output name.now }
{
    let name = name.as_slice();
    name == b"__kmpc_kernel_parallel".as_slice()
        || name == b"__kmpc_kernel_end_parallel".as_slice()
        || name == b"__kmpc_barrier_simple_spmd".as_slice()
        || name == b"__kmpc_barrier_simple_generic".as_slice()
        || name == b"__kmpc_get_hardware_thread_id_in_block".as_slice()
}

/// Whether both are `void` or the same scalar type.
pub fn same_result(a: &Ty, b: &Ty) -> bool
    ensures { result ≡ same_result a.now b.now }
{
    if is_void(a) {
        is_void(b)
    } else {
        same_scalar(a, b)
    }
}

fn are_arguments(params: &[Param], operands: &[Typed]) -> bool
    ensures { result ≡ are_arguments params.now operands.now }
{
    if params.len() != operands.len() {
        return false;
    }
    for i in 0..params.len() {
        if !same_scalar(&params[i].ty, &operands[i].ty) {
            return false;
        }
    }
    true
}

fn if_unknown(name: &Name) -> Option<Construct>
    ensures { result ≡ least_of (if_unknown name.now) }
{
    if is_entry_point(name) {
        None
    } else {
        Some(Construct::UnknownCallee)
    }
}

/// `mode_intrinsic` for the name of an entry point that the optimiser alone writes.
pub fn if_output(name: &Name) -> Option<Construct>
    ensures { result ≡ least_of (if_output name.now) }
{
    if is_output(name) {
        Some(Construct::ModeIntrinsic)
    } else {
        None
    }
}

fn if_declared(name: &Name, blocks: &[Block]) -> Option<Construct>
    ensures { result ≡ least_of (if_declared blocks.now (if_unknown name.now)) }
{
    match blocks {
        [] => if_unknown(name),
        _ => None,
    }
}

fn calls_function(name: &Name, ret: &Ty, operands: &[Typed], f: &Function) -> Option<Construct>
    ensures { result ≡ least_of (calls_symbol name.now ret.now operands.now (Some (Routine f.now))) }
{
    let is_typed = same_result(&f.ret, ret) && are_arguments(f.params.as_slice(), operands);
    let declared = if_declared(name, f.blocks.as_slice());
    lesser(lesser(expects(is_typed), declared), if_output(name))
}

fn calls_symbol(
    name: &Name,
    ret: &Ty,
    operands: &[Typed],
    symbol: Option<Symbol>,
) -> Option<Construct>
    ensures { result ≡ least_of (calls_symbol name.now ret.now operands.now (option_map symbol_seen symbol.entry)) }
{
    match symbol {
        None => Some(Construct::MissingName),
        Some(Symbol::Variable) => Some(Construct::TypeMismatch),
        Some(Symbol::Routine(f)) => calls_function(name, ret, operands, f),
    }
}

fn calls_local(local: Option<Local>) -> Option<Construct>
    ensures { result ≡ least_of (kept_callee local) }
{
    match local {
        None => Some(Construct::MissingName),
        Some(Local::Register(_)) => Some(Construct::IndirectCall),
        Some(Local::Label(_)) => Some(Construct::TypeMismatch),
    }
}

fn calls(s: &Scope, ret: &Ty, callee: &Value, operands: &[Typed]) -> Option<Construct>
    ensures { result ≡ least_of (calls (scope_of s.now.0 s.now.1) ret.now callee.now operands.now) }
{
    match callee {
        Value::Global(name) => calls_symbol(name, ret, operands, s.tables().symbol(name)),
        Value::Local(name) => calls_local(s.local(name)),
        _ => Some(Construct::TypeMismatch),
    }
}

fn is_fork(callee: &Value) -> bool
    ensures { result ≡ is_fork callee.now }
{
    match callee {
        Value::Global(name) => name.as_slice() == b"__kmpc_parallel_51".as_slice(),
        _ => false,
    }
}

/// What is refused of each operand; a function's name is one in a fork alone.
pub fn each_operand(in_fork: bool, s: &Scope, operands: &[Typed]) -> Option<Construct>
    ensures { result ≡ least_of (flat_map (operand_in in_fork (scope_of s.now.0 s.now.1)) operands.now) }
{
    let mut found = None;
    for v in operands {
        found = lesser(found, operand_in(in_fork, s, v));
    }
    found
}

/// What is refused of a call.
pub fn call(
    s: &Scope,
    tail: TailWord,
    ret: &Ty,
    callee: &Value,
    operands: &List<Typed>,
) -> Option<Construct>
    ensures { (block : Listed ℕ) → result ≡ least_of (in_kind (scope_of s.now.0 s.now.1) block (Kind.Call tail ret.now callee.now operands.now)) }
{
    let callee_refused = calls(s, ret, callee, operands.as_slice());
    let called = lesser(in_type(s.tables(), ret), callee_refused);
    lesser(
        called,
        each_operand(is_fork(callee), s, operands.as_slice()),
    )
}
