//! What a fork names.
ghost use Rattle.std.specs.Prelude.{◌≡◌, option_map};
ghost use Rattle.mem_model.specs.Regions as spec;
ghost use Rattle.captures.specs.Forks.{fork_seen};

use ir_core::{Typed, Value};
use ir_tables::Indexed;

/// The region function and its wrapper, by their places among the module's functions, and how many words are captured.
#[derive(Clone, Copy)]
pub struct Fork {
    pub function: usize,
    pub wrapper: usize,
    pub count: u64,
}

/// The place of the function that an operand names.
fn function_named(m: &Indexed, value: &Value) -> Option<usize>
    ensures { result ≡ spec.function_named m.now value.now }
{
    match value {
        Value::Global(name) => m.function(name),
        _ => None,
    }
}

/// The number that an operand is.
fn number_given(value: &Value) -> Option<u64>
    ensures { result ≡ spec.number_given value.now }
{
    match value {
        Value::Int(number) => Some(*number),
        _ => None,
    }
}

/// What a fork with these operands names: a location, a thread number, `if`, `num_threads`, `proc_bind`, the region function, its wrapper,
/// the words and their number. None where they are other operands, a function isn't the module's, or the number of words isn't a constant.
pub fn fork_of(m: &Indexed, args: &[Typed]) -> Option<Fork>
    ensures { option_map fork_seen result ≡ spec.fork_of m.now args.now }
{
    let [
        _place,
        _number,
        _test,
        _threads,
        _bind,
        function,
        wrapper,
        _words,
        count,
    ] = args
    else {
        return None;
    };
    Some(Fork {
        function: function_named(m, &function.value)?,
        wrapper: function_named(m, &wrapper.value)?,
        count: number_given(&count.value)?,
    })
}
