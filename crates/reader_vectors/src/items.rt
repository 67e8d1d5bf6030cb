//! A text with items of every form, and what is read of it.
use ir_core::{Function, Module, Or};
use ir_read::read_module;
use std::alloc::{AllocError, Global};
use std::process::Abort;
use std::test::Fail;

const TEXT: &str = "%P = type { i32, [2 x i8] }
@a = internal global i32
@b = constant %P { i32 7, [2 x i8] c\"\\01x\" }, align 8
define dso_local i32 @f(i32 noundef, ptr %p) #0 {
  %2 = add nsw i32 %0, -1 ; first
  ret i32 %2
}
declare void @g(i32, ptr)
source_filename = \"x\"
";

fn has_globals(module: &Module) -> bool {
    match module.globals.as_slice() {
        [first, second] => first.init.is_none() && second.align == 8 && second.line == 3,
        _ => false,
    }
}

fn has_block(function: &Function) -> bool {
    match function.blocks.as_slice() {
        [block] => block.name.as_slice() == b"1".as_slice() && block.line == 5,
        _ => false,
    }
}

fn has_functions(module: &Module) -> bool {
    match module.functions.as_slice() {
        [defined, declared] => has_block(defined) && declared.line == 8,
        _ => false,
    }
}

/// Whether the text is read, with all of its items.
fn is_read(alloc: Global) -> Result<bool, AllocError> {
    match read_module(alloc, TEXT.as_bytes()) {
        Ok(module) => Ok(
            module.types.len() == 1
                && module.prelude.len() == 1
                && has_globals(&module)
                && has_functions(&module),
        ),
        Err(Or::Refused(_)) => Ok(false),
        Err(Or::Memory) => Err(AllocError),
    }
}

#[test]
fn items_of_every_form(rt: HostRuntime) -> Result<(), Fail> {
    assert!(rt; is_read(rt.alloc())?);
    Ok(())
}
