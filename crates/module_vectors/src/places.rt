//! Look-ups in a small module.
use crate::bare::without_tables;
use crate::building::empty_module;
use ir_core::{Block, Function, Inst, Kind, List, Module, Name, Order, OutOfMemory, Param, Ty};
use ir_tables::Indexed;
use std::alloc::{AllocError, Global};
use std::process::Abort;
use std::test::Fail;

fn inst(alloc: Global, name: &[u8]) -> Result<Inst, AllocError> {
    Ok(Inst {
        result: Some(Name::from_slice(alloc, name)?),
        kind: Kind::Fence {
            order: Order::SeqCst,
        },
        line: 1,
    })
}

fn block(alloc: Global, name: &[u8], results: &[&[u8]]) -> Result<Block, AllocError> {
    let mut insts = List::new(alloc);
    for result in results {
        insts.push(inst(alloc, *result)?)?;
    }
    Ok(Block {
        name: Name::from_slice(alloc, name)?,
        insts,
        line: 1,
    })
}

fn params(alloc: Global, names: &[&[u8]]) -> Result<List<Param>, AllocError> {
    let mut params = List::new(alloc);
    for name in names {
        let name = Name::from_slice(alloc, *name)?;
        params.push(Param { name, ty: Ty::Ptr })?;
    }
    Ok(params)
}

fn function(
    alloc: Global,
    name: &[u8],
    params: List<Param>,
    blocks: List<Block>,
) -> Result<Function, AllocError> {
    Ok(Function {
        name: Name::from_slice(alloc, name)?,
        words: List::new(alloc),
        ret: Ty::Void,
        params,
        groups: List::new(alloc),
        blocks,
        line: 1,
    })
}

// `@outside` is declared; `@main` has the parameters `%a` and `%b`, the blocks `%entry` and `%exit`, and the results `%c`, `%a` and `%d`.
fn some_module(alloc: Global) -> Result<Module, AllocError> {
    let mut blocks = List::new(alloc);
    blocks.push(block(alloc, b"entry", &[b"c", b"a"])?)?;
    blocks.push(block(alloc, b"exit", &[b"d"])?)?;
    let mut functions = List::new(alloc);
    functions.push(function(alloc, b"outside", List::new(alloc), List::new(alloc))?)?;
    functions.push(function(alloc, b"main", params(alloc, &[b"a", b"b"])?, blocks)?)?;
    let mut module = empty_module(alloc);
    module.functions = functions;
    Ok(module)
}

fn finds_items(alloc: Global, indexed: &Indexed) -> Result<bool, AllocError> {
    let main = Name::from_slice(alloc, b"main")?;
    Ok(
        indexed.module().functions.len() == 2
            && indexed.function(&main) == Some(1)
            && indexed.global(&main).is_none(),
    )
}

fn finds_first(alloc: Global, indexed: &Indexed) -> Result<bool, AllocError> {
    let a = Name::from_slice(alloc, b"a")?;
    Ok(indexed.register(1, &a) == Some(0) && indexed.register(0, &a).is_none())
}

fn finds_last(alloc: Global, indexed: &Indexed) -> Result<bool, AllocError> {
    let d = Name::from_slice(alloc, b"d")?;
    Ok(indexed.register(1, &d) == Some(4) && indexed.block(1, &d).is_none())
}

fn finds_block(alloc: Global, indexed: &Indexed) -> Result<bool, AllocError> {
    let exit = Name::from_slice(alloc, b"exit")?;
    Ok(indexed.block(1, &exit) == Some(1) && indexed.function(&exit).is_none())
}

fn counts_registers(indexed: &Indexed) -> bool {
    indexed.register_count(1) == 5 && indexed.register_count(2) == 0
}

fn finds_all(alloc: Global, indexed: &Indexed) -> Result<bool, AllocError> {
    Ok(
        finds_items(alloc, indexed)?
            && finds_first(alloc, indexed)?
            && finds_last(alloc, indexed)?
            && finds_block(alloc, indexed)?
            && counts_registers(indexed),
    )
}

fn is_given_back(indexed: Indexed) -> bool {
    indexed.into_module().functions.len() == 2
}

fn places_found(alloc: Global) -> Result<bool, OutOfMemory> {
    let indexed = Indexed::of(alloc, some_module(alloc)?)?;
    Ok(finds_all(alloc, &indexed)? && is_given_back(indexed))
}

#[test]
fn places_of_names(rt: HostRuntime) -> Result<(), Fail> {
    assert!(rt; places_found(rt.alloc())?);
    Ok(())
}

fn bare_places_found(alloc: Global) -> Result<bool, OutOfMemory> {
    let indexed = without_tables(Indexed::of(alloc, some_module(alloc)?)?);
    Ok(finds_all(alloc, &indexed)?)
}

#[test]
fn places_without_tables(rt: HostRuntime) -> Result<(), Fail> {
    assert!(rt; bare_places_found(rt.alloc())?);
    Ok(())
}
