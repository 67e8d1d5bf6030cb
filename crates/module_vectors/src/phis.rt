//! A phi's entries against the blocks that branch to its block.
use crate::building::empty_module;
use ir_core::{
    Block, Construct, Edge, Function, Inst, Kind, List, Name, Order, OutOfMemory, Refusal, Ty,
    Typed, Value,
};
use ir_names::of_body;
use ir_tables::Indexed;
use name_tables::Tables;
use std::alloc::{AllocError, Global};
use std::process::Abort;
use std::test::Fail;

/// Entries of a phi, whether a fence stands before it, and the line where it is refused.
type Row = (&'static [(u64, &'static [u8])], bool, Option<u32>);

const ROWS: [Row; 6] = [
    (&[(1, b"left"), (2, b"right")], false, None),
    (&[(1, b"left"), (2, b"right")], true, Some(5)),
    (&[(1, b"left")], false, Some(5)),
    (
        &[(1, b"left"), (2, b"right"), (3, b"entry")],
        false,
        Some(5),
    ),
    (&[(1, b"left"), (2, b"right"), (2, b"right")], false, None),
    (
        &[(1, b"left"), (2, b"right"), (3, b"right")],
        false,
        Some(5),
    ),
];

fn block(alloc: Global, name: &[u8], insts: List<Inst>) -> Result<Block, AllocError> {
    Ok(Block {
        name: Name::from_slice(alloc, name)?,
        insts,
        line: 2,
    })
}

fn branch(alloc: Global, yes: &[u8], no: &[u8]) -> Result<List<Inst>, AllocError> {
    let mut insts = List::new(alloc);
    insts.push(Inst {
        result: None,
        kind: Kind::CondBr {
            cond: Typed {
                ty: Ty::Int(1),
                value: Value::Int(1),
            },
            yes: Name::from_slice(alloc, yes)?,
            no: Name::from_slice(alloc, no)?,
        },
        line: 3,
    })?;
    Ok(insts)
}

/// A phi at line 5 with a number from each of these blocks, behind a fence or not, and a `ret`.
fn end(alloc: Global, entries: &[(u64, &[u8])], fence: bool) -> Result<List<Inst>, AllocError> {
    let mut insts = List::new(alloc);
    if fence {
        insts.push(Inst {
            result: None,
            kind: Kind::Fence {
                order: Order::SeqCst,
            },
            line: 4,
        })?;
    }
    let mut edges = List::new(alloc);
    for (value, block) in entries {
        let block = Name::from_slice(alloc, *block)?;
        edges.push(Edge {
            value: Value::Int(*value),
            block,
        })?;
    }
    insts.push(Inst {
        result: Some(Name::from_slice(alloc, b"x")?),
        kind: Kind::Phi {
            ty: Ty::Int(32),
            edges,
        },
        line: 5,
    })?;
    insts.push(Inst {
        result: None,
        kind: Kind::Ret { value: None },
        line: 6,
    })?;
    Ok(insts)
}

/// `%entry` branches to `%left` and `%right`, `%left` to `%right` and `%end`, and `%right` twice to `%end`.
fn function(alloc: Global, end: List<Inst>) -> Result<Function, AllocError> {
    let mut blocks = List::new(alloc);
    blocks.push(block(alloc, b"entry", branch(alloc, b"left", b"right")?)?)?;
    blocks.push(block(alloc, b"left", branch(alloc, b"right", b"end")?)?)?;
    blocks.push(block(alloc, b"right", branch(alloc, b"end", b"end")?)?)?;
    blocks.push(block(alloc, b"end", end)?)?;
    Ok(Function {
        name: Name::from_slice(alloc, b"f")?,
        words: List::new(alloc),
        ret: Ty::Void,
        params: List::new(alloc),
        groups: List::new(alloc),
        blocks,
        line: 1,
    })
}

/// The line of a `type_mismatch`; 0 for any other refusal.
fn mismatch(refused: Option<Refusal>) -> Option<u32> {
    match refused {
        None => None,
        Some(
            Refusal {
                construct: Construct::TypeMismatch,
                line,
            },
        ) => Some(line),
        Some(_) => Some(0),
    }
}

/// Where the phi with these entries is refused.
fn refused(
    alloc: Global,
    entries: &[(u64, &[u8])],
    fence: bool,
) -> Result<Option<u32>, OutOfMemory> {
    let module = Indexed::of(alloc, empty_module(alloc))?;
    let f = function(alloc, end(alloc, entries, fence)?)?;
    Ok(mismatch(of_body(alloc, &Tables::of(&module), &f)?))
}

#[test]
fn entries_of_a_phi(rt: HostRuntime) -> Result<(), Fail> {
    for (entries, fence, line) in ROWS {
        assert_eq!(rt; refused(rt.alloc(), entries, fence)?, line);
    }
    Ok(())
}
