//! Small modules, one for each kind of refusal of an item.
use crate::building::{Shape, add_type, empty_module, made};
use crate::told::told;
use ir_core::{
    Block, Element, Function, Global as GlobalItem, Init, List, Module, Name, OutOfMemory, Param,
    Ty,
};
use std::alloc::{AllocError, Global};
use std::process::Abort;
use std::test::Fail;

/// `{ i32, ptr }`.
const PAIR: Shape = Shape::Pair(32, None);

/// What a global holds at first.
#[derive(Clone, Copy)]
enum Holds {
    Nothing,
    Zero,
    Number(u64),
    Address(&'static [u8]),
    /// `c".."`.
    Text(&'static [u8]),
    /// `{ i32 N, ptr null }`.
    Both(u64),
}

/// An item of a module.
#[derive(Clone, Copy)]
enum Item {
    Type(&'static [u8], Shape),
    Global(&'static [u8], Shape, Holds),
    /// A name, the types of the result and of the parameters.
    Declared(&'static [u8], Shape, &'static [Shape]),
    Defined(&'static [u8], Shape, &'static [Shape]),
}

/// Items with their lines, and the construct that is told, with its line; no name is none.
type Case = (&'static [(u32, Item)], &'static [u8], u32);

const TYPES: [Case; 5] = [
    (
        &[
            (1, Item::Type(b"a", PAIR)),
            (2, Item::Type(b"b", Shape::Named(b"a"))),
        ],
        b"",
        0,
    ),
    (
        &[
            (1, Item::Type(b"a", PAIR)),
            (2, Item::Type(b"a", Shape::Named(b"none"))),
        ],
        b"duplicate_name",
        2,
    ),
    (
        &[(4, Item::Type(b"a", Shape::Named(b"none")))],
        b"missing_name",
        4,
    ),
    // `%a` leads to a circle, and stands on none.
    (
        &[
            (1, Item::Type(b"a", Shape::Named(b"b"))),
            (2, Item::Type(b"b", Shape::Named(b"c"))),
            (3, Item::Type(b"c", Shape::Named(b"b"))),
        ],
        b"type_mismatch",
        2,
    ),
    // Of a second `%a` it isn't told that it leads to the first.
    (
        &[
            (1, Item::Type(b"a", Shape::Ptr)),
            (1, Item::Type(b"b", Shape::Named(b"a"))),
            (2, Item::Type(b"a", Shape::Named(b"b"))),
        ],
        b"duplicate_name",
        2,
    ),
];

const GLOBALS: [Case; 10] = [
    (
        &[
            (1, Item::Type(b"t", PAIR)),
            (2, Item::Global(b"g", Shape::Named(b"t"), Holds::Both(7))),
            (3, Item::Global(b"p", Shape::Ptr, Holds::Address(b"g"))),
            (
                4,
                Item::Global(b"s", Shape::Array(2, 8), Holds::Text(b"ab")),
            ),
            (5, Item::Global(b"z", PAIR, Holds::Zero)),
        ],
        b"",
        0,
    ),
    (
        &[(2, Item::Global(b"g", Shape::Ptr, Holds::Nothing))],
        b"missing_name",
        2,
    ),
    (
        &[(2, Item::Global(b"g", Shape::Named(b"none"), Holds::Zero))],
        b"missing_name",
        2,
    ),
    (
        &[(2, Item::Global(b"g", Shape::Int(8), Holds::Number(256)))],
        b"type_mismatch",
        2,
    ),
    (
        &[(
            3,
            Item::Global(b"g", Shape::Array(3, 8), Holds::Text(b"ab")),
        )],
        b"type_mismatch",
        3,
    ),
    (
        &[(3, Item::Global(b"g", PAIR, Holds::Both(1 << 32)))],
        b"type_mismatch",
        3,
    ),
    (
        &[
            (1, Item::Declared(b"f", Shape::Void, &[])),
            (2, Item::Global(b"g", Shape::Ptr, Holds::Address(b"f"))),
        ],
        b"indirect_call",
        2,
    ),
    (
        &[(2, Item::Global(b"omp_get_level", Shape::Ptr, Holds::Zero))],
        b"signature",
        2,
    ),
    // The second one is that of the later line, wherever it stands.
    (
        &[
            (5, Item::Global(b"g", Shape::Ptr, Holds::Zero)),
            (3, Item::Global(b"g", Shape::Ptr, Holds::Nothing)),
            (4, Item::Declared(b"g", Shape::Void, &[])),
        ],
        b"missing_name",
        3,
    ),
    (
        &[
            (5, Item::Global(b"g", Shape::Ptr, Holds::Zero)),
            (3, Item::Global(b"g", Shape::Ptr, Holds::Zero)),
            (4, Item::Declared(b"g", Shape::Void, &[])),
        ],
        b"duplicate_name",
        4,
    ),
];

const FUNCTIONS: [Case; 9] = [
    (
        &[
            (
                1,
                Item::Declared(
                    b"__kmpc_barrier",
                    Shape::Void,
                    &[Shape::Ptr, Shape::Int(32)],
                ),
            ),
            (
                2,
                Item::Declared(
                    b"__kmpc_parallel_level",
                    Shape::Int(8),
                    &[Shape::Ptr, Shape::Int(32)],
                ),
            ),
            (3, Item::Defined(b"f", Shape::Ptr, &[Shape::Int(1)])),
        ],
        b"",
        0,
    ),
    (
        &[(1, Item::Defined(b"f", Shape::Named(b"none"), &[]))],
        b"missing_name",
        1,
    ),
    (&[(1, Item::Defined(b"f", PAIR, &[]))], b"type_mismatch", 1),
    (
        &[(1, Item::Defined(b"f", Shape::Void, &[Shape::Void]))],
        b"type_mismatch",
        1,
    ),
    (
        &[(2, Item::Defined(b"omp_get_level", Shape::Int(32), &[]))],
        b"signature",
        2,
    ),
    (
        &[(2, Item::Declared(b"omp_get_level", Shape::Int(64), &[]))],
        b"signature",
        2,
    ),
    (
        &[(
            2,
            Item::Declared(b"__kmpc_barrier", Shape::Void, &[Shape::Ptr]),
        )],
        b"signature",
        2,
    ),
    (
        &[(
            2,
            Item::Declared(b"__kmpc_kernel_end_parallel", Shape::Void, &[]),
        )],
        b"mode_intrinsic",
        2,
    ),
    // On one line the function is the second.
    (
        &[
            (2, Item::Global(b"f", Shape::Ptr, Holds::Zero)),
            (2, Item::Declared(b"f", Shape::Void, &[])),
        ],
        b"duplicate_name",
        2,
    ),
];

fn held(alloc: Global, holds: Holds) -> Result<Option<Init>, AllocError> {
    match holds {
        Holds::Nothing => Ok(None),
        Holds::Zero => Ok(Some(Init::Zero)),
        Holds::Number(n) => Ok(Some(Init::Int(n))),
        Holds::Address(name) => Ok(Some(Init::Addr(Name::from_slice(alloc, name)?))),
        Holds::Text(text) => Ok(Some(Init::Bytes(Name::from_slice(alloc, text)?))),
        Holds::Both(n) => {
            let mut parts = List::new(alloc);
            parts.push(Element {
                ty: Ty::Int(32),
                init: Init::Int(n),
            })?;
            parts.push(Element {
                ty: Ty::Ptr,
                init: Init::Null,
            })?;
            Ok(Some(Init::Braces(parts)))
        }
    }
}

fn params_of(alloc: Global, shapes: &[Shape]) -> Result<List<Param>, AllocError> {
    let mut params = List::new(alloc);
    for shape in shapes {
        let name = Name::from_slice(alloc, b"x")?;
        let ty = made(alloc, *shape)?;
        params.push(Param { name, ty })?;
    }
    Ok(params)
}

fn blocks_of(alloc: Global, defined: bool, line: u32) -> Result<List<Block>, AllocError> {
    let mut blocks = List::new(alloc);
    if defined {
        blocks.push(Block {
            name: Name::from_slice(alloc, b"entry")?,
            insts: List::new(alloc),
            line,
        })?;
    }
    Ok(blocks)
}

fn add_global(
    alloc: Global,
    m: &mut Module,
    name: &[u8],
    shape: Shape,
    holds: Holds,
    line: u32,
) -> Result<(), AllocError> {
    m.globals.push(GlobalItem {
        name: Name::from_slice(alloc, name)?,
        words: List::new(alloc),
        constant: false,
        ty: made(alloc, shape)?,
        init: held(alloc, holds)?,
        align: 0,
        line,
    })
}

fn function(
    alloc: Global,
    name: &[u8],
    ret: Shape,
    shapes: &[Shape],
    defined: bool,
    line: u32,
) -> Result<Function, AllocError> {
    Ok(Function {
        name: Name::from_slice(alloc, name)?,
        words: List::new(alloc),
        ret: made(alloc, ret)?,
        params: params_of(alloc, shapes)?,
        groups: List::new(alloc),
        blocks: blocks_of(alloc, defined, line)?,
        line,
    })
}

fn add_item(alloc: Global, m: &mut Module, item: Item, line: u32) -> Result<(), AllocError> {
    match item {
        Item::Type(name, shape) => {
            let body = made(alloc, shape)?;
            add_type(alloc, &mut m.types, name, body, line)
        },
        Item::Global(name, shape, holds) => add_global(alloc, m, name, shape, holds, line),
        Item::Declared(name, ret, shapes) => {
            m.functions
                .push(function(alloc, name, ret, shapes, false, line)?)
        }
        Item::Defined(name, ret, shapes) => {
            m.functions
                .push(function(alloc, name, ret, shapes, true, line)?)
        }
    }
}

fn told_of(alloc: Global, items: &[(u32, Item)]) -> Result<(&'static [u8], u32), OutOfMemory> {
    let mut m = empty_module(alloc);
    for (line, item) in items {
        add_item(alloc, &mut m, *item, *line)?;
    }
    told(alloc, m)
}

fn are_told(alloc: Global, cases: &[Case]) -> Result<bool, OutOfMemory> {
    for (items, construct, line) in cases {
        if told_of(alloc, *items)? != (*construct, *line) {
            return Ok(false);
        }
    }
    Ok(true)
}

#[test]
fn refused_items(rt: HostRuntime) -> Result<(), Fail> {
    for cases in [TYPES.as_slice(), GLOBALS.as_slice(), FUNCTIONS.as_slice()] {
        assert!(rt; are_told(rt.alloc(), cases)?);
    }
    Ok(())
}
