//! A module: its types, globals and functions (LLVM Language Reference, "High Level Structure").
//! The line of an item is the line of its first token, counted from 1.
use crate::instructions::Inst;
use crate::name::Name;
use crate::types::Ty;
use sqlite_items::Items as List;

/// A module. The prelude and the tail are lines that are kept as they stand.
#[derive(Drop)]
pub struct Module {
    pub prelude: List<Name>,
    pub types: List<TypeDef>,
    pub globals: List<Global>,
    pub functions: List<Function>,
    pub tail: List<Name>,
}

/// A named type, `%N = type T`.
#[derive(Drop)]
pub struct TypeDef {
    pub name: Name,
    pub body: Ty,
    pub line: u32,
}

/// A global variable. `words` are its linkage words and the like, in order; an `align` of 0 is none.
#[derive(Drop)]
pub struct Global {
    pub name: Name,
    pub words: List<Name>,
    pub constant: bool,
    pub ty: Ty,
    pub init: Option<Init>,
    pub align: u32,
    pub line: u32,
}

/// What a global holds at first.
#[cycle(init)]
#[derive(Drop)]
pub enum Init {
    /// `zeroinitializer`.
    Zero,
    Int(u64),
    Null,
    /// `@N`.
    Addr(Name),
    /// `c".."`, with its escapes undone.
    Bytes(Name),
    /// `[ T INIT, .. ]`.
    Square(List<Element>),
    /// `{ T INIT, .. }`.
    Braces(List<Element>),
}

/// A part of an initializer, with its type.
#[cycle(init)]
#[derive(Drop)]
pub struct Element {
    pub ty: Ty,
    pub init: Init,
}

/// A function; one without blocks is a declaration. `groups` are its attribute groups.
#[derive(Drop)]
pub struct Function {
    pub name: Name,
    pub words: List<Name>,
    pub ret: Ty,
    pub params: List<Param>,
    pub groups: List<Name>,
    pub blocks: List<Block>,
    pub line: u32,
}

/// A parameter of a function.
#[derive(Drop)]
pub struct Param {
    pub name: Name,
    pub ty: Ty,
}

/// A basic block.
#[derive(Drop)]
pub struct Block {
    pub name: Name,
    pub insts: List<Inst>,
    pub line: u32,
}
