//! Equal modules.
ghost use Rattle.std.specs.Prelude.{◌≡◌, IfOk};

use crate::answers::OutOfMemory;
use crate::copy::Copies;
use crate::copy::types::copy_ty;
use crate::module::{Block, Element, Function, Global, Init, Module, Param, TypeDef};
use sqlite_items::Items as List;
use std::alloc::Global as Heap;

#[cycle(copy_init)]
fn copy_init(alloc: Heap, init: &Init) -> Result<Init, OutOfMemory>
    ensures { IfOk result (λ c. c ≡ init.now) }
{
    match init {
        Init::Zero => Ok(Init::Zero),
        Init::Int(n) => Ok(Init::Int(*n)),
        Init::Null => Ok(Init::Null),
        Init::Addr(name) => Ok(Init::Addr(name.copy(alloc)?)),
        Init::Bytes(text) => Ok(Init::Bytes(text.copy(alloc)?)),
        Init::Square(parts) => Ok(Init::Square(copy_elements(alloc, parts.as_slice())?)),
        Init::Braces(parts) => Ok(Init::Braces(copy_elements(alloc, parts.as_slice())?)),
    }
}

#[cycle(copy_init)]
fn copy_elements(alloc: Heap, elements: &[Element]) -> Result<List<Element>, OutOfMemory>
    ensures { IfOk result (λ c. c ≡ elements.now) }
{
    let mut out = List::new(alloc);
    for element in elements {
        let ty = copy_ty(alloc, &element.ty)?;
        let init = copy_init(alloc, &element.init)?;
        out.push(Element { ty, init })?;
    }
    Ok(out)
}

impl Copies for Init {
    fn copy(&self, alloc: Heap) -> Result<Init, OutOfMemory> {
        copy_init(alloc, self)
    }
}

impl Copies for Block {
    fn copy(&self, alloc: Heap) -> Result<Block, OutOfMemory> {
        Ok(Block {
            name: self.name.copy(alloc)?,
            insts: self.insts.copy(alloc)?,
            line: self.line,
        })
    }
}

impl Copies for Param {
    fn copy(&self, alloc: Heap) -> Result<Param, OutOfMemory> {
        Ok(Param {
            name: self.name.copy(alloc)?,
            ty: self.ty.copy(alloc)?,
        })
    }
}

impl Copies for Function {
    fn copy(&self, alloc: Heap) -> Result<Function, OutOfMemory> {
        Ok(Function {
            name: self.name.copy(alloc)?,
            words: self.words.copy(alloc)?,
            ret: self.ret.copy(alloc)?,
            params: self.params.copy(alloc)?,
            groups: self.groups.copy(alloc)?,
            blocks: self.blocks.copy(alloc)?,
            line: self.line,
        })
    }
}

impl Copies for Global {
    fn copy(&self, alloc: Heap) -> Result<Global, OutOfMemory> {
        Ok(Global {
            name: self.name.copy(alloc)?,
            words: self.words.copy(alloc)?,
            constant: self.constant,
            ty: self.ty.copy(alloc)?,
            init: self.init.copy(alloc)?,
            align: self.align,
            line: self.line,
        })
    }
}

impl Copies for TypeDef {
    fn copy(&self, alloc: Heap) -> Result<TypeDef, OutOfMemory> {
        Ok(TypeDef {
            name: self.name.copy(alloc)?,
            body: self.body.copy(alloc)?,
            line: self.line,
        })
    }
}

impl Module {
    /// An equal module.
    pub fn copy(&self, alloc: Heap) -> Result<Module, OutOfMemory>
        ensures { IfOk result (λ c. c ≡ self.now) }
    {
        Ok(Module {
            prelude: self.prelude.copy(alloc)?,
            types: self.types.copy(alloc)?,
            globals: self.globals.copy(alloc)?,
            functions: self.functions.copy(alloc)?,
            tail: self.tail.copy(alloc)?,
        })
    }
}
