//! What is refused of the instructions of a function, block by block.
#![tactic(auto, using(name_tables::proofs::ConstructLaws::least_append, name_tables::proofs::RefusalLaws::first_at))]

ghost use Rattle.std.specs.Prelude.{◌≡◌, ◌++◌, [], List as Listed, ℕ, false, true, map, IfOk};
ghost use Rattle.std.specs.List.{flat_map};
ghost use Rattle.ir_core.specs.Given.{local_names};
ghost use Rattle.ir_core.specs.Typing.{in_kind, in_inst, scope_of};
ghost use Rattle.ir_core.specs.NameRefusals.{at, in_order, is_phi, of_insts, of_block, repeated, least};
ghost use Rattle.name_tables.specs.Least.{least_of};

use crate::addresses::address;
use crate::branches::Body;
use crate::calls::call;
use crate::instructions::{
    binary, comparison, conditional_branch, conversion, loaded, returned, rmw, selection, stored,
    switch,
};
use crate::operands::{in_type, target};
use crate::phis::phi;
use crate::results::{in_order, in_result, is_phi};
use ir_core::{Block, Construct, Function, Inst, Kind, Name, OutOfMemory, Refusal};
use name_tables::{Scope, Tables, earlier, lesser, refused_at};
use std::alloc::Global;

/// What is refused of an instruction that is no phi.
fn in_other_kind(s: &Scope, kind: &Kind) -> Option<Construct>
    ensures { (block : Listed ℕ) → is_phi kind.now ≡ false → result ≡ least_of (in_kind (scope_of s.now.0 s.now.1) block kind.now) }
{
    match kind {
        Kind::Bin {
            op,
            flags,
            ty,
            a,
            b,
        } => binary(s, *op, *flags, ty, a, b),
        Kind::ICmp { pred, ty, a, b } => comparison(s, *pred, ty, a, b),
        Kind::Cast { op, from, to } => conversion(s, *op, from, to),
        Kind::Select { cond, a, b } => selection(s, cond, a, b),
        Kind::Alloca { ty, .. } => in_type(s.tables(), ty),
        Kind::Load {
            ty,
            at,
            order,
            align,
        } => loaded(s, ty, at, *order, *align),
        Kind::Store {
            value,
            at,
            order,
            align,
        } => stored(s, value, at, *order, *align),
        Kind::Rmw {
            op,
            at,
            value,
            order,
            align,
        } => rmw(s, *op, at, value, *order, *align),
        Kind::Gep {
            inbounds,
            ty,
            base,
            path,
        } => address(s, *inbounds, ty, base, path),
        Kind::Call {
            tail,
            ret,
            callee,
            args,
        } => call(s, *tail, ret, callee, args),
        Kind::Br { to } => target(s, to),
        Kind::CondBr { cond, yes, no } => conditional_branch(s, cond, yes, no),
        Kind::Switch { on, other, cases } => switch(s, on, other, cases),
        Kind::Ret { value } => returned(s, value),
        Kind::Phi { .. } | Kind::Fence { .. } | Kind::Unreachable => None,
    }
}

/// What is refused of an instruction of a kind in a block, apart from its result and place.
pub fn in_kind(
    alloc: Global,
    body: &Body,
    block: &Name,
    kind: &Kind,
) -> Result<Option<Construct>, OutOfMemory>
    ensures { IfOk result (λ c. c ≡ least_of (in_kind (scope_of body.now.0 body.now.1) block.now kind.now)) }
{
    match kind {
        Kind::Phi { ty, edges } => phi(alloc, body, block, ty, edges),
        _ => Ok(in_other_kind(body.scope(), kind)),
    }
}

/// What is refused of an instruction in a block, apart from its place.
pub fn in_inst(
    alloc: Global,
    body: &Body,
    block: &Name,
    inst: &Inst,
) -> Result<Option<Construct>, OutOfMemory>
    ensures { IfOk result (λ c. c ≡ least_of (in_inst (scope_of body.now.0 body.now.1) block.now inst.now)) }
{
    let refused = in_kind(alloc, body, block, &inst.kind)?;
    Ok(lesser(refused, in_result(&inst.kind, &inst.result)))
}

/// What is refused of an instruction at its line, where only phis stand before it in the block or not.
fn of_inst(
    alloc: Global,
    body: &Body,
    block: &Name,
    only_phis: bool,
    inst: &Inst,
) -> Result<Option<Refusal>, OutOfMemory>
    ensures { IfOk result (λ r. r ≡ least (at inst.now.line (in_inst (scope_of body.now.0 body.now.1) block.now inst.now ++ in_order only_phis inst.now.kind))) }
{
    let refused = in_inst(alloc, body, block, inst)?;
    let refused = lesser(refused, in_order(only_phis, &inst.kind));
    Ok(refused_at(inst.line, refused))
}

fn of_insts(
    alloc: Global,
    body: &Body,
    block: &Name,
    insts: &[Inst],
) -> Result<Option<Refusal>, OutOfMemory>
    ensures { IfOk result (λ r. r ≡ least (of_insts (scope_of body.now.0 body.now.1) block.now true insts.now)) }
{
    let mut found = None;
    let mut only_phis = true;
    for inst in insts {
        found = earlier(found, of_inst(alloc, body, block, only_phis, inst)?);
        only_phis = only_phis && is_phi(&inst.kind);
    }
    Ok(found)
}

/// What is refused of the instructions of a block.
pub fn of_block(alloc: Global, body: &Body, block: &Block) -> Result<Option<Refusal>, OutOfMemory>
    ensures { IfOk result (λ r. r ≡ least (of_block (scope_of body.now.0 body.now.1) block.now)) }
{
    of_insts(alloc, body, &block.name, block.insts.as_slice())
}

fn of_each_block(
    alloc: Global,
    body: &Body,
    blocks: &[Block],
) -> Result<Option<Refusal>, OutOfMemory>
    ensures { IfOk result (λ r. r ≡ least (flat_map (of_block (scope_of body.now.0 body.now.1)) blocks.now)) }
{
    let mut found = None;
    for block in blocks {
        found = earlier(found, of_block(alloc, body, block)?);
    }
    Ok(found)
}

/// What is refused of the instructions of a function.
pub fn of_blocks(alloc: Global, body: &Body) -> Result<Option<Refusal>, OutOfMemory>
    ensures { IfOk result (λ r. r ≡ least (flat_map (of_block (scope_of body.now.0 body.now.1)) body.now.1.blocks)) }
{
    of_each_block(alloc, body, body.scope().function().blocks.as_slice())
}

/// What is refused of a function below its heading: names that are given twice, and its instructions.
pub fn of_body<'a>(
    alloc: Global,
    tables: &'a Tables<'a>,
    f: &'a Function,
) -> Result<Option<Refusal>, OutOfMemory>
    ensures { IfOk result (λ r. r ≡ least (repeated [] (map (λ n. (n.name, n.line)) (local_names f.now)) ++ flat_map (of_block (scope_of tables.now f.now)) f.now.blocks)) }
{
    let body = Body::of(alloc, tables, f)?;
    let repeated = body.scope().repeated();
    Ok(earlier(repeated, of_blocks(alloc, &body)?))
}
