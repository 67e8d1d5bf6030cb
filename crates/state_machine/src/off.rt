//! Functions whose kernels have the runtime's state machine switched off: an init call gets `i1 false`, and nothing else changes.
ghost use Rattle.std.specs.Prelude.{◌≡◌, map, IfOk};
ghost use Rattle.ir_core.specs.MachineOff.{calls_init, operands_off, kind_off, inst_off, block_off, function_off};

use ir_core::{Block, Copies, Function, Inst, Kind, List, OutOfMemory, TailWord, Ty, Typed, Value};
use std::alloc::Global;

fn calls_init(callee: &Value) -> bool
    ensures { result ≡ calls_init callee.now }
{
    match callee {
        Value::Global(name) => name.as_slice() == b"__kmpc_target_init".as_slice(),
        _ => false,
    }
}

fn operands_off(alloc: Global, operands: &List<Typed>) -> Result<List<Typed>, OutOfMemory>
    ensures { IfOk result (λ os. os ≡ operands_off operands.now) }
{
    match operands.as_slice() {
        [place, mode, flag] => {
            let mut out = List::new(alloc);
            out.push(place.copy(alloc)?)?;
            out.push(mode.copy(alloc)?)?;
            out.push(Typed {
                ty: flag.ty.copy(alloc)?,
                value: Value::Int(0),
            })?;
            Ok(out)
        }
        _ => operands.copy(alloc),
    }
}

fn call_off(
    alloc: Global,
    tail: TailWord,
    ret: &Ty,
    callee: &Value,
    operands: &List<Typed>,
) -> Result<Kind, OutOfMemory>
    ensures { IfOk result (λ k. k ≡ kind_off (Kind.Call tail ret.now callee.now operands.now)) }
{
    let args = if calls_init(callee) {
        operands_off(alloc, operands)?
    } else {
        operands.copy(alloc)?
    };
    Ok(Kind::Call {
        tail,
        ret: ret.copy(alloc)?,
        callee: callee.copy(alloc)?,
        args,
    })
}

pub fn kind_off(alloc: Global, kind: &Kind) -> Result<Kind, OutOfMemory>
    ensures { IfOk result (λ k. k ≡ kind_off kind.now) }
{
    match kind {
        Kind::Call {
            tail,
            ret,
            callee,
            args,
        } => call_off(alloc, *tail, ret, callee, args),
        _ => kind.copy(alloc),
    }
}

fn inst_off(alloc: Global, inst: &Inst) -> Result<Inst, OutOfMemory>
    ensures { IfOk result (λ i. i ≡ inst_off inst.now) }
{
    Ok(Inst {
        result: inst.result.copy(alloc)?,
        kind: kind_off(alloc, &inst.kind)?,
        line: inst.line,
    })
}

fn insts_off(alloc: Global, insts: &[Inst]) -> Result<List<Inst>, OutOfMemory>
    ensures { IfOk result (λ is. is ≡ map inst_off insts.now) }
{
    let mut out = List::new(alloc);
    for inst in insts {
        out.push(inst_off(alloc, inst)?)?;
    }
    Ok(out)
}

pub fn block_off(alloc: Global, block: &Block) -> Result<Block, OutOfMemory>
    ensures { IfOk result (λ b. b ≡ block_off block.now) }
{
    Ok(Block {
        name: block.name.copy(alloc)?,
        insts: insts_off(alloc, block.insts.as_slice())?,
        line: block.line,
    })
}

fn blocks_off(alloc: Global, blocks: &[Block]) -> Result<List<Block>, OutOfMemory>
    ensures { IfOk result (λ bs. bs ≡ map block_off blocks.now) }
{
    let mut out = List::new(alloc);
    for block in blocks {
        out.push(block_off(alloc, block)?)?;
    }
    Ok(out)
}

pub fn function_off(alloc: Global, f: &Function) -> Result<Function, OutOfMemory>
    ensures { IfOk result (λ g. g ≡ function_off f.now) }
{
    Ok(Function {
        name: f.name.copy(alloc)?,
        words: f.words.copy(alloc)?,
        ret: f.ret.copy(alloc)?,
        params: f.params.copy(alloc)?,
        groups: f.groups.copy(alloc)?,
        blocks: blocks_off(alloc, f.blocks.as_slice())?,
        line: f.line,
    })
}
