//! The instructions of a machine.
ghost use Rattle.std.specs.Prelude.{◌≡◌, IfOk, [], ◌∷◌};
ghost use Rattle.ir_core.specs.declared.instructions.Value.TheVariants as value;
ghost use Rattle.state_machine.specs.Machine as machine;

use ir_core::{
    Block, Copies, Inst, Kind, List, Name, OutOfMemory, Rtl, TailWord, Ty, Typed, Value,
};
use std::alloc::Global;

/// A pointer, the value of a register.
pub fn pointer_in(alloc: Global, register: &Name) -> Result<Typed, OutOfMemory>
    ensures { IfOk result (λ v. v ≡ machine.pointer (value.Local register.now)) }
{
    Ok(Typed {
        ty: Ty::Ptr,
        value: Value::Local(register.copy(alloc)?),
    })
}

/// An integer of a width, the value of a register.
pub fn integer_in(alloc: Global, width: u32, register: &Name) -> Result<Typed, OutOfMemory>
    ensures { IfOk result (λ v. v ≡ machine.integer width (value.Local register.now)) }
{
    Ok(Typed {
        ty: Ty::Int(width),
        value: Value::Local(register.copy(alloc)?),
    })
}

/// An instruction that gives a register its value.
pub fn gives(alloc: Global, line: u32, register: &Name, kind: Kind) -> Result<Inst, OutOfMemory>
    ensures { IfOk result (λ i. i ≡ machine.gives line register.now kind) }
{
    Ok(Inst {
        result: Some(register.copy(alloc)?),
        kind,
        line,
    })
}

/// An instruction without a result.
pub fn does(line: u32, kind: Kind) -> Inst
    ensures { result ≡ machine.does line kind }
{
    Inst {
        result: None,
        kind,
        line,
    }
}

/// A call of an entry point.
pub fn calls_entry(
    alloc: Global,
    entry: Rtl,
    ret: Ty,
    args: List<Typed>,
) -> Result<Kind, OutOfMemory>
    ensures { IfOk result (λ k. k ≡ machine.calls_entry entry ret args) }
{
    Ok(Kind::Call {
        tail: TailWord::Absent,
        ret,
        callee: Value::Global(Name::from_slice(alloc, entry.name())?),
        args,
    })
}

/// The barrier at which all machine threads meet.
pub fn meets(alloc: Global, line: u32, thread: &Name) -> Result<Inst, OutOfMemory>
    ensures { IfOk result (λ i. i ≡ machine.meets line thread.now) }
{
    let mut args = List::new(alloc);
    args.push(Typed {
        ty: Ty::Ptr,
        value: Value::Null,
    })?;
    args.push(integer_in(alloc, 32, thread)?)?;
    let call = calls_entry(alloc, Rtl::GenericBarrier, Ty::Void, args)?;
    Ok(does(line, call))
}

/// A branch on a truth value in a register.
pub fn branches(
    alloc: Global,
    line: u32,
    on: &Name,
    yes: &Name,
    no: &Name,
) -> Result<Inst, OutOfMemory>
    ensures { IfOk result (λ i. i ≡ machine.branches line on.now yes.now no.now) }
{
    let kind = Kind::CondBr {
        cond: integer_in(alloc, 1, on)?,
        yes: yes.copy(alloc)?,
        no: no.copy(alloc)?,
    };
    Ok(does(line, kind))
}

/// A branch to a block.
pub fn goes_to(alloc: Global, line: u32, to: &Name) -> Result<Inst, OutOfMemory>
    ensures { IfOk result (λ i. i ≡ machine.goes_to line to.now) }
{
    let kind = Kind::Br {
        to: to.copy(alloc)?,
    };
    Ok(does(line, kind))
}

/// A block of a name.
pub fn block(alloc: Global, line: u32, name: &Name, insts: List<Inst>) -> Result<Block, OutOfMemory>
    ensures { IfOk result (λ b. b ≡ machine.block line name.now insts) }
{
    Ok(Block {
        name: name.copy(alloc)?,
        insts,
        line,
    })
}
