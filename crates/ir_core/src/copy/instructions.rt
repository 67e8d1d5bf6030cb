//! Equal instructions.
ghost use Rattle.std.specs.Prelude.{◌≡◌, IfOk};

use crate::answers::OutOfMemory;
use crate::copy::Copies;
use crate::instructions::{
    BinOp, Case, CastOp, Edge, Flags, Inst, Kind, Order, Pred, RmwOp, TailWord, Typed, Value,
};
use crate::name::Name;
use crate::types::Ty;
use sqlite_items::Items as List;
use std::alloc::Global;

impl Copies for Value {
    fn copy(&self, alloc: Global) -> Result<Value, OutOfMemory> {
        match self {
            Value::Int(n) => Ok(Value::Int(*n)),
            Value::Null => Ok(Value::Null),
            Value::Local(name) => Ok(Value::Local(name.copy(alloc)?)),
            Value::Global(name) => Ok(Value::Global(name.copy(alloc)?)),
        }
    }
}

impl Copies for Typed {
    fn copy(&self, alloc: Global) -> Result<Typed, OutOfMemory> {
        Ok(Typed {
            ty: self.ty.copy(alloc)?,
            value: self.value.copy(alloc)?,
        })
    }
}

impl Copies for Edge {
    fn copy(&self, alloc: Global) -> Result<Edge, OutOfMemory> {
        Ok(Edge {
            value: self.value.copy(alloc)?,
            block: self.block.copy(alloc)?,
        })
    }
}

impl Copies for Case {
    fn copy(&self, alloc: Global) -> Result<Case, OutOfMemory> {
        Ok(Case {
            value: self.value.copy(alloc)?,
            block: self.block.copy(alloc)?,
        })
    }
}

fn copy_bin(
    alloc: Global,
    op: BinOp,
    flags: Flags,
    ty: &Ty,
    a: &Value,
    b: &Value,
) -> Result<Kind, OutOfMemory>
    ensures { IfOk result (λ c. c ≡ Kind.Bin op flags ty.now a.now b.now) }
{
    Ok(Kind::Bin {
        op,
        flags,
        ty: ty.copy(alloc)?,
        a: a.copy(alloc)?,
        b: b.copy(alloc)?,
    })
}

fn copy_icmp(alloc: Global, pred: Pred, ty: &Ty, a: &Value, b: &Value) -> Result<Kind, OutOfMemory>
    ensures { IfOk result (λ c. c ≡ Kind.ICmp pred ty.now a.now b.now) }
{
    Ok(Kind::ICmp {
        pred,
        ty: ty.copy(alloc)?,
        a: a.copy(alloc)?,
        b: b.copy(alloc)?,
    })
}

fn copy_select(alloc: Global, cond: &Typed, a: &Typed, b: &Typed) -> Result<Kind, OutOfMemory>
    ensures { IfOk result (λ c. c ≡ Kind.Select cond.now a.now b.now) }
{
    Ok(Kind::Select {
        cond: cond.copy(alloc)?,
        a: a.copy(alloc)?,
        b: b.copy(alloc)?,
    })
}

fn copy_cast(alloc: Global, op: CastOp, from: &Typed, to: &Ty) -> Result<Kind, OutOfMemory>
    ensures { IfOk result (λ c. c ≡ Kind.Cast op from.now to.now) }
{
    Ok(Kind::Cast {
        op,
        from: from.copy(alloc)?,
        to: to.copy(alloc)?,
    })
}

fn copy_phi(alloc: Global, ty: &Ty, edges: &List<Edge>) -> Result<Kind, OutOfMemory>
    ensures { IfOk result (λ c. c ≡ Kind.Phi ty.now edges.now) }
{
    Ok(Kind::Phi {
        ty: ty.copy(alloc)?,
        edges: edges.copy(alloc)?,
    })
}

fn copy_load(
    alloc: Global,
    ty: &Ty,
    at: &Typed,
    order: Option<Order>,
    align: u32,
) -> Result<Kind, OutOfMemory>
    ensures { IfOk result (λ c. c ≡ Kind.Load ty.now at.now order align) }
{
    Ok(Kind::Load {
        ty: ty.copy(alloc)?,
        at: at.copy(alloc)?,
        order,
        align,
    })
}

fn copy_store(
    alloc: Global,
    value: &Typed,
    at: &Typed,
    order: Option<Order>,
    align: u32,
) -> Result<Kind, OutOfMemory>
    ensures { IfOk result (λ c. c ≡ Kind.Store value.now at.now order align) }
{
    Ok(Kind::Store {
        value: value.copy(alloc)?,
        at: at.copy(alloc)?,
        order,
        align,
    })
}

fn copy_rmw(
    alloc: Global,
    op: RmwOp,
    at: &Typed,
    value: &Typed,
    order: Order,
    align: u32,
) -> Result<Kind, OutOfMemory>
    ensures { IfOk result (λ c. c ≡ Kind.Rmw op at.now value.now order align) }
{
    Ok(Kind::Rmw {
        op,
        at: at.copy(alloc)?,
        value: value.copy(alloc)?,
        order,
        align,
    })
}

fn copy_gep(
    alloc: Global,
    inbounds: bool,
    ty: &Ty,
    base: &Typed,
    path: &List<Typed>,
) -> Result<Kind, OutOfMemory>
    ensures { IfOk result (λ c. c ≡ Kind.Gep inbounds ty.now base.now path.now) }
{
    Ok(Kind::Gep {
        inbounds,
        ty: ty.copy(alloc)?,
        base: base.copy(alloc)?,
        path: path.copy(alloc)?,
    })
}

fn copy_call(
    alloc: Global,
    tail: TailWord,
    ret: &Ty,
    callee: &Value,
    args: &List<Typed>,
) -> Result<Kind, OutOfMemory>
    ensures { IfOk result (λ c. c ≡ Kind.Call tail ret.now callee.now args.now) }
{
    Ok(Kind::Call {
        tail,
        ret: ret.copy(alloc)?,
        callee: callee.copy(alloc)?,
        args: args.copy(alloc)?,
    })
}

fn copy_branch(alloc: Global, cond: &Typed, yes: &Name, no: &Name) -> Result<Kind, OutOfMemory>
    ensures { IfOk result (λ c. c ≡ Kind.CondBr cond.now yes.now no.now) }
{
    Ok(Kind::CondBr {
        cond: cond.copy(alloc)?,
        yes: yes.copy(alloc)?,
        no: no.copy(alloc)?,
    })
}

fn copy_switch(
    alloc: Global,
    on: &Typed,
    other: &Name,
    cases: &List<Case>,
) -> Result<Kind, OutOfMemory>
    ensures { IfOk result (λ c. c ≡ Kind.Switch on.now other.now cases.now) }
{
    Ok(Kind::Switch {
        on: on.copy(alloc)?,
        other: other.copy(alloc)?,
        cases: cases.copy(alloc)?,
    })
}

impl Copies for Kind {
    fn copy(&self, alloc: Global) -> Result<Kind, OutOfMemory> {
        match self {
            Kind::Bin {
                op,
                flags,
                ty,
                a,
                b,
            } => copy_bin(alloc, *op, *flags, ty, a, b),
            Kind::ICmp { pred, ty, a, b } => copy_icmp(alloc, *pred, ty, a, b),
            Kind::Cast { op, from, to } => copy_cast(alloc, *op, from, to),
            Kind::Select { cond, a, b } => copy_select(alloc, cond, a, b),
            Kind::Phi { ty, edges } => copy_phi(alloc, ty, edges),
            Kind::Alloca { ty, align } => Ok(Kind::Alloca {
                ty: ty.copy(alloc)?,
                align: *align,
            }),
            Kind::Load {
                ty,
                at,
                order,
                align,
            } => copy_load(alloc, ty, at, *order, *align),
            Kind::Store {
                value,
                at,
                order,
                align,
            } => copy_store(alloc, value, at, *order, *align),
            Kind::Rmw {
                op,
                at,
                value,
                order,
                align,
            } => copy_rmw(alloc, *op, at, value, *order, *align),
            Kind::Gep {
                inbounds,
                ty,
                base,
                path,
            } => copy_gep(alloc, *inbounds, ty, base, path),
            Kind::Fence { order } => Ok(Kind::Fence { order: *order }),
            Kind::Call {
                tail,
                ret,
                callee,
                args,
            } => copy_call(alloc, *tail, ret, callee, args),
            Kind::Br { to } => Ok(Kind::Br {
                to: to.copy(alloc)?,
            }),
            Kind::CondBr { cond, yes, no } => copy_branch(alloc, cond, yes, no),
            Kind::Switch { on, other, cases } => copy_switch(alloc, on, other, cases),
            Kind::Ret { value } => Ok(Kind::Ret {
                value: value.copy(alloc)?,
            }),
            Kind::Unreachable => Ok(Kind::Unreachable),
        }
    }
}

impl Copies for Inst {
    fn copy(&self, alloc: Global) -> Result<Inst, OutOfMemory> {
        Ok(Inst {
            result: self.result.copy(alloc)?,
            kind: self.kind.copy(alloc)?,
            line: self.line,
        })
    }
}
