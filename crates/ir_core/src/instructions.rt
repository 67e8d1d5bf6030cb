//! Instructions and their operands (LLVM Language Reference, "Instruction Reference").
use crate::name::Name;
use crate::types::Ty;
use sqlite_items::Items as List;

/// An operand. A number that is of its integer type is kept modulo two to its width, every other modulo 2^64.
#[derive(Drop)]
pub enum Value {
    Int(u64),
    Null,
    /// `%N`.
    Local(Name),
    /// `@N`.
    Global(Name),
}

/// Binary operations.
#[derive(Clone, Copy)]
pub enum BinOp {
    Add,
    Sub,
    Mul,
    Shl,
    UDiv,
    SDiv,
    LShr,
    AShr,
    URem,
    SRem,
    And,
    Or,
    Xor,
}

/// The flags of a binary operation; each is false where the operation cannot have it.
#[derive(Clone, Copy)]
pub struct Flags {
    pub nsw: bool,
    pub nuw: bool,
    pub exact: bool,
}

/// The conditions of `icmp`.
#[derive(Clone, Copy)]
pub enum Pred {
    Eq,
    Ne,
    Ugt,
    Uge,
    Ult,
    Ule,
    Sgt,
    Sge,
    Slt,
    Sle,
}

/// Conversions.
#[derive(Clone, Copy)]
pub enum CastOp {
    ZExt,
    SExt,
    Trunc,
    IntToPtr,
    PtrToInt,
}

/// The operations of `atomicrmw`.
#[derive(Clone, Copy)]
pub enum RmwOp {
    Xchg,
    Add,
    Sub,
    And,
    Nand,
    Or,
    Xor,
    Max,
    Min,
    UMax,
    UMin,
}

/// Memory orderings. All are kept, and have no meaning beside sequential consistency.
#[derive(Clone, Copy)]
pub enum Order {
    Unordered,
    Monotonic,
    Acquire,
    Release,
    AcqRel,
    SeqCst,
}

/// The word before `call`.
#[derive(Clone, Copy)]
pub enum TailWord {
    Absent,
    Tail,
    NoTail,
}

/// An operand with its type, `T x`.
#[derive(Drop)]
pub struct Typed {
    pub ty: Ty,
    pub value: Value,
}

/// An entry of a phi: the value that comes by the edge from a block.
#[derive(Drop)]
pub struct Edge {
    pub value: Value,
    pub block: Name,
}

/// A case of a `switch`: the block that a value goes to.
#[derive(Drop)]
pub struct Case {
    pub value: Typed,
    pub block: Name,
}

/// What an instruction does. An `align` of 0 is none.
#[derive(Drop)]
pub enum Kind {
    Bin {
        op: BinOp,
        flags: Flags,
        ty: Ty,
        a: Value,
        b: Value,
    },
    ICmp {
        pred: Pred,
        ty: Ty,
        a: Value,
        b: Value,
    },
    Cast {
        op: CastOp,
        from: Typed,
        to: Ty,
    },
    Select {
        cond: Typed,
        a: Typed,
        b: Typed,
    },
    Phi {
        ty: Ty,
        edges: List<Edge>,
    },
    Alloca {
        ty: Ty,
        align: u32,
    },
    Load {
        ty: Ty,
        at: Typed,
        order: Option<Order>,
        align: u32,
    },
    Store {
        value: Typed,
        at: Typed,
        order: Option<Order>,
        align: u32,
    },
    Rmw {
        op: RmwOp,
        at: Typed,
        value: Typed,
        order: Order,
        align: u32,
    },
    Gep {
        inbounds: bool,
        ty: Ty,
        base: Typed,
        path: List<Typed>,
    },
    Fence {
        order: Order,
    },
    Call {
        tail: TailWord,
        ret: Ty,
        callee: Value,
        args: List<Typed>,
    },
    Br {
        to: Name,
    },
    CondBr {
        cond: Typed,
        yes: Name,
        no: Name,
    },
    Switch {
        on: Typed,
        other: Name,
        cases: List<Case>,
    },
    Ret {
        value: Option<Typed>,
    },
    Unreachable,
}

/// An instruction, with the register that takes its result. Lines are counted from 1.
#[derive(Drop)]
pub struct Inst {
    pub result: Option<Name>,
    pub kind: Kind,
    pub line: u32,
}
