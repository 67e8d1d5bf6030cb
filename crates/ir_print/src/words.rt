//! The words of a text.
ghost use Rattle.std.specs.Prelude.{◌≡◌, ◌++◌, codes};
ghost use Rattle.ir_core.specs.Text.{bin_op_text, pred_text, cast_text, rmw_text, order_text, atomic_text, word_if, tail_text, constness_text};

use ir_core::{BinOp, CastOp, Order, Pred, RmwOp, TailWord};

/// The word of a binary operation.
pub fn bin_op_word(op: BinOp) -> &'static str
    ensures { result.now ≡ bin_op_text op }
{
    match op {
        BinOp::Add => "add",
        BinOp::Sub => "sub",
        BinOp::Mul => "mul",
        BinOp::Shl => "shl",
        BinOp::UDiv => "udiv",
        BinOp::SDiv => "sdiv",
        BinOp::LShr => "lshr",
        BinOp::AShr => "ashr",
        BinOp::URem => "urem",
        BinOp::SRem => "srem",
        BinOp::And => "and",
        BinOp::Or => "or",
        BinOp::Xor => "xor",
    }
}

/// The word of a condition of `icmp`.
pub fn pred_word(pred: Pred) -> &'static str
    ensures { result.now ≡ pred_text pred }
{
    match pred {
        Pred::Eq => "eq",
        Pred::Ne => "ne",
        Pred::Ugt => "ugt",
        Pred::Uge => "uge",
        Pred::Ult => "ult",
        Pred::Ule => "ule",
        Pred::Sgt => "sgt",
        Pred::Sge => "sge",
        Pred::Slt => "slt",
        Pred::Sle => "sle",
    }
}

/// The word of a conversion.
pub fn cast_word(op: CastOp) -> &'static str
    ensures { result.now ≡ cast_text op }
{
    match op {
        CastOp::ZExt => "zext",
        CastOp::SExt => "sext",
        CastOp::Trunc => "trunc",
        CastOp::IntToPtr => "inttoptr",
        CastOp::PtrToInt => "ptrtoint",
    }
}

/// The word of an operation of `atomicrmw`.
pub fn rmw_word(op: RmwOp) -> &'static str
    ensures { result.now ≡ rmw_text op }
{
    match op {
        RmwOp::Xchg => "xchg",
        RmwOp::Add => "add",
        RmwOp::Sub => "sub",
        RmwOp::And => "and",
        RmwOp::Nand => "nand",
        RmwOp::Or => "or",
        RmwOp::Xor => "xor",
        RmwOp::Max => "max",
        RmwOp::Min => "min",
        RmwOp::UMax => "umax",
        RmwOp::UMin => "umin",
    }
}

/// The word of a memory ordering.
pub fn order_word(order: Order) -> &'static str
    ensures { result.now ≡ order_text order }
{
    match order {
        Order::Unordered => "unordered",
        Order::Monotonic => "monotonic",
        Order::Acquire => "acquire",
        Order::Release => "release",
        Order::AcqRel => "acq_rel",
        Order::SeqCst => "seq_cst",
    }
}

/// What stands behind `load` or `store`.
pub fn atomic_word(order: Option<Order>) -> &'static str
    ensures { result.now ≡ atomic_text order }
{
    match order {
        None => " ",
        Some(_) => " atomic ",
    }
}

/// What stands before the base of a `getelementptr`.
pub fn gep_word(inbounds: bool) -> &'static str
    ensures { result.now ≡ codes "getelementptr " ++ word_if inbounds (codes "inbounds ") }
{
    if inbounds {
        "getelementptr inbounds "
    } else {
        "getelementptr "
    }
}

/// What stands before `call`.
pub fn tail_word(tail: TailWord) -> &'static str
    ensures { result.now ≡ tail_text tail }
{
    match tail {
        TailWord::Absent => "",
        TailWord::Tail => "tail ",
        TailWord::NoTail => "notail ",
    }
}

/// The word of a global's constancy.
pub fn constness_word(constant: bool) -> &'static str
    ensures { result.now ≡ constness_text constant }
{
    if constant { "constant" } else { "global" }
}
