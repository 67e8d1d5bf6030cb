//! Words of tables.
ghost use Rattle.std.specs.Prelude.{◌≡◌, List as Listed, ℕ};
ghost use Rattle.ir_core.specs.Instructions.{predicates, orders, changes, tail_words};
ghost use Rattle.read_forms.specs.Read.{Gives, one_at, look_up, as_table, with_line_of};

use ir_core::{Or, Order, Pred, RmwOp, TailWord};
use read_forms::{Ahead, Reading};

/// What a word of a table stands for.
pub(crate) trait TableWord: Copy {
    ghost table: { Listed (Listed ℕ × Self) };

    fn of(word: &[u8]) -> Option<Self>
        ensures { result ≡ look_up table word.now };
}

/// A word of a table.
pub(crate) fn read_word<'a, T: TableWord>(ahead: Ahead<'a>) -> Reading<'a, T>
    ensures { Gives result (one_at (as_table T.table) ahead.entry) }
{
    let left = ahead.left();
    match ahead.split() {
        Some((token, rest)) if token.is_word() => match T::of(token.bytes()) {
            Some(value) => Ok((value, rest)),
            None => Err(Or::Refused(left)),
        },
        _ => Err(Or::Refused(left)),
    }
}

/// A word of a table, with its line.
pub(crate) fn read_word_with_line<'a, T: TableWord>(ahead: Ahead<'a>) -> Reading<'a, (T, u32)>
    ensures { Gives result (one_at (with_line_of (as_table T.table)) ahead.entry) }
{
    let left = ahead.left();
    match ahead.split() {
        Some((token, rest)) if token.is_word() => match T::of(token.bytes()) {
            Some(value) => Ok(((value, token.line()), rest)),
            None => Err(Or::Refused(left)),
        },
        _ => Err(Or::Refused(left)),
    }
}

impl TableWord for Pred {
    ghost table = { predicates };

    fn of(word: &[u8]) -> Option<Pred> {
        if word == b"eq".as_slice() {
            Some(Pred::Eq)
        } else if word == b"ne".as_slice() {
            Some(Pred::Ne)
        } else if word == b"ugt".as_slice() {
            Some(Pred::Ugt)
        } else if word == b"uge".as_slice() {
            Some(Pred::Uge)
        } else if word == b"ult".as_slice() {
            Some(Pred::Ult)
        } else if word == b"ule".as_slice() {
            Some(Pred::Ule)
        } else if word == b"sgt".as_slice() {
            Some(Pred::Sgt)
        } else if word == b"sge".as_slice() {
            Some(Pred::Sge)
        } else if word == b"slt".as_slice() {
            Some(Pred::Slt)
        } else if word == b"sle".as_slice() {
            Some(Pred::Sle)
        } else {
            None
        }
    }
}

impl TableWord for Order {
    ghost table = { orders };

    fn of(word: &[u8]) -> Option<Order> {
        if word == b"unordered".as_slice() {
            Some(Order::Unordered)
        } else if word == b"monotonic".as_slice() {
            Some(Order::Monotonic)
        } else if word == b"acquire".as_slice() {
            Some(Order::Acquire)
        } else if word == b"release".as_slice() {
            Some(Order::Release)
        } else if word == b"acq_rel".as_slice() {
            Some(Order::AcqRel)
        } else if word == b"seq_cst".as_slice() {
            Some(Order::SeqCst)
        } else {
            None
        }
    }
}

impl TableWord for RmwOp {
    ghost table = { changes };

    fn of(word: &[u8]) -> Option<RmwOp> {
        if word == b"xchg".as_slice() {
            Some(RmwOp::Xchg)
        } else if word == b"add".as_slice() {
            Some(RmwOp::Add)
        } else if word == b"sub".as_slice() {
            Some(RmwOp::Sub)
        } else if word == b"and".as_slice() {
            Some(RmwOp::And)
        } else if word == b"nand".as_slice() {
            Some(RmwOp::Nand)
        } else if word == b"or".as_slice() {
            Some(RmwOp::Or)
        } else if word == b"xor".as_slice() {
            Some(RmwOp::Xor)
        } else if word == b"max".as_slice() {
            Some(RmwOp::Max)
        } else if word == b"min".as_slice() {
            Some(RmwOp::Min)
        } else if word == b"umax".as_slice() {
            Some(RmwOp::UMax)
        } else if word == b"umin".as_slice() {
            Some(RmwOp::UMin)
        } else {
            None
        }
    }
}

impl TableWord for TailWord {
    ghost table = { tail_words };

    fn of(word: &[u8]) -> Option<TailWord> {
        if word == b"tail".as_slice() {
            Some(TailWord::Tail)
        } else if word == b"notail".as_slice() {
            Some(TailWord::NoTail)
        } else {
            None
        }
    }
}
