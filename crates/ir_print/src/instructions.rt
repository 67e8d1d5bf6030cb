//! The text of instructions.
ghost use Rattle.std.specs.Prelude.{◌≡◌, ◌++◌, codes, map, OnOk};
ghost use Rattle.ir_core.specs.Text.{all_led, comma_list, type_text, value_text, typed_text, typed_texts, edge_text, case_text, flags_text, align_text, ordering_text, result_text, kind_text, inst_text};

use crate::names::{write_local, write_target};
use crate::operands::write_value;
use crate::types::write_type;
use crate::words::{
    atomic_word, bin_op_word, cast_word, gep_word, order_word, pred_word, rmw_word, tail_word,
};
use crate::writer::{Printed, Writer};
use ir_core::{
    BinOp, Case, CastOp, Edge, Flags, Inst, Kind, List, Name, Order, OutOfMemory, Pred, RmwOp,
    TailWord, Ty, Typed, Value,
};

/// Writes ` T a, b`.
fn write_pair(out: &mut Writer, ty: &Ty, a: &Value, b: &Value) -> Result<(), OutOfMemory>
    ensures { OnOk result (out.new ≡ out.old ++ codes " " ++ type_text ty.now ++ codes " " ++ value_text ty.now a.now ++ codes ", " ++ value_text ty.now b.now) }
{
    out.text(" ")?;
    write_type(out, ty)?;
    out.text(" ")?;
    write_value(out, ty, a)?;
    out.text(", ")?;
    write_value(out, ty, b)
}

/// Writes the flags that are given, each with a space before it.
fn write_flags(out: &mut Writer, flags: Flags) -> Result<(), OutOfMemory>
    ensures { OnOk result (out.new ≡ out.old ++ flags_text flags) }
{
    out.text(if flags.nuw { " nuw" } else { "" })?;
    out.text(if flags.nsw { " nsw" } else { "" })?;
    out.text(if flags.exact { " exact" } else { "" })
}

/// Writes `, align N`, or nothing for an alignment of 0.
pub fn write_align(out: &mut Writer, align: u32) -> Result<(), OutOfMemory>
    ensures { OnOk result (out.new ≡ out.old ++ align_text align) }
{
    if align == 0 {
        return Ok(());
    }
    out.text(", align ")?;
    out.number(u64::from(align))
}

/// Writes the ordering of an access, with a space before it.
fn write_ordering(out: &mut Writer, order: Option<Order>) -> Result<(), OutOfMemory>
    ensures { OnOk result (out.new ≡ out.old ++ ordering_text order) }
{
    match order {
        None => Ok(()),
        Some(order) => {
            out.text(" ")?;
            out.text(order_word(order))
        }
    }
}

fn write_bin(
    out: &mut Writer,
    op: BinOp,
    flags: Flags,
    ty: &Ty,
    a: &Value,
    b: &Value,
) -> Result<(), OutOfMemory>
    ensures { OnOk result (out.new ≡ out.old ++ kind_text (Kind.Bin op flags ty.now a.now b.now)) }
{
    out.text(bin_op_word(op))?;
    write_flags(out, flags)?;
    write_pair(out, ty, a, b)
}

fn write_icmp(
    out: &mut Writer,
    pred: Pred,
    ty: &Ty,
    a: &Value,
    b: &Value,
) -> Result<(), OutOfMemory>
    ensures { OnOk result (out.new ≡ out.old ++ kind_text (Kind.ICmp pred ty.now a.now b.now)) }
{
    out.text("icmp ")?;
    out.text(pred_word(pred))?;
    write_pair(out, ty, a, b)
}

fn write_cast(out: &mut Writer, op: CastOp, from: &Typed, to: &Ty) -> Result<(), OutOfMemory>
    ensures { OnOk result (out.new ≡ out.old ++ kind_text (Kind.Cast op from.now to.now)) }
{
    out.text(cast_word(op))?;
    out.text(" ")?;
    from.print(out)?;
    out.text(" to ")?;
    write_type(out, to)
}

fn write_select(out: &mut Writer, cond: &Typed, a: &Typed, b: &Typed) -> Result<(), OutOfMemory>
    ensures { OnOk result (out.new ≡ out.old ++ kind_text (Kind.Select cond.now a.now b.now)) }
{
    out.text("select ")?;
    cond.print(out)?;
    out.text(", ")?;
    a.print(out)?;
    out.text(", ")?;
    b.print(out)
}

/// Writes `[ V, %B ]`.
fn write_edge(out: &mut Writer, ty: &Ty, edge: &Edge) -> Result<(), OutOfMemory>
    ensures { OnOk result (out.new ≡ out.old ++ edge_text ty.now edge.now) }
{
    out.text("[ ")?;
    write_value(out, ty, &edge.value)?;
    out.text(", ")?;
    write_local(out, &edge.block)?;
    out.text(" ]")
}

/// Writes the edges of a phi with commas between them.
fn write_edges(out: &mut Writer, ty: &Ty, edges: &[Edge]) -> Result<(), OutOfMemory>
    ensures { OnOk result (out.new ≡ out.old ++ comma_list (map (edge_text ty.now) edges.now)) }
{
    match edges.split_first() {
        None => Ok(()),
        Some((first, rest)) => {
            write_edge(out, ty, first)?;
            for edge in rest {
                out.text(", ")?;
                write_edge(out, ty, edge)?;
            }
            Ok(())
        }
    }
}

fn write_phi(out: &mut Writer, ty: &Ty, edges: &List<Edge>) -> Result<(), OutOfMemory>
    ensures { OnOk result (out.new ≡ out.old ++ kind_text (Kind.Phi ty.now edges.now)) }
{
    out.text("phi ")?;
    write_type(out, ty)?;
    out.text(" ")?;
    write_edges(out, ty, edges.as_slice())
}

fn write_alloca(out: &mut Writer, ty: &Ty, align: u32) -> Result<(), OutOfMemory>
    ensures { OnOk result (out.new ≡ out.old ++ kind_text (Kind.Alloca ty.now align)) }
{
    out.text("alloca ")?;
    write_type(out, ty)?;
    write_align(out, align)
}

/// Writes `, ptr P` of a load or a store, and what stands behind it.
fn write_access(
    out: &mut Writer,
    at: &Typed,
    order: Option<Order>,
    align: u32,
) -> Result<(), OutOfMemory>
    ensures { OnOk result (out.new ≡ out.old ++ codes ", " ++ typed_text at.now ++ ordering_text order ++ align_text align) }
{
    out.text(", ")?;
    at.print(out)?;
    write_ordering(out, order)?;
    write_align(out, align)
}

fn write_load(
    out: &mut Writer,
    ty: &Ty,
    at: &Typed,
    order: Option<Order>,
    align: u32,
) -> Result<(), OutOfMemory>
    ensures { OnOk result (out.new ≡ out.old ++ kind_text (Kind.Load ty.now at.now order align)) }
{
    out.text("load")?;
    out.text(atomic_word(order))?;
    write_type(out, ty)?;
    write_access(out, at, order, align)
}

fn write_store(
    out: &mut Writer,
    value: &Typed,
    at: &Typed,
    order: Option<Order>,
    align: u32,
) -> Result<(), OutOfMemory>
    ensures { OnOk result (out.new ≡ out.old ++ kind_text (Kind.Store value.now at.now order align)) }
{
    out.text("store")?;
    out.text(atomic_word(order))?;
    value.print(out)?;
    write_access(out, at, order, align)
}

/// Writes the two operands of `atomicrmw`.
fn write_exchanged(out: &mut Writer, at: &Typed, value: &Typed) -> Result<(), OutOfMemory>
    ensures { OnOk result (out.new ≡ out.old ++ codes " " ++ typed_text at.now ++ codes ", " ++ typed_text value.now ++ codes " ") }
{
    out.text(" ")?;
    at.print(out)?;
    out.text(", ")?;
    value.print(out)?;
    out.text(" ")
}

fn write_rmw(
    out: &mut Writer,
    op: RmwOp,
    at: &Typed,
    value: &Typed,
    order: Order,
    align: u32,
) -> Result<(), OutOfMemory>
    ensures { OnOk result (out.new ≡ out.old ++ kind_text (Kind.Rmw op at.now value.now order align)) }
{
    out.text("atomicrmw ")?;
    out.text(rmw_word(op))?;
    write_exchanged(out, at, value)?;
    out.text(order_word(order))?;
    write_align(out, align)
}

/// Writes the base of a path, with the type that the path goes through, and the path.
fn write_path(
    out: &mut Writer,
    ty: &Ty,
    base: &Typed,
    path: &List<Typed>,
) -> Result<(), OutOfMemory>
    ensures { OnOk result (out.new ≡ out.old ++ type_text ty.now ++ codes ", " ++ typed_text base.now ++ all_led (codes ", ") (typed_texts path.now)) }
{
    write_type(out, ty)?;
    out.text(", ")?;
    base.print(out)?;
    out.led(", ", path.as_slice())
}

fn write_gep(
    out: &mut Writer,
    inbounds: bool,
    ty: &Ty,
    base: &Typed,
    path: &List<Typed>,
) -> Result<(), OutOfMemory>
    ensures { OnOk result (out.new ≡ out.old ++ kind_text (Kind.Gep inbounds ty.now base.now path.now)) }
{
    out.text(gep_word(inbounds))?;
    write_path(out, ty, base, path)
}

fn write_fence(out: &mut Writer, order: Order) -> Result<(), OutOfMemory>
    ensures { OnOk result (out.new ≡ out.old ++ kind_text (Kind.Fence order)) }
{
    out.text("fence ")?;
    out.text(order_word(order))
}

/// Writes what a call goes to, with the type of its result.
fn write_callee(out: &mut Writer, ret: &Ty, callee: &Value) -> Result<(), OutOfMemory>
    ensures { OnOk result (out.new ≡ out.old ++ type_text ret.now ++ codes " " ++ value_text ret.now callee.now) }
{
    write_type(out, ret)?;
    out.text(" ")?;
    write_value(out, ret, callee)
}

/// Writes the arguments of a call between parentheses.
fn write_arguments(out: &mut Writer, args: &[Typed]) -> Result<(), OutOfMemory>
    ensures { OnOk result (out.new ≡ out.old ++ codes "(" ++ comma_list (typed_texts args.now) ++ codes ")") }
{
    out.text("(")?;
    out.parted(", ", args)?;
    out.text(")")
}

fn write_call(
    out: &mut Writer,
    tail: TailWord,
    ret: &Ty,
    callee: &Value,
    args: &List<Typed>,
) -> Result<(), OutOfMemory>
    ensures { OnOk result (out.new ≡ out.old ++ kind_text (Kind.Call tail ret.now callee.now args.now)) }
{
    out.text(tail_word(tail))?;
    out.text("call ")?;
    write_callee(out, ret, callee)?;
    write_arguments(out, args.as_slice())
}

fn write_br(out: &mut Writer, to: &Name) -> Result<(), OutOfMemory>
    ensures { OnOk result (out.new ≡ out.old ++ kind_text (Kind.Br to.now)) }
{
    out.text("br ")?;
    write_target(out, to)
}

fn write_cond_br(out: &mut Writer, cond: &Typed, yes: &Name, no: &Name) -> Result<(), OutOfMemory>
    ensures { OnOk result (out.new ≡ out.old ++ kind_text (Kind.CondBr cond.now yes.now no.now)) }
{
    out.text("br ")?;
    cond.print(out)?;
    out.text(", ")?;
    write_target(out, yes)?;
    out.text(", ")?;
    write_target(out, no)
}

impl Printed for Case {
    ghost text = { case_text };

    fn print(&self, out: &mut Writer) -> Result<(), OutOfMemory> {
        self.value.print(out)?;
        out.text(", ")?;
        write_target(out, &self.block)
    }
}

fn write_switch(
    out: &mut Writer,
    on: &Typed,
    other: &Name,
    cases: &List<Case>,
) -> Result<(), OutOfMemory>
    ensures { OnOk result (out.new ≡ out.old ++ kind_text (Kind.Switch on.now other.now cases.now)) }
{
    out.text("switch ")?;
    on.print(out)?;
    out.text(", ")?;
    write_target(out, other)?;
    out.text(" [")?;
    out.in_spaces(" ", cases.as_slice())?;
    out.text("]")
}

fn write_ret(out: &mut Writer, value: &Option<Typed>) -> Result<(), OutOfMemory>
    ensures { OnOk result (out.new ≡ out.old ++ kind_text (Kind.Ret value.now)) }
{
    out.text("ret ")?;
    match value {
        None => out.text("void"),
        Some(value) => value.print(out),
    }
}

impl Printed for Kind {
    ghost text = { kind_text };

    fn print(&self, out: &mut Writer) -> Result<(), OutOfMemory> {
        match self {
            Kind::Bin {
                op,
                flags,
                ty,
                a,
                b,
            } => write_bin(out, *op, *flags, ty, a, b),
            Kind::ICmp { pred, ty, a, b } => write_icmp(out, *pred, ty, a, b),
            Kind::Cast { op, from, to } => write_cast(out, *op, from, to),
            Kind::Select { cond, a, b } => write_select(out, cond, a, b),
            Kind::Phi { ty, edges } => write_phi(out, ty, edges),
            Kind::Alloca { ty, align } => write_alloca(out, ty, *align),
            Kind::Load {
                ty,
                at,
                order,
                align,
            } => write_load(out, ty, at, *order, *align),
            Kind::Store {
                value,
                at,
                order,
                align,
            } => write_store(out, value, at, *order, *align),
            Kind::Rmw {
                op,
                at,
                value,
                order,
                align,
            } => { write_rmw(out, *op, at, value, *order, *align) }
            Kind::Gep {
                inbounds,
                ty,
                base,
                path,
            } => write_gep(out, *inbounds, ty, base, path),
            Kind::Fence { order } => write_fence(out, *order),
            Kind::Call {
                tail,
                ret,
                callee,
                args,
            } => write_call(out, *tail, ret, callee, args),
            Kind::Br { to } => write_br(out, to),
            Kind::CondBr { cond, yes, no } => write_cond_br(out, cond, yes, no),
            Kind::Switch { on, other, cases } => write_switch(out, on, other, cases),
            Kind::Ret { value } => write_ret(out, value),
            Kind::Unreachable => out.text("unreachable"),
        }
    }
}

/// Writes `%N = `, or nothing.
fn write_register(out: &mut Writer, register: &Option<Name>) -> Result<(), OutOfMemory>
    ensures { OnOk result (out.new ≡ out.old ++ result_text register.now) }
{
    match register {
        None => Ok(()),
        Some(name) => {
            write_local(out, name)?;
            out.text(" = ")
        }
    }
}

impl Printed for Inst {
    ghost text = { inst_text };

    fn print(&self, out: &mut Writer) -> Result<(), OutOfMemory> {
        out.text("  ")?;
        write_register(out, &self.result)?;
        self.kind.print(out)?;
        out.text("\n")
    }
}
