//! Remarks on a module, and their text.
ghost use Rattle.std.specs.Prelude.{◌≡◌, ◌++◌, map, IfOk, OnOk};
ghost use Rattle.std.specs.List.{flat_map};
ghost use Rattle.ir_core.specs.MachineOff.{kind_init_lines, inst_init_lines, block_init_lines, function_init_lines, init_lines};
ghost use Rattle.ir_core.specs.Notes.{remark_word, remark_start, remark_end, remark_text, remarks_text, machine_removed};
ghost use Rattle.opt_core.specs.Optimised.{Modes, empty_mode};

use crate::machine_off::calls_init;
use ir_core::{Block, Function, Inst, Kind, List, Mode, Module, Name, OutOfMemory, Remark};
use itoa::Buffer;
use std::alloc::Global;

fn give_inst(out: &mut List<u32>, inst: &Inst) -> Result<(), OutOfMemory>
    ensures { OnOk result (out.new ≡ out.old ++ inst_init_lines inst.now) }
{
    match &inst.kind {
        Kind::Call { callee, .. } => {
            if calls_init(callee) {
                out.push(inst.line)?;
            }
            Ok(())
        }
        _ => Ok(()),
    }
}

fn give_insts(out: &mut List<u32>, insts: &[Inst]) -> Result<(), OutOfMemory>
    ensures { OnOk result (out.new ≡ out.old ++ flat_map inst_init_lines insts.now) }
{
    for inst in insts {
        give_inst(out, inst)?;
    }
    Ok(())
}

fn give_blocks(out: &mut List<u32>, blocks: &[Block]) -> Result<(), OutOfMemory>
    ensures { OnOk result (out.new ≡ out.old ++ flat_map block_init_lines blocks.now) }
{
    for block in blocks {
        give_insts(out, block.insts.as_slice())?;
    }
    Ok(())
}

fn give_functions(out: &mut List<u32>, functions: &[Function]) -> Result<(), OutOfMemory>
    ensures { OnOk result (out.new ≡ out.old ++ flat_map function_init_lines functions.now) }
{
    for f in functions {
        give_blocks(out, f.blocks.as_slice())?;
    }
    Ok(())
}

/// The lines of the init calls, in the order of the text.
pub fn init_lines(alloc: Global, m: &Module) -> Result<List<u32>, OutOfMemory>
    ensures { IfOk result (λ lines. lines ≡ init_lines m.now) }
{
    let mut out = List::new(alloc);
    give_functions(&mut out, m.functions.as_slice())?;
    Ok(out)
}

fn machine_removed(alloc: Global, line: u32) -> Result<Remark, OutOfMemory>
    ensures { IfOk result (λ r. r ≡ machine_removed line) }
{
    Ok(Remark {
        line,
        number: 130,
        text: Name::from_slice(
            alloc,
            b"Removing unused state machine from generic-mode kernel.",
        )?,
    })
}

/// One remark for each kernel, at the line of its init call.
pub fn remarks_at(alloc: Global, lines: &[u32]) -> Result<List<Remark>, OutOfMemory>
    ensures { IfOk result (λ rs. rs ≡ map machine_removed lines.now) }
{
    let mut out = List::new(alloc);
    for line in lines {
        out.push(machine_removed(alloc, *line)?)?;
    }
    Ok(out)
}

// A kernel without a region runs without a machine.
fn mode_at(_line: u32) -> Mode
    ensures { result ≡ empty_mode _line }
{
    Mode::Empty
}

/// One mode for each kernel, by the line of its init call.
pub fn modes_at(alloc: Global, lines: &[u32]) -> Result<List<Mode>, OutOfMemory>
    ensures { IfOk result (λ ms. ms ≡ map empty_mode lines.now) }
{
    let mut out = List::new(alloc);
    for line in lines {
        out.push(mode_at(*line))?;
    }
    Ok(out)
}

#[tactic(auto, unfolding(ir_core::specs::Notes::remark_word))]
fn remark_word() -> &'static [u8]
    ensures { result.now ≡ remark_word }
{
    b"remark: line "
}

#[tactic(auto, unfolding(ir_core::specs::Notes::remark_start))]
fn write_start(out: &mut Vec<u8>, line: u32) -> Result<(), OutOfMemory>
    ensures { OnOk result (out.new.items ≡ out.old.items ++ remark_start line) }
{
    let mut digits = Buffer::new();
    out.extend_from_slice(remark_word())?;
    out.extend_from_slice(digits.format(line).as_bytes())?;
    out.extend_from_slice(b": ")?;
    Ok(())
}

#[tactic(auto, unfolding(ir_core::specs::Notes::remark_end))]
fn write_end(out: &mut Vec<u8>, number: u32) -> Result<(), OutOfMemory>
    ensures { OnOk result (out.new.items ≡ out.old.items ++ remark_end number) }
{
    let mut digits = Buffer::new();
    out.extend_from_slice(b" [OMP")?;
    out.extend_from_slice(digits.format(number).as_bytes())?;
    out.extend_from_slice(b"]\n")?;
    Ok(())
}

fn write_remark(out: &mut Vec<u8>, remark: &Remark) -> Result<(), OutOfMemory>
    ensures { OnOk result (out.new.items ≡ out.old.items ++ remark_text remark.now) }
{
    write_start(out, remark.line)?;
    out.extend_from_slice(remark.text.as_slice())?;
    write_end(out, remark.number)
}

/// The text of the remarks, a line each.
pub fn print_remarks(alloc: Global, remarks: &[Remark]) -> Result<List<u8>, OutOfMemory>
    ensures { IfOk result (λ text. text ≡ remarks_text remarks.now) }
{
    let mut out = Vec::new(alloc);
    for remark in remarks {
        write_remark(&mut out, remark)?;
    }
    Ok(List::from_vec(out))
}
