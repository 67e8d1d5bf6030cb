//! Wrappers: functions that a fork names as such, or that ask for the captured words.
ghost use Rattle.std.specs.Prelude.{◌≡◌};
ghost use Rattle.std.specs.List.{flat_map};
ghost use Rattle.ir_core.specs.declared.module.Module.{Module as ModuleData};
ghost use Rattle.ir_core.specs.Wrappers.{is_in, callees, inst_callees, get_shared_variables, is_wrapper};
ghost use Rattle.name_uses.specs.Tables.{AreUses};

use crate::uses::Uses;
use ir_core::{Function, Inst, Rtl};
use shape_facts::calls;

fn asks(inst: &Inst) -> bool
    ensures { result ≡ is_in (inst_callees inst.now) get_shared_variables }
{
    calls(Rtl::GetSharedVariables, &inst.kind)
}

fn any_asks(insts: &[Inst]) -> bool
    ensures { result ≡ is_in (flat_map inst_callees insts.now) get_shared_variables }
{
    for inst in insts {
        if asks(inst) {
            return true;
        }
    }
    false
}

/// Whether a function asks for the captured words.
pub(crate) fn asks_for_words(f: &Function) -> bool
    ensures { result ≡ is_in (callees f.now) get_shared_variables }
{
    for block in f.blocks.as_slice() {
        if any_asks(block.insts.as_slice()) {
            return true;
        }
    }
    false
}

impl Uses {
    /// Whether a function is a wrapper.
    pub fn is_wrapper(&self, f: &Function) -> bool
        ensures { (m : ModuleData) → AreUses m self.now → result ≡ is_wrapper m f.now }
    {
        self.is_wrapping(&f.name) || asks_for_words(f)
    }
}
