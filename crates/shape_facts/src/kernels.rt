//! Kernels: functions that call `__kmpc_target_init`.
ghost use Rattle.std.specs.Prelude.{◌≡◌};
ghost use Rattle.std.specs.List.{list_any};
ghost use Rattle.shapes.specs.Facts.{is_call_of as is_call};
ghost use Rattle.shapes.specs.KernelShape as spec;

use crate::facts::is_call_of;
use ir_core::{Function, Inst, Rtl};

fn any_init(insts: &[Inst]) -> bool
    ensures { result ≡ list_any (is_call Rtl.TargetInit) insts.now }
{
    insts.iter().any(|inst| is_call_of(Rtl::TargetInit, inst))
}

/// Whether a function is a kernel.
pub fn is_kernel(f: &Function) -> bool
    ensures { result ≡ spec.is_kernel f.now }
{
    f.blocks
        .as_slice()
        .iter()
        .any(|block| any_init(block.insts.as_slice()))
}
