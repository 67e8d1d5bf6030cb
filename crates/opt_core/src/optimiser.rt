//! The optimiser. By now it switches off the machines of kernels without regions.
ghost use Rattle.std.specs.Prelude.{◌≡◌, IfOk};
ghost use Rattle.ir_core.specs.FirstForm.{HasFirstForm};
ghost use Rattle.refine_laws.specs.Refines.{RefinesSource};
ghost use Rattle.opt_core.specs.Optimised.{IsOptimisedModule};

use crate::machine_off::machine_off;
use crate::remarks::{init_lines, modes_at, remarks_at};
use checked_modules::Checked;
use ir_core::{List, Mode, OutOfMemory, Remark};
use out_modules::OutModule;
use std::alloc::Global;

/// The optimised module, how each of its kernels runs in the order of the text, and the remarks in their order.
#[derive(Drop)]
pub struct Optimised {
    pub module: OutModule,
    pub modes: List<Mode>,
    pub remarks: List<Remark>,
}

/// The module, optimised: at every launch that fits, its team does nothing that the source may not do, which is claimed of modules of
/// the first form by now. It refuses nothing.
pub fn optimise(alloc: Global, m: &Checked) -> Result<Optimised, OutOfMemory>
    ensures module { IfOk result (λ o. IsOptimisedModule m.now o) }
    ensures refines { IfOk result (λ o. HasFirstForm m.now → RefinesSource m.now o.module) }
{
    let source = m.module();
    let lines = init_lines(alloc, source)?;
    let out = machine_off(alloc, source)?;
    Ok(Optimised {
        module: OutModule::of(alloc, out)?,
        modes: modes_at(alloc, lines.as_slice())?,
        remarks: remarks_at(alloc, lines.as_slice())?,
    })
}
