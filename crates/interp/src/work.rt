//! Questions for published work.
ghost use Rattle.std.specs.Prelude.{◌≡◌, ℕ, ◌+◌, ◌<◌, ◌^◌, List, Option, Some, None};
ghost use Rattle.ir_core.specs.Places.{Name};
ghost use Rattle.mem_model.specs.Next.{AsksForWork};
ghost use Rattle.mem_model.specs.Thread.{Frame};
ghost use Rattle.thread_state.specs.Seen.{IsThread};
ghost use Rattle.thread_state.specs.Moves.{index_of};
ghost use Rattle.interp_local.specs.Operands.{AreFew};
ghost use Rattle.mem_model.specs.declared.phase.Phase.TheVariants.{Begins};
ghost use Rattle.interp_local.specs.Steps.{inst_of, phase_of};
ghost use Rattle.interp.specs.Events.{IsHere, Makes};

use crate::events::{Here, traps};
use crate::shared::TeamShared;
use interp_local::take_work;
use ir_core::Inst;
use ir_tables::Indexed;
use thread_state::ThreadState;

/// Answers a thread that asks for the published work: what stands in the work slot.
pub(crate) fn ask(m: &Indexed, sh: &mut TeamShared, s: &mut ThreadState, here: Here, inst: &Inst)
    requires few { AreFew m.now }
    requires begins { phase_of s.old ≡ Begins }
    requires stands { inst_of m.now s.old ≡ Some inst.now }
    requires within { index_of s.old + 1 < 2 ^ 64 }
    requires thread { IsThread m.now s.old }
    requires runs { sh.old.trapped ≡ None }
    ensures { (x : Option Name) (f : Frame) (rest : List Frame) → IsHere m.now s.old x here f rest → Makes m.now here.thread sh.old sh.new s.old s.new AsksForWork }
{
    if let Err(trap) = take_work(m, s, inst, sh.slot) {
        traps(sh, here, trap);
    }
}
