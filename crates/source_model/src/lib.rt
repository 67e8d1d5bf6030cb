//! The source meaning: what a module of target regions does, by its source alone. One main thread runs the kernel;
//! no wrapper, work slot or machine thread occurs in it (OpenMP 5.1, "The Execution Model").
//!
//! `specs/SourceState.antt` has the definitions.
#![tactic(auto)]

/// What makes the next step: the main thread, or the region thread with this number, from 0.
#[derive(Clone, Copy)]
pub enum Choice {
    Main,
    Region(u32),
}

ghost use Rattle.std.specs.Prelude.{◌≡◌, ◌++◌, List};
ghost use Rattle.ir_core.specs.declared.module.Module.{Module};
ghost use Rattle.mem_model.specs.Runs.{run, then_run};
ghost use Rattle.source_model.specs.Source.{SourceState, SourceStep};
ghost use Rattle.source_model.specs.declared.Choice.{Choice as TheChoice};

/// A run of a schedule cut in two is the run of the second part from the state after the first.
pub fn run_in_two()
    ensures { (m : Module) (first second : List TheChoice) (s : SourceState) → run (SourceStep m) (first ++ second) s ≡ then_run (run (SourceStep m) first s) (run (SourceStep m) second) }
{}
