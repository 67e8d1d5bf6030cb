//! The team meaning: what an optimised module does on a team of machine threads. In generic mode W workers and a main
//! thread begin the kernel, in SPMD mode W threads; a schedule picks one of them for each step.
//!
//! `specs/Team.antt` has the definitions.
#![tactic(auto)]

pub use mem_model::Barrier;
use mem_model::Trap;

/// Steps of one machine thread in a row.
#[derive(Clone, Copy)]
pub struct Pair {
    pub thread: u32,
    pub count: u32,
}

/// How a machine thread stands.
#[derive(Clone, Copy)]
pub enum Stand {
    Runs,
    Waits(Barrier),
    Ended,
}

/// The trap that has ended a run.
#[derive(Clone, Copy)]
pub struct Trapping {
    pub thread: u32,
    pub line: u32,
    pub trap: Trap,
}

ghost use Rattle.std.specs.Prelude.{◌≡◌, ◌++◌, List, ℕ};
ghost use Rattle.ir_core.specs.declared.module.Module.{Module};
ghost use Rattle.mem_model.specs.Runs.{run, then_run};
ghost use Rattle.team_model.specs.Team.{Team, TeamStep};

/// A run of a schedule cut in two is the run of the second part from the state after the first.
pub fn run_in_two()
    ensures { (m : Module) (first second : List ℕ) (s : Team) → run (TeamStep m) (first ++ second) s ≡ then_run (run (TeamStep m) first s) (run (TeamStep m) second) }
{}
