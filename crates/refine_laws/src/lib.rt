//! Laws that join the two meanings of a module.
#![tactic(auto)]

ghost use Rattle.std.specs.Prelude.{true, false};
ghost use Rattle.ir_core.specs.declared.module.Module.{Module};
ghost use Rattle.ir_core.specs.FirstForm.{HasFirstForm};
ghost use Rattle.ir_core.specs.MachineOff.{machine_off};
ghost use Rattle.mem_model.specs.declared.launch.Launch.{Launch};
ghost use Rattle.mem_model.specs.Launching.{Fits};
ghost use Rattle.mem_model.specs.declared.step.End.TheVariants.{Ended};
ghost use Rattle.source_model.specs.Source.{SourceSystem};
ghost use Rattle.team_model.specs.Team.{TeamSystem};
ghost use Rattle.refine_laws.specs.Refines.{Refines};
ghost use Rattle.refine_laws.specs.Example.{example, launch, result_of_run};

/// Six steps of the example's source and ten of its team, with the machine off, end with the same outcome.
pub fn example_ends()
    ensures source { SourceSystem (example true) launch 0 6 Ended result_of_run }
    ensures team { TeamSystem (example true) (example false) launch 10 Ended result_of_run }
{}

/// A kernel of the first form whose machine is switched off refines its source, at every launch that fits.
pub fn machine_off_refines()
    ensures { (m : Module) (l : Launch) → HasFirstForm m → Fits m l → Refines m (machine_off m) l }
{}
