//! Laws of the modules that the optimiser gives: what holds of them where it held of the module that was taken. They take no code of the program.
#![tactic(auto)]

ghost use Rattle.std.specs.Prelude.{◌≡◌, ◌↔◌, [], false, Option};
ghost use Rattle.ir_core.specs.declared.instructions.Inst.{Inst};
ghost use Rattle.ir_core.specs.declared.module.Module.{Module};
ghost use Rattle.ir_core.specs.declared.module.Function.{Function};
ghost use Rattle.ir_core.specs.declared.module.Block.{Block};
ghost use Rattle.ir_core.specs.declared.module.Global.{Global};
ghost use Rattle.ir_core.specs.MachineOff.{block_off, function_off, machine_off};
ghost use Rattle.ir_core.specs.NameRefusals.{name_refusals};
ghost use Rattle.ir_core.specs.declared.refusal.Refusal.{Refusal};
ghost use Rattle.shapes.specs.CallPaths.{IsNested};
ghost use Rattle.shapes.specs.Clauses.{clause_refusals};
ghost use Rattle.shapes.specs.KernelShape.{has_heading, exec_mode, of_exec_mode, spmd_inputs, Ways, kernel_ways, of_exit, of_block, kernel_refusals};
ghost use Rattle.shapes.specs.Limits.{limit_refusals};
ghost use Rattle.shapes.specs.Wrappers.{wrapper_refusals};
ghost use Rattle.formed_parts.specs.Edits.{module_edited};
ghost use Rattle.output_laws.specs.Names.{KeepsNames, KeepsRules};
ghost use Rattle.checked_modules.specs.Checked.{HasNoRefusal};
ghost use Rattle.out_modules.specs.Outputs.{IsOutput};
ghost use Rattle.out_modules.specs.OutputKernels.{is_switched_off_init, kernel_refusals_by, output_kernel_refusals};

/// Nothing is refused of names and types where each instruction is replaced by one that gives the same names and keeps the rules of its kind.
pub fn edits_keep_names()
    ensures { (edit : Inst → Inst) → KeepsNames edit → (m : Module) → KeepsRules edit m → name_refusals m ≡ [] → name_refusals (module_edited edit m) ≡ [] }
{}

/// Nothing is refused of the names and types of a module whose unused state machine is switched off, where nothing was before.
pub fn off_keeps_names()
    ensures { (m : Module) → name_refusals m ≡ [] → name_refusals (machine_off m) ≡ [] }
{}

/// The same is refused of the clauses of a module whose unused state machine is switched off as before.
pub fn off_keeps_clauses()
    ensures { (m : Module) → clause_refusals (machine_off m) ≡ clause_refusals m }
{}

/// The same is refused of how large a module is whose unused state machine is switched off as before.
pub fn off_keeps_limits()
    ensures { (m : Module) → limit_refusals (machine_off m) ≡ limit_refusals m }
{}

/// The same forks stand on paths from a region in a module whose unused state machine is switched off as before.
pub fn off_keeps_nested()
    ensures { (m : Module) → (r : Refusal) → IsNested (machine_off m) r ↔ IsNested m r }
{}

/// The same is refused of the wrappers and forks of a module whose unused state machine is switched off as before, where nothing was refused of its kernels.
pub fn off_keeps_wrappers()
    ensures { (m : Module) → kernel_refusals m ≡ [] → wrapper_refusals (machine_off m) ≡ wrapper_refusals m }
{}

/// The heading of a kernel, its mode, the ways of its threads, its exit and the ends of its user code are as before where the machine is switched off.
pub fn off_keeps_kernel_parts()
    ensures heading { (m : Module) (f : Function) → has_heading (machine_off m) (function_off f) ≡ has_heading m f }
    ensures mode { (m : Module) (f : Function) → exec_mode (machine_off m) (function_off f) ≡ exec_mode m f }
    ensures mode_rules { (m : Module) → kernel_refusals m ≡ [] → (g : Option Global) → of_exec_mode (machine_off m) g ≡ of_exec_mode m g }
    ensures spmd { (m : Module) (f : Function) → spmd_inputs (machine_off m) (function_off f) ≡ spmd_inputs m f }
    ensures ways { (f : Function) → kernel_ways (function_off f) ≡ kernel_ways f }
    ensures exit { (f : Function) (w : Option Ways) → of_exit (function_off f) w ≡ of_exit f w }
    ensures ends { (w : Option Ways) (b : Block) → of_block w (block_off b) ≡ of_block w b }
{}

/// Where nothing is refused of the kernels of a module, they have the shape of those that the optimiser gives.
pub fn output_kernels()
    ensures { (m : Module) → kernel_refusals m ≡ [] → output_kernel_refusals m ≡ [] }
{}

/// Kernels whose unused state machine is switched off have the shape of those that the optimiser gives, where nothing was refused of them before.
pub fn off_keeps_kernels()
    ensures { (m : Module) → kernel_refusals m ≡ [] → output_kernel_refusals (machine_off m) ≡ [] }
{}

/// The flag of each kernel whose unused state machine is switched off is 0, where nothing was refused of names and kernels before.
pub fn off_switches_kernels()
    ensures { (m : Module) → name_refusals m ≡ [] → kernel_refusals m ≡ [] → kernel_refusals_by is_switched_off_init (machine_off m) ≡ [] }
{}

/// As a module that is taken, one whose unused state machine is switched off is refused at its init calls, and nowhere else, where nothing was refused of names and kernels before.
pub fn off_refuses_inits()
    ensures { (m : Module) → name_refusals m ≡ [] → kernel_refusals m ≡ [] → kernel_refusals (machine_off m) ≡ kernel_refusals_by (λ i. false) m }
{}

/// A module of which nothing is refused is one that the optimiser may give.
pub fn accepted_is_output()
    ensures { (m : Module) → HasNoRefusal m → IsOutput m }
{}

/// A module of which nothing is refused is one that the optimiser may give when its unused state machine is switched off.
pub fn off_is_output()
    ensures { (m : Module) → HasNoRefusal m → IsOutput (machine_off m) }
{}
