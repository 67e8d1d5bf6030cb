//! Laws of the parts of a module that some text spells. They take no code of the program.
#![tactic(auto)]

ghost use Rattle.ir_core.specs.declared.instructions.Inst.{Inst};
ghost use Rattle.ir_core.specs.declared.module.Module.{Module};
ghost use Rattle.ir_core.specs.Formed.{Formed};
ghost use Rattle.ir_core.specs.MachineOff.{machine_off};
ghost use Rattle.text_laws.specs.Parts.{FormedParts};
ghost use Rattle.formed_parts.specs.Edits.{KeepsInsts, module_edited};

/// A module that some text of bytes spells is made of parts that are each as they must be.
pub fn parts_of_formed()
    ensures { (m : Module) → Formed m → FormedParts m }
{}

/// A module that is made of such parts is one that some text of bytes spells.
pub fn formed_of_parts()
    ensures { (m : Module) → FormedParts m → Formed m }
{}

/// A module stays made of such parts where each instruction is replaced by one that may stand where it stood.
pub fn edits_keep_parts()
    ensures { (edit : Inst → Inst) → KeepsInsts edit → (m : Module) → FormedParts m → FormedParts (module_edited edit m) }
{}

/// A module that some text spells is one when its unused state machine is switched off.
pub fn off_is_formed()
    ensures { (m : Module) → Formed m → Formed (machine_off m) }
{}
