//! Laws of the canonical text of a module. They take no code of the program.
#![tactic(auto)]

ghost use Rattle.std.specs.Prelude.{◌≤◌, length};
ghost use Rattle.ir_core.specs.declared.module.Module.{Module};
ghost use Rattle.ir_core.specs.Formed.{Formed, ReadsBack};
ghost use Rattle.ir_core.specs.Text.{Text};
ghost use Rattle.ir_core.specs.Tokens.{text_limit};

/// The canonical text of a module that some text of bytes spells, where it is within the limit, spells the module but for its lines.
pub fn canonical_text_spells()
    ensures { (m : Module) → Formed m → length (Text m) ≤ text_limit → ReadsBack (Text m) m }
{}
