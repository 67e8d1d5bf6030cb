//! Laws of modules that are read. They take no code of the program.
#![tactic(auto)]

ghost use Rattle.formed_laws.specs.Reading.{ReadIsFormed};

/// A module that a text of bytes spells is formed: the part of the text that is looked at spells it.
pub fn read_is_formed()
    ensures { ReadIsFormed }
{}
