//! Laws of modules of which nothing is refused: what the optimiser, the launch and the interpreters may rely on.
#![tactic(auto)]

ghost use Rattle.accepted_laws.specs.Accepted.{TypesHaveSizes, NamesArePlaces, ParametersAreScalars, InstructionsAreFew};

/// The types whose sizes instructions need have sizes.
pub fn types_have_sizes()
    ensures { TypesHaveSizes }
{}

/// The name of a function is that of its place.
pub fn names_are_places()
    ensures { NamesArePlaces }
{}

/// Parameters are pointers and integers.
pub fn parameters_are_scalars()
    ensures { ParametersAreScalars }
{}

/// A module has no more instructions than it may have.
pub fn instructions_are_few()
    ensures { InstructionsAreFew }
{}
