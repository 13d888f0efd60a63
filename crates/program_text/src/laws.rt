//! The laws of texts, each the contract of a function with nothing in it.

ghost use Rattle.program_text.specs.Laws.{ProgramIsOne, RefusalIsOne, ProgramsAreNotRefused};

/// A text is that of one program at most.
pub fn program_is_one()
    ensures { ProgramIsOne }
{}

/// A text is refused for one thing at most, at one place.
pub fn refusal_is_one()
    ensures { RefusalIsOne }
{}

/// The text of a program isn't refused.
pub fn programs_are_not_refused()
    ensures { ProgramsAreNotRefused }
{}
