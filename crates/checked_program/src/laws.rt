//! The laws of acceptance, each the contract of a function with nothing in it.

ghost use Rattle.checked_program.specs.Laws.{AcceptedIsOne, RefusalIsOne, AcceptedIsNotRefused, CoreIsJudged, WritingIsJudged};

/// A text is accepted as one program with one core at most.
pub fn accepted_is_one()
    ensures { AcceptedIsOne }
{}

/// A text is refused for one thing at most, at one place.
pub fn refusal_is_one()
    ensures { RefusalIsOne }
{}

/// A text that is accepted isn't refused.
pub fn accepted_is_not_refused()
    ensures { AcceptedIsNotRefused }
{}

/// A text has one core at most, without one it is refused for one thing at most, and never both.
pub fn core_is_judged()
    ensures { CoreIsJudged }
{}

/// So it is where frames of a version are to be written.
pub fn writing_is_judged()
    ensures { WritingIsJudged }
{}
