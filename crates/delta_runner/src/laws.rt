//! The laws of sessions that go on from what was kept of a program, and of what is put out where a run goes on from a
//! kept state, each the contract of a function with nothing in it. What they say stands in `specs/KeptSessionLaws.antt` and
//! `specs/KeptOutputLaws.antt`.

ghost use Rattle.delta_runner.specs.KeptSessionLaws.{GoesOnAsProgram};
ghost use Rattle.delta_runner.specs.KeptOutputLaws.{OutputIsSpoken, SpokenIsMeant, OrderDoesNotMatter, NothingIsRevised, RunsJoin};

/// Where the state was kept of a program after a word, each event is awaited, answered and refused for its calls as in
/// the program after that word and the one that came since.
pub fn goes_on_as_program()
    ensures { GoesOnAsProgram }
{}

/// What is written is the frames of the canonical words of the successive increments, without a header.
pub fn output_is_spoken()
    ensures { OutputIsSpoken }
{}

/// The events put out are a word of what is left of the output's type, and stand for the meaning of a typed kept state
/// on all that came since.
pub fn spoken_is_meant()
    ensures { SpokenIsMeant }
{}

/// Words with equal prefixes give outputs with equal prefixes.
pub fn order_does_not_matter()
    ensures { OrderDoesNotMatter }
{}

/// What was said is a part of what is said when more came.
pub fn nothing_is_revised()
    ensures { NothingIsRevised }
{}

/// What was written before the state was kept, and what is written from there on, are what one run writes.
pub fn runs_join()
    ensures { RunsJoin }
{}
