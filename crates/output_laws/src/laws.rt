//! The laws of what programs put out, each the contract of a function with nothing in it.

ghost use Rattle.output_laws.specs.Laws.{OutputIsSpoken, SpokenIsMeant, OrderDoesNotMatter, NothingIsRevised, WholeInWholeOut};

/// The output is the header and the frames of the canonical words of the successive increments.
pub fn output_is_spoken()
    ensures { OutputIsSpoken }
{}

/// The events put out are a word of the output's type, and stand for the one-shot meaning of the whole input.
pub fn spoken_is_meant()
    ensures { SpokenIsMeant }
{}

/// Words with equal prefixes give outputs with equal prefixes.
pub fn order_does_not_matter()
    ensures { OrderDoesNotMatter }
{}

/// What was said is a part of what is said when more came.
pub fn nothing_is_revised()
    ensures { NothingIsRevised }
{}

/// A whole input gives a whole output, where the meaning makes fewer than 2^62 calls. (A run that is done
/// has put out a whole output in any case: `MayEnd` of `delta_loop` says so.)
pub fn whole_in_whole_out()
    ensures { WholeInWholeOut }
{}
