//! The laws of learned steps at stations, each the contract of a function with nothing in it. What they say stands in
//! `specs/Laws.antt`.

ghost use Rattle.step_learning.specs.Laws.{LearnedStepGoes, LearnedStepGoesSince};

/// A machine that makes a learned step again, with the numbers and at the depths that it has now, keeps all that
/// machines have to.
pub fn learned_step_goes()
    ensures { LearnedStepGoes }
{}

/// So does one that goes on from a kept state.
pub fn learned_step_goes_since()
    ensures { LearnedStepGoesSince }
{}
