//! Laws of learned steps, each the contract of a function with nothing in it. What they say stands in
//! `specs/Laws.antt`.

ghost use Rattle.learned_steps.specs.Laws.{LearnedRuns, LearnedGoes, LearnedGoesSince, DeepEnough, DeepEnoughSince, ShapesGo, ShapesGoSince, ShapesGoDeep, ShapesGoDeepSince};

/// The run of a learned step with other numbers, at other depths, is the one that was learned with these numbers in it.
pub fn learned_runs()
    ensures { LearnedRuns }
{}

/// A machine that makes a learned step again, with other numbers and at other depths, keeps all that machines have to.
pub fn learned_goes()
    ensures { LearnedGoes }
{}

/// So does one that goes on from a kept state.
pub fn learned_goes_since()
    ensures { LearnedGoesSince }
{}

/// All code of a machine's state is deep enough for the calls of an event.
pub fn deep_enough()
    ensures { DeepEnough }
{}

/// So it is where a machine goes on from a kept state.
pub fn deep_enough_since()
    ensures { DeepEnoughSince }
{}

/// Where the states of a learned step are shapes, making it again moves the registers.
pub fn shapes_go()
    ensures { ShapesGo }
{}

/// So it is where a machine goes on from a kept state.
pub fn shapes_go_since()
    ensures { ShapesGoSince }
{}

/// A step that was learned at depths far apart can be made at whichever depths a machine has.
pub fn shapes_go_deep()
    ensures { ShapesGoDeep }
{}

/// So it can where a machine goes on from a kept state.
pub fn shapes_go_deep_since()
    ensures { ShapesGoDeepSince }
{}
