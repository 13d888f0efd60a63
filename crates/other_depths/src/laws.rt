//! Laws of other depths, each the contract of a function with nothing in it. What they say stands in
//! `specs/Laws.antt`.

ghost use Rattle.other_depths.specs.Laws.{RunsAtOtherDepths, RestsAtOtherDepths, SimplerAtOtherDepths, DepthsAfter, SuitsAfter, DepthsTwice, DepthsStay};

/// Where other depths suit the calls that a state makes, it runs the same at these.
pub fn runs_at_other_depths()
    ensures { RunsAtOtherDepths }
{}

/// And it leaves the same state, at these depths.
pub fn rests_at_other_depths()
    ensures { RestsAtOtherDepths }
{}

/// A state that is made simpler is made so at any other depths.
pub fn simpler_at_other_depths()
    ensures { SimplerAtOtherDepths }
{}

/// What a state leaves has the depths of its code, each less some of the calls that it made.
pub fn depths_after()
    ensures { DepthsAfter }
{}

/// So depths that suit a number of calls suit, after a run, those that it leaves of them.
pub fn suits_after()
    ensures { SuitsAfter }
{}

/// Depths that are put in twice are put in at once.
pub fn depths_twice()
    ensures { DepthsTwice }
{}

/// Where each depth is put in for itself, the state stays.
pub fn depths_stay()
    ensures { DepthsStay }
{}
