//! Laws of rewritings and buffer bounds, each the contract of a function with nothing in it. What they say stands
//! in `specs/Laws.antt`.

ghost use Rattle.bounds_kept.specs.Laws.{SimplerHoldsNoMore, SimplerKeepsBound, SimplerStaysBelow, SimplerIsWithin};

/// A typed settled state that is made simpler can hold no more.
pub fn simpler_holds_no_more()
    ensures { SimplerHoldsNoMore }
{}

/// A typed settled state with a bound, made simpler, is typed and settled and has that bound.
pub fn simpler_keeps_bound()
    ensures { SimplerKeepsBound }
{}

/// What stands for a program after an input can hold no more after any number of rewritings.
pub fn simpler_stays_below()
    ensures { SimplerStaysBelow }
{}

/// A machine that stands after a word by a state with a bound does so by the simpler state too.
pub fn simpler_is_within()
    ensures { SimplerIsWithin }
{}
