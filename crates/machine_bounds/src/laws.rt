//! Laws of machines and buffer bounds, each the contract of a function with nothing in it. What they say stands in
//! `specs/Laws.antt`.

ghost use Rattle.machine_bounds.specs.Laws.{BeginsBelow, GoesOnBelow, SimplerBelow, StaysHolding};

/// A machine begins with a state that can hold no more than its program.
pub fn begins_below()
    ensures { BeginsBelow }
{}

/// After one event more its state can hold no more than its program, if before it could not.
pub fn goes_on_below()
    ensures { GoesOnBelow }
{}

/// Nor can a simpler state in its place.
pub fn simpler_below()
    ensures { SimplerBelow }
{}

/// A machine whose state can hold no more than its program holds no more events than the program's bound.
pub fn stays_holding()
    ensures { StaysHolding }
{}
