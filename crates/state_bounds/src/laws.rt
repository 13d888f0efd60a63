//! Laws of buffer bounds, each the contract of a function with nothing in it. What they say stands in
//! `specs/Laws.antt`.

ghost use Rattle.state_bounds.specs.Laws.{FirstHolds, StepHolds, EventHolds, SettledHolds, MachineHolds, NumbersAreEnough};

/// Before any event the state of a program can hold no more than its main program.
pub fn first_holds()
    ensures { FirstHolds }
{}

/// After any more of the input the state that follows can hold no more than the one before it.
pub fn step_holds()
    ensures { StepHolds }
{}

/// After one event more the state that follows can hold no more than the one before it.
pub fn event_holds()
    ensures { EventHolds }
{}

/// A settled state holds no more events than its bound says.
pub fn settled_holds()
    ensures { SettledHolds }
{}

/// A machine whose state has the bound holds no more events than it says.
pub fn machine_holds()
    ensures { MachineHolds }
{}

/// Where no number of a program's functions grows any more, the other laws hold with these numbers.
pub fn numbers_are_enough()
    ensures { NumbersAreEnough }
{}
