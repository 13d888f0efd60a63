//! Laws of other numbers, each the contract of a function with nothing in it. What they say stands in
//! `specs/Laws.antt`.

ghost use Rattle.other_numbers.specs.Laws.{RunsGoAlong, RestsGoAlong, AsksGoAlong, SimplerGoesAlong, ProgramsGoAlong, MovesCommute, EventsGoAlong, AdmittedGoAlong, CanonGoesAlong, NumbersTwice, NumbersStay};

/// Where all that a state asks on an input commutes with a change of numbers, its run on the other numbers is its
/// run with these in it.
pub fn runs_go_along()
    ensures { RunsGoAlong }
{}

/// So is what is left of it.
pub fn rests_go_along()
    ensures { RestsGoAlong }
{}

/// And it asks the same, at the other numbers.
pub fn asks_go_along()
    ensures { AsksGoAlong }
{}

/// A state that is made simpler is made so with any other numbers.
pub fn simpler_goes_along()
    ensures { SimplerGoesAlong }
{}

/// Where all that a program asks on an input commutes with a change of numbers, its run on the other numbers is its
/// run with these in it.
pub fn programs_go_along()
    ensures { ProgramsGoAlong }
{}

/// An expression without literals that reckons nothing commutes with every change of numbers.
pub fn moves_commute()
    ensures { MovesCommute }
{}

/// An event with other numbers is, as a prefix, what it was with these in it.
pub fn events_go_along()
    ensures { EventsGoAlong }
{}

/// A type that admits an event admits it with any other number.
pub fn admitted_go_along()
    ensures { AdmittedGoAlong }
{}

/// The canonical word of a prefix with other numbers is its word with these in it.
pub fn canon_goes_along()
    ensures { CanonGoesAlong }
{}

/// Numbers that are exchanged twice are exchanged at once.
pub fn numbers_twice()
    ensures { NumbersTwice }
{}

/// Where each number is put in for itself, the state stays.
pub fn numbers_stay()
    ensures { NumbersStay }
{}
