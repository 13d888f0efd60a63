//! Laws of machines, each the contract of a function with nothing in it. What they say stands in
//! `specs/Laws.antt`.

ghost use Rattle.main_steps.specs.Laws.{KeepsFirst, KeepsNext, StopsForProgram};

/// Before any event what a machine makes of main's body is what it keeps, and its run is the program's meaning.
pub fn keeps_first()
    ensures { KeepsFirst }
{}

/// After one event more what a machine makes of its state is what it keeps after the longer word, and its run on
/// the event is the answer.
pub fn keeps_next()
    ensures { KeepsNext }
{}

/// A machine that counts too many calls at an event, or too great a level, stops where the program has them.
pub fn stops_for_program()
    ensures { StopsForProgram }
{}
