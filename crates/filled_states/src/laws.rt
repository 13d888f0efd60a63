//! Laws of filled states, each the contract of a function with nothing in it. What they say stands in
//! `specs/Laws.antt`.

ghost use Rattle.filled_states.specs.Laws.{NumbersFound, DepthsFound, NumbersInTurn, DepthsInTurn, NumbersByPlace, DepthsByPlace, NumbersFirst, DepthsFirst, FilledAfter, ValuesFilledAfter, PrefixesFilledAfter, EventsFilledAfter, FilledWithNone, ShiftMoves, ShiftByPlace, ShiftsAll, ShiftSuits, SpreadIsDistinct, SpreadDown};

/// What is done to all numbers of registers is done to what is found there.
pub fn numbers_found()
    ensures { NumbersFound }
{}

/// So it is of depths.
pub fn depths_found()
    ensures { DepthsFound }
{}

/// Keys of which none stands twice find the numbers beside them, in turn.
pub fn numbers_in_turn()
    ensures { NumbersInTurn }
{}

/// So do keys of depths.
pub fn depths_in_turn()
    ensures { DepthsInTurn }
{}

/// So a key's place tells the number beside it.
pub fn numbers_by_place()
    ensures { NumbersByPlace }
{}

/// And the depth beside it.
pub fn depths_by_place()
    ensures { DepthsByPlace }
{}

/// What is found among the first keys stays when others follow them.
pub fn numbers_first()
    ensures { NumbersFirst }
{}

/// So it does among keys of depths.
pub fn depths_first()
    ensures { DepthsFirst }
{}

/// What is done to all numbers and depths of a filled state is done to its registers.
pub fn filled_after()
    ensures { FilledAfter }
{}

/// So it is of values.
pub fn values_filled_after()
    ensures { ValuesFilledAfter }
{}

/// So it is of prefixes.
pub fn prefixes_filled_after()
    ensures { PrefixesFilledAfter }
{}

/// So it is of events.
pub fn events_filled_after()
    ensures { EventsFilledAfter }
{}

/// A shape filled with nothing is itself.
pub fn filled_with_none()
    ensures { FilledWithNone }
{}

/// What is a little below one of the depths at which a step was learned is moved as that is.
pub fn shift_moves()
    ensures { ShiftMoves }
{}

/// So what is a little below the depth at a place is moved to what is as much below the one that stands there now.
pub fn shift_by_place()
    ensures { ShiftByPlace }
{}

/// The depths at which it was learned become those that are there.
pub fn shifts_all()
    ensures { ShiftsAll }
{}

/// And these suit the calls for which each code of the filled state is deep enough.
pub fn shift_suits()
    ensures { ShiftSuits }
{}

/// None of the depths that lie far apart stands twice.
pub fn spread_is_distinct()
    ensures { SpreadIsDistinct }
{}

/// Depths that lie far apart are there below any that is great enough.
pub fn spread_down()
    ensures { SpreadDown }
{}
