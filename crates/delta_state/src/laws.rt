//! Laws of states, each the contract of a function with nothing in it. What they say stands in
//! `specs/Laws.antt`.

ghost use Rattle.delta_state.specs.Laws.{SettledGivesNothing, SettledIsFinished, StateIsTyped, StateGrows, StateIsWhole};

/// A settled typed state gives the empty prefix where nothing comes on its free names, and makes no call.
pub fn settled_gives_nothing()
    ensures { SettledGivesNothing }
{}

/// A settled typed state is finished where nothing more can come on its free names.
pub fn settled_is_finished()
    ensures { SettledIsFinished }
{}

/// A typed state gives a prefix of its type.
pub fn state_is_typed()
    ensures { StateIsTyped }
{}

/// A typed state gives no less on more input, and makes no fewer calls.
pub fn state_grows()
    ensures { StateGrows }
{}

/// A typed state gives a whole stream where its free names are whole, if its calls stay within the depth
/// of its code.
pub fn state_is_whole()
    ensures { StateIsWhole }
{}
