//! The laws of accepted programs, each the contract of a function with nothing in it. What it is to be
//! accepted stands in `specs/Accepted.antt`.

ghost use Rattle.delta_elab.specs.Laws.{AcceptedIsNotRefused, AcceptedGrows, AcceptedIsWhole};

/// No program is both accepted and refused: where it is accepted with some core, no fault but want of
/// memory says of it why it isn't. So `typed` answers exactly the one or the other.
pub fn accepted_is_not_refused()
    ensures { AcceptedIsNotRefused }
{}

/// On more input an accepted program gives no less, and makes no fewer calls.
pub fn accepted_grows()
    ensures { AcceptedGrows }
{}

/// On a whole stream an accepted program gives a whole stream, where it makes fewer than 2^62 calls.
pub fn accepted_is_whole()
    ensures { AcceptedIsWhole }
{}
