//! The laws of derivations that are written down, each the contract of a function with nothing in it. What they say
//! stands in `specs/Laws.antt`.

ghost use Rattle.delta_derive.specs.Laws.{FaultlessIsValid, ValidIsFaultless};

/// A text without a fault is a derivation of the program.
pub fn faultless_is_valid()
    ensures { FaultlessIsValid }
{}

/// And a text that is one has no fault, where the program binds each name once.
pub fn valid_is_faultless()
    ensures { ValidIsFaultless }
{}
