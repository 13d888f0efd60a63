//! Laws of the first untyped state, each the contract of a function with nothing in it. What they say stands
//! in `specs/Laws.antt`.

ghost use Rattle.kept_rules.specs.Laws.{TypedIsGood, UntypedIsNotTyped, OneFirst};

/// A kept state is typed just where each of its states is as it should be.
pub fn typed_is_good()
    ensures { TypedIsGood }
{}

/// A kept state with a first untyped state isn't typed.
pub fn untyped_is_not_typed()
    ensures { UntypedIsNotTyped }
{}

/// No two states are the first untyped one.
pub fn one_first()
    ensures { OneFirst }
{}
