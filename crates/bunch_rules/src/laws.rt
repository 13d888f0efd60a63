//! The law of derivations, each part the contract of a function with nothing in it. What they say stands in
//! `specs/Laws.antt`.

ghost use Rattle.bunch_rules.specs.Laws.{DerivedIsTyped, DerivedBodyIsTyped, DerivedProgramIsTyped, WrittenIsDerived, WrittenProgramIsTyped};

/// A term that a bunch derives is typed in every order that has the bunch's facts.
pub fn derived_is_typed()
    ensures { DerivedIsTyped }
{}

/// A body that its parameters derive is typed.
pub fn derived_body_is_typed()
    ensures { DerivedBodyIsTyped }
{}

/// A program whose bodies are all derived is typed.
pub fn derived_program_is_typed()
    ensures { DerivedProgramIsTyped }
{}

/// Lines that write a derivation of a program have one.
pub fn written_is_derived()
    ensures { WrittenIsDerived }
{}

/// A program of which lines write a derivation is typed.
pub fn written_program_is_typed()
    ensures { WrittenProgramIsTyped }
{}
