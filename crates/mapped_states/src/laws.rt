//! The law of maps of states, the contract of a function with nothing in it. What it says stands in
//! `specs/Laws.antt`.

ghost use Rattle.mapped_states.specs.Laws.{SimplerMapped};

/// A state that is made simpler is made so under any map that keeps the terms of code.
pub fn simpler_mapped()
    ensures { SimplerMapped }
{}
