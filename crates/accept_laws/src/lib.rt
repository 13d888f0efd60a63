//! Laws of acceptance that rest on the grammar: that each text is accepted or refused, and that the core of a text's
//! program is small. What they say stands in `specs/Laws.antt`.
#![tactic(auto)]

pub mod laws;
