//! Laws of texts that rest on the grammar and on the front: that each text is the text of a program or is refused.
//! What they say stands in `specs/Laws.antt`.
#![tactic(auto)]

pub mod laws;
