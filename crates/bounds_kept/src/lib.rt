//! What rewritings of states do to buffer bounds: a simpler state can hold no more than the state that it was.
#![tactic(auto)]

pub mod laws;
