//! Maps of states: one function is put in for code that isn't reached, and one for what is held.
#![tactic(auto)]

pub mod laws;
