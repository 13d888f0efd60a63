//! Buffer bounds: how many events a term, a state or a program can ever hold back, and that no step makes it more.
#![tactic(auto)]

pub mod laws;
