//! The rules of the states of a kept state, one by one, so that the first state that isn't typed is told.
#![tactic(auto)]

pub mod laws;
