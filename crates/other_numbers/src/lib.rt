//! Runs on other numbers: while what a run evaluates on the way goes along with the change, the run does.
#![tactic(auto)]

pub mod laws;
