//! States whose numbers and depths are keys of registers, filled from these: definitions and laws.
#![tactic(auto)]

pub mod laws;
