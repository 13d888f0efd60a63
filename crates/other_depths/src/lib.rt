//! Other depths of code that isn't reached: as long as it is deep enough for the calls that are made, no run tells.
#![tactic(auto)]

pub mod laws;
