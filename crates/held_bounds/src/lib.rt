//! What `bound` prints is never passed by what a machine holds.
#![tactic(auto)]

pub mod laws;
