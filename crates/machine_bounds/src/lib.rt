//! Machines that hold no more than their program can: what they keep for it beside their state, and the trait that
//! says so of a machine.
#![tactic(auto)]

pub mod bounded;
pub mod laws;

pub use bounded::Bounded;
