//! Machines that can be kept and that go on from a kept state: what it is to stand for a kept state, what they keep
//! for it beside their state, the trait that says so of a machine, and states over
//! templates as kept states and back.
#![tactic(auto)]

pub mod awaiting;
pub mod keeping;
mod kept_states;
mod waking;

pub use keeping::Keeping;
pub use kept_states::keep;
pub use waking::wake;
