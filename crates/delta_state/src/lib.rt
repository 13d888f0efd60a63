//! States: core terms that were partly run. What they are, what they mean, what it is for one to stand for a
//! program, and what a machine owes that runs a program event by event.
#![tactic(auto)]

mod counting;
pub mod laws;
mod machine;
mod place;
mod state;

pub use counting::{count_states, held_events, word_len};
pub use machine::{Machine, StepRefusal};
pub use place::Place;
pub use state::{Argument, Held, Later, State};
