//! Learned steps: what a step of a state made of an event, kept so that it can be made again with other numbers and at
//! other depths.
#![tactic(auto)]

mod answering;
mod laying;
mod leaving;
mod reckoning;
mod step;

pub use answering::{said, with_number};
pub use laying::lay;
pub use leaving::{depths_left, numbers_left};
pub use step::{LearnedAsk, LearnedStep};
