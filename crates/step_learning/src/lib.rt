//! Learns what a step makes of an event at a station.
#![tactic(auto)]

mod apart;
mod asking;
mod finishing;
pub mod laws;
mod learning;
mod saying;
mod stepping;
mod trying;

pub use apart::MOST_DEPTHS;
pub use finishing::finish;
pub use learning::{Learning, learn};
