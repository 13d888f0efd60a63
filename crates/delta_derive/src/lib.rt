//! Derivations that are written down, checked line by line against a program.
#![tactic(auto)]

mod calling;
mod checking;
mod fault;
mod goals;
mod jumpy;
pub mod laws;
mod leaves;
mod line;
mod open;
mod pasts;
mod path;
mod reading;
mod ruling;
mod stepping;
mod trees;
mod types;

pub use checking::{check, derive, dismiss};
pub use fault::DeriveFault;
