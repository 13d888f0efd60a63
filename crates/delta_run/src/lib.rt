//! The top of Delta: a command line, a program's text, and the run of it over a link.
#![tactic(auto)]

mod command;
mod kept;
pub mod laws;
mod run;

pub use delta_end::{End, InputFault};
pub use run::delta;
