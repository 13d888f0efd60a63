//! The loop that runs a program event by event over a link, whatever the program's language is.
#![tactic(auto)]

mod feed;
mod framing;
mod open;
mod program_run;
mod pull;
mod sending;
mod serve;
mod stepper;
mod stopping;

pub use framing::canonical_frames;
pub use program_run::{run_machine, run_program};
pub use sending::send;
pub use stepper::{StepFault, Stepper};
pub use stopping::{Stop, stop_first};
