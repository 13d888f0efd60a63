//! Event lines: an event as a line of words, written and read.
#![tactic(auto)]

mod fault;
pub mod laws;
mod read;
mod write;

pub use fault::LineFault;
pub use read::read_line;
pub use write::write_line;
