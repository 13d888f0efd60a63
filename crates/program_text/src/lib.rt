//! From the bytes of a program's text to its tree, or to the name and the place of what is wrong first.
#![tactic(auto)]

mod fault;
mod front;
pub mod laws;

pub use fault::TextFault;
pub use front::program_of;
