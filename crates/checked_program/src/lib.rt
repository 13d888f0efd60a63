//! Which texts are accepted: from the bytes of a program's text to its checked core, or to the name and
//! the place of what is wrong first.
#![tactic(auto)]

mod acceptance;
mod elaborated;
pub mod laws;
mod naming;

pub use acceptance::{Accepted, accept, accept_to_write, dismiss};
pub use elaborated::elaborate_text;
