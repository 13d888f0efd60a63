//! The words of a command line, and what they ask for.
#![tactic(auto)]

mod command;
mod fault;
mod line;
mod number;
mod parser;
mod task;
mod words;

pub use fault::WordsFault;
pub use task::{Task, Version};
pub use words::read_words;
