//! A program of the whole language to the loop, on the compiled machine, which learns its steps: what it did once it does
//! again by moving numbers.
#![tactic(auto)]

mod again;
mod answering;
mod book;
mod noting;
mod runner;

pub use book::{Book, Known, find};
pub use runner::{Learner, begin};
