//! Kept states read from bytes that nobody has to trust: those that are typed for a program, and no others.
#![tactic(auto)]

mod bound;
mod checking;
mod fault;
mod forms;
mod free;
mod holding;
mod judge;
mod laters;
mod loading;
mod names;
mod placing;
mod rules;
mod stop;
mod values;

pub use fault::KeepFault;
pub use loading::load;
