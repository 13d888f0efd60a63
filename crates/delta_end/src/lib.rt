//! How a command ends: the ends, the exit status of each, and the note that tells it.
#![tactic(auto)]

mod answering;
mod end;
mod name;
mod objection;
mod telling;

pub use answering::answer;
pub use end::{End, InputFault};
pub use objection::{BoundName, DerivationName, Objection, StateName, TableName};
pub use telling::note;
