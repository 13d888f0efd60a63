//! Types and prefixes changed in place: what is left of a type takes the type's place, and what comes after a prefix
//! is put behind it. What stays is neither made anew nor looked at.
#![tactic(auto)]

mod behind;
mod event;
mod joining;

pub use behind::go_behind;
pub use event::go_after;
pub use joining::join_behind;
