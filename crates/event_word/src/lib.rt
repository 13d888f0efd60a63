//! Events of streams and the words that they make: which events stand at a type, what they
//! leave of it, and the canonical word of a prefix.
#![tactic(auto)]

mod admitting;
mod canonical;
mod event;
mod fault;
pub mod laws;
mod single;
mod word;

pub use admitting::admits;
pub use canonical::canon;
pub use event::{Event, Leaf, STEPS, Step};
pub use fault::EventFault;
pub use single::{after, one};
pub use word::prefix_of;
