//! Prefixes of streams: what has come so far on a stream of a type.
#![tactic(auto)]

mod copying;
mod derivative;
mod joining;
pub mod laws;
mod prefix;
mod table;

pub use copying::copy;
pub use derivative::derive;
pub use joining::join;
pub use prefix::{Prefix, StarEnd};
pub use table::{empty, is_prefix, maximal};
