//! The core language: its terms, and in `specs/` what they mean and which are typed.
#![tactic(auto)]

mod around;
mod checked;
mod copying;
pub mod laws;
mod names;
pub mod params;
pub mod parts;
mod program;
mod reading;
pub mod stars;
mod term;

pub use checked::Checked;
pub use copying::{copy, copy_core, copy_past, copy_texts};
pub use names::free;
pub use program::{Body, Core};
pub use reading::{body_of, fits, is_low};
pub use term::{Node, Term};
