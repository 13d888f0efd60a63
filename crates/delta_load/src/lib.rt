//! The load: a long valid input that is made from a number, event by event; a program on the whole of it, with what it
//! puts out counted, and the line that tells that; and the load's own program, its text and its core.
#![tactic(auto)]

mod generating;
mod generator;
pub mod laws;
mod running;
mod summary;
mod totals;

pub use generating::{LOAD_TEXT, count_output, generate};
pub use generator::gen_event;
pub use running::{CALLS, LoadFault, run_load};
pub use summary::summary_line;
pub use totals::Totals;
