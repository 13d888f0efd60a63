//! Tables for programs: files of comma-separated numbers read as whole prefixes, words of several tables mixed into
//! one in an order that a schedule says, and whole tables written.
#![tactic(auto)]

mod fault;
pub mod laws;
mod mixing;
mod number;
mod reading;
mod shape;
mod writing;

pub use fault::FeedFault;
pub use mixing::mixed;
pub use reading::table;
pub use shape::{has_shape, is_row_type};
pub use writing::rows_text;
