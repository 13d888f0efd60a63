//! Shapes of states: a shape's numbers and depths are keys of registers. A shape is filled from registers.
#![tactic(auto)]

mod filling;
mod filling_values;
mod found;
mod matching;
mod matching_values;
mod registers;
mod same_code;

pub use filling::{copy, fill};
pub use filling_values::{fill_past, fill_prefix, fill_value};
pub use found::{Found, goes_on, nothing, number_goes};
pub use matching::match_state;
pub use matching_values::value_goes;
pub use registers::{Registers, beside, depth_at, number_at};
