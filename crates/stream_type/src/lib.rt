//! Stream types: the types of the streams that a program takes and gives.
#![tactic(auto)]

mod equals;
pub mod laws;
mod makers;
mod measures;
mod memory;
mod ty;

pub use equals::{copy, same};
pub use makers::{cat, par, star, sum};
pub use measures::{height, null, reach};
pub use memory::Memory;
pub use ty::Ty;
