//! Contexts as bunches of named types, and the orders in which their names come.
#![tactic(auto)]

mod bunch;
pub mod laws;
mod name;
mod order;
mod placing;
mod reading;
mod table;

pub use bunch::Bunch;
pub use name::Name;
pub use order::Order;
pub use reading::{as_type, before, copy, names};
