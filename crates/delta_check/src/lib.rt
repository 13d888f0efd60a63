//! The rules of typing of the core language: which terms and functions are inert, and the check of a
//! program, with the first rule that it breaks.
#![tactic(auto)]

mod checking;
mod fault;
mod forms;
mod given;
mod inertness;
mod input_type;
mod orders;
mod params;
mod passing;
mod pasts;
mod rules;
mod scope;
mod within;

pub use checking::{check, let_placed, type_or};
pub use fault::{TypeCause, TypeFault};
pub use inertness::{inert, inert_funs};
pub use orders::is_before;
pub use params::type_at;
pub use passing::first_jumpy;
pub use scope::{Placed, Scope, before, place_of_let, stream_type};
pub use within::{check_in, check_under};
