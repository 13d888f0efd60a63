//! Why a program is refused: the names of the faults of its text and of its terms, and their places.
#![tactic(auto)]

mod name;
mod refusal;

pub use name::refusal_name;
pub use refusal::{Refusal, RefusalName};
