//! The compiled machine: a program whose code is made once, and whose state is changed in place.
#![tactic(auto)]

mod around;
mod awaiting;
mod begun;
mod beside;
mod compiling;
mod entering;
mod framing;
mod free;
mod gone;
mod held;
mod inward;
mod keeping;
mod lent;
mod machine;
mod parts_done;
mod quiet;
mod seeing;
mod starting;
mod states_done;
mod states_held;
mod stepping;
mod still;
mod told;
mod touched;
mod way;

pub use awaiting::step_awaiting;
pub use begun::Begun;
pub use machine::Coded;
pub use seeing::{entries_in, knowing, known, nothing_known, value_in, values_in};
pub use starting::start;
pub use stepping::step;
pub use told::Told;
