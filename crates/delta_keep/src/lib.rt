//! Kept states in bytes: what a run keeps to go on later, written and read again.
#![tactic(auto)]

mod exprs_done;
mod fault;
mod halt;
mod kept;
mod output;
mod prefixes_done;
mod pushing;
mod put_numbers;
mod put_parts;
mod put_states;
mod put_terms;
mod read_exprs;
mod read_numbers;
mod read_prefixes;
mod read_states;
mod read_terms;
mod read_types;
mod read_values;
mod reading;
mod refusal;
mod saving;
mod states_done;
mod terms_done;
mod types_done;
mod values_done;

pub use fault::ReadFault;
pub use kept::{Argument, HeldName, Kept, KeptState, Known, Waiting, dismiss};
pub use reading::read_kept;
pub use refusal::SaveRefusal;
pub use saving::save;
