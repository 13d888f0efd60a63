//! What a step of the compiled machine asks: the historical expressions that it evaluates on its way, each with the
//! values at which it does. The walk goes beside the step, which stays as it is, and changes no state.
#![tactic(auto)]

mod ask;
mod asking;
mod entering;
mod holding;
mod outputs;
mod sides;
mod state_outputs;
mod states;
mod whole;

pub use ask::Ask;
pub use asking::add_asks_of_code;
pub use states::add_asks_of_state;
pub use whole::asks;
