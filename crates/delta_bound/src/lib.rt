//! Buffer bounds: how many events a program can ever hold back, or why there is no bound.
#![tactic(auto)]

mod body_bounds;
mod bounding;
mod differing;
pub mod laws;
mod measured;
mod numbers;
mod programs;
mod reach;
mod refusal;
mod rooms;
mod rounds;
mod sizes;
mod stop;
mod terms;

pub use bounding::bound;
pub use refusal::BoundRefusal;
