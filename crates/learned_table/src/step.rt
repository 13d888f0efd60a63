//! What is kept of a step.

use bunch::Name;
use event_word::Event;
use hist_value::{Expr, Value};

/// A historical expression that the step evaluated. Contracts see it as an `AskTree` by `ask_of`
/// (`specs/StepTree.antt`).
#[derive(Drop)]
pub struct LearnedAsk {
    /// The expression.
    pub expr: Expr,
    /// The values of the historical names that it saw.
    pub past: Vec<(Name, Value)>,
    /// The value that it had.
    pub value: Value,
}

/// A step as it was learned: at these numbers and depths of the state's registers. Contracts see it as a `StepTree` by
/// `step_of` (`specs/StepTree.antt`).
#[derive(Drop)]
pub struct LearnedStep {
    /// The numbers in the registers of the state.
    pub numbers: Vec<i64>,
    /// The depths in them.
    pub depths: Vec<u64>,
    /// The event that came.
    pub event: Event,
    /// What was evaluated, in turn.
    pub asks: Vec<LearnedAsk>,
    /// The events that answered it.
    pub said: Vec<Event>,
    /// The number of calls that were made.
    pub calls: u64,
    /// The numbers in the registers of the state that was left.
    pub numbers_left: Vec<i64>,
    /// The depths in them.
    pub depths_left: Vec<u64>,
}
