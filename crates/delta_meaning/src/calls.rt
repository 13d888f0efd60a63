//! Calls of functions, and the answers to them.

ghost use Rattle.std.specs.Prelude.{◌<◌};

use crate::evaluated::Evaluated;
use bunch::Name;
use hist_value::Value;
use stream_prefix::Prefix;

/// A call of a function on its arguments. Contracts say what it gives by `given` (`specs/CallRuns.antt`).
#[derive(Drop)]
pub struct Call {
    /// The name of the function.
    pub function: Name,
    /// The values of its historical arguments.
    pub values: Vec<Value>,
    /// What has come on its stream arguments.
    pub streams: Vec<Prefix>,
    /// The depth that calls have left where it stands.
    pub depth: u64,
    /// The number of calls that are left for it, itself counted.
    pub left: u64,
    ghost room: { left < depth },
}

/// A call that was made.
#[derive(Drop)]
pub struct Answer {
    /// The call.
    pub call: Call,
    /// What it gives.
    pub run: Evaluated,
}
