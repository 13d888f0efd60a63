//! What a station is, and what a run has in hand that stands at one.

ghost use Rattle.std.specs.Prelude.{◌≡◌};

use machine_parts::awaited::Awaited;
use stream_type::Ty;
use template_state::Live;

/// A shape of a state, with its keys in turn, what is awaited of the input there, and what is left of the types of the
/// input and of the output. Contracts see it as a `StationTree` by `station_in` (`specs/StationTree.antt`).
#[derive(Drop)]
pub struct Station {
    /// The shape: a state whose numbers and depths are keys.
    pub shape: Box<Live>,
    /// The keys of its numbers, each once; at least one.
    pub keys: Vec<i64>,
    /// The keys of its depths, each once; at least one.
    pub depth_keys: Vec<u64>,
    /// What is awaited of the input.
    pub awaited: Box<Awaited>,
    /// What is left of the input's type.
    pub input: Box<Ty>,
    /// What is left of the output's type.
    pub output: Box<Ty>,
}

/// What a run has in hand between two events.
#[derive(Drop)]
pub struct Standing {
    /// Its state.
    pub state: Box<Live>,
    /// What is awaited of the input.
    pub awaited: Box<Awaited>,
    /// What is left of the input's type.
    pub input: Box<Ty>,
    /// What is left of the output's type.
    pub output: Box<Ty>,
}

/// What a run has in hand, lent. Contracts say by `StandsOn` of `specs/Stands.antt` that it stands at a station.
#[derive(Clone, Copy)]
pub struct Run<'a> {
    /// Its state.
    pub state: &'a Live,
    /// What is awaited of the input.
    pub awaited: &'a Awaited,
    /// What is left of the input's type.
    pub input: &'a Ty,
    /// What is left of the output's type.
    pub output: &'a Ty,
}

impl Standing {
    /// The same, lent.
    pub fn lent(&self) -> Run<'_>
        ensures state { result.state.now ≡ self.now.state.value }
        ensures awaited { result.awaited.now ≡ self.now.awaited.value }
        ensures input { result.input.now ≡ self.now.input.value }
        ensures output { result.output.now ≡ self.now.output.value }
    {
        Run {
            state: &self.state,
            awaited: &self.awaited,
            input: &self.input,
            output: &self.output,
        }
    }
}

/// What stands in a station's registers.
#[derive(Drop)]
pub struct Values {
    /// The number of each of its keys, in turn.
    pub numbers: Vec<i64>,
    /// The depth of each of its keys of depths, in turn.
    pub depths: Vec<u64>,
}
