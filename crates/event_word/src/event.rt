//! One event: a path into a type, and what happens at its end.

ghost use Rattle.std.specs.Prelude.{◌≡◌, ◌≤◌, ◌↔◌, [], ◌∷◌, length, IsNone, IfSome};

use std::marker::Model;

/// A step of an event's path.
#[derive(Clone, Copy, PartialEq, Eq, Debug)]
pub enum Step {
    /// Into the left of two in parallel.
    Left,
    /// Into the right of two in parallel.
    Right,
    /// Into the first part of a sequence.
    First,
}

/// What happens at the end of an event's path.
#[derive(Clone, Copy, PartialEq, Eq, Debug)]
pub enum Leaf {
    /// The one value of type `1` comes.
    One,
    /// A number comes.
    Int(i64),
    /// A sum goes on with its left side.
    Inl,
    /// A sum goes on with its right side.
    Inr,
    /// The first part of a sequence is whole, and the second begins.
    Cut,
    /// A star has one more item, which begins.
    Item,
    /// A star has no more items.
    End,
}

/// The greatest number of steps in a path.
pub const STEPS: usize = 63;

/// An event, which contracts see as the list of its steps and its leaf (`StreamEvent` of
/// `specs/StreamEvent.antt`). A step is put in front by one write, since the steps stand at the end
/// of the array, after `start` cells that are not used (`specs/Events.antt`).
#[derive(Clone, Copy, PartialEq, Eq, Debug)]
pub struct Event {
    steps: [Step; STEPS],
    start: usize,
    leaf: Leaf,
}

impl Model for Event {
    ghost use Rattle.event_word.specs.StreamEvent.{StreamEvent};

    ghost Value = { StreamEvent };

    ghost use Rattle.event_word.specs.Events.{stream_event_of, IsAligned, event_of};

    ghost view = { stream_event_of };

    ghost invariant = { IsAligned };

    ghost inverse = { event_of };

    ghost use Rattle.event_word.specs.Returns.{event_of-stream_event_of};

    ghost inverse_ok = { event_of-stream_event_of };
}

impl Event {
    /// The event with no step.
    pub fn new(leaf: Leaf) -> Event
        ensures path { result.path ≡ [] }
        ensures leaf { result.leaf ≡ leaf }
    {
        Event {
            steps: [Step::Left; STEPS],
            start: STEPS,
            leaf,
        }
    }

    /// The event with a step in front, or none exactly where the path has 63 steps.
    pub fn under(self, step: Step) -> Option<Event>
        ensures full { IsNone result ↔ (length self.path ≡ STEPS) }
        ensures path { IfSome result (λ e. e.path ≡ step ∷ self.path) }
        ensures leaf { IfSome result (λ e. e.leaf ≡ self.leaf) }
    {
        if self.start == 0 {
            return None;
        }
        let mut longer = self;
        longer.start -= 1;
        longer.steps[longer.start] = step;
        Some(longer)
    }

    /// The steps from the whole type down, at most 63.
    pub fn path(&self) -> &[Step]
        ensures steps { result.now ≡ self.now.path }
        ensures within { length result.now ≤ 63 }
    {
        &self.steps[self.start..]
    }

    /// What happens at the end of the path.
    pub fn leaf(&self) -> Leaf
        ensures { result ≡ self.now.leaf }
    {
        self.leaf
    }
}
