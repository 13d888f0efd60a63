//! What is counted of a word.

ghost use Rattle.std.specs.Prelude.{◌≡◌, ◌+◌, [], ◌∷◌, ◌++◌, List, length, IfSome, IsNone};
ghost use Rattle.event_word.specs.StreamEvent.{StreamEvent};
ghost use Rattle.event_frame.specs.declared.version.Version.TheVariants.{V1};
ghost use Rattle.event_frame.specs.Frames.{frame};
ghost use Rattle.delta_load.specs.Counting.{totals_of, number_in, IsLong};

use event_word::{Event, Leaf};

/// What is kept of a word of events: how many they are, how many bytes they have as a stream of version 1, and
/// the last number among them (`totals_of` of `specs/Counting.antt`).
#[derive(Clone, Copy, PartialEq, Eq, Debug)]
pub struct Totals {
    /// The events.
    pub events: u64,
    /// The bytes of their frames, with the header.
    pub bytes: u64,
    /// The last number, if there is one.
    pub last: Option<i64>,
}

// The bytes of an event's frame in version 1.
fn frame_length(x: &Event) -> u64
    ensures { result ≡ length (frame V1 x.now) }
{
    let leaf = match x.leaf() {
        Leaf::Int(_) => 9,
        _ => 1,
    };
    1 + x.path().len() as u64 + leaf
}

// The number of a leaf, or else the one that was found before.
fn number_of(found: Option<i64>, leaf: Leaf) -> Option<i64>
    ensures { result ≡ number_in found leaf }
{
    match leaf {
        Leaf::Int(n) => Some(n),
        _ => found,
    }
}

impl Totals {
    /// Those of no event.
    pub fn none() -> Totals
        ensures { result ≡ totals_of [] }
    {
        Totals {
            events: 0,
            bytes: 4,
            last: None,
        }
    }

    // Those of a word with one event more, or none exactly where its bytes are too many.
    fn with(self, x: &Event) -> Option<Totals>
        ensures counted { IfSome result (λ t. (word : List StreamEvent) → self ≡ totals_of word → t ≡ totals_of (word ++ x.now ∷ [])) }
        ensures long { IsNone result → (word : List StreamEvent) → self ≡ totals_of word → IsLong (word ++ x.now ∷ []) }
    {
        let events = self.events.checked_add(1)?;
        let bytes = self.bytes.checked_add(frame_length(x))?;
        Some(Totals {
            events,
            bytes,
            last: number_of(self.last, x.leaf()),
        })
    }

    /// Those of a word with another behind it, or none where its bytes have a number of more than 64 bits.
    pub fn with_word(self, more: &[Event]) -> Option<Totals>
        ensures counted { IfSome result (λ t. (word : List StreamEvent) → self ≡ totals_of word → t ≡ totals_of (word ++ more.now)) }
        ensures long { IsNone result → (word : List StreamEvent) → self ≡ totals_of word → IsLong (word ++ more.now) }
    {
        let mut totals = self;
        for x in more {
            totals = totals.with(x)?;
        }
        Some(totals)
    }
}
