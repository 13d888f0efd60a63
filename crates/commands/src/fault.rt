//! Why a run on a word didn't come to its end.

ghost use Rattle.std.specs.Prelude.{◌≡◌};
ghost use Rattle.commands.specs.declared.fault.WordFault.TheVariants.{Memory as NoMemory};

use stream_type::Memory;
use thiserror::Error;

/// Why a program didn't come to the end of a word. An event is told by its number in the word, from 0; what stops
/// the program before any event is told as at 0 too.
#[derive(Clone, Copy, PartialEq, Eq, Debug, Error)]
pub enum WordFault {
    /// Memory ran out.
    #[error("out of memory")]
    Memory,
    /// Before any event, or at this event alone, the program makes more calls than it may.
    #[error("more calls than it may make at {0}")]
    Budget(u64),
    /// Before any event, or with this event, the program makes a call at a level above 1,000.
    #[error("a call too deep at {0}")]
    Deep(u64),
}

impl From<Memory> for WordFault {
    ghost from_gives = { λ _ fault. fault ≡ NoMemory };

    fn from(_: Memory) -> WordFault {
        WordFault::Memory
    }
}
