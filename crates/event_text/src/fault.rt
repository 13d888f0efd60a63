//! Why a line is no event.

use thiserror::Error;

/// The first fault of a line, from the left. A column counts the bytes before it in the line.
#[derive(Clone, Copy, PartialEq, Eq, Debug, Error)]
pub enum LineFault {
    /// The word at this column may not stand there: it is empty, no text, or another word.
    #[error("BadWord at {0}")]
    BadWord(u64),
    /// The number at this column has more than 64 bits.
    #[error("BigNumber at {0}")]
    BigNumber(u64),
    /// The line has a 64th step.
    #[error("LongPath")]
    LongPath,
    /// The line ends before the event does.
    #[error("NoLeaf")]
    NoLeaf,
    /// The event ends at this column, and the line goes on.
    #[error("Extra at {0}")]
    Extra(u64),
}
