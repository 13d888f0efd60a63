//! Why bytes are no frames.

use thiserror::Error;

/// The first byte that can't stand in its place, or an end that comes too early. The first number
/// counts the bytes before it, from the first that was pushed; the second is the byte itself.
#[derive(Clone, Copy, PartialEq, Eq, Debug, Error)]
pub enum FrameFault {
    /// The byte at this place fits neither version's header.
    #[error("BadMagic at {0}")]
    BadMagic(u64),
    /// A frame has more steps than its version allows.
    #[error("LongPath at {0}")]
    LongPath(u64, u8),
    /// The byte is no step, or not the steps that are to come.
    #[error("BadStep at {0}")]
    BadStep(u64, u8),
    /// The byte is no leaf.
    #[error("BadLeaf at {0}")]
    BadLeaf(u64, u8),
    /// The bytes end, after so many, inside the header or a frame.
    #[error("Truncated at {0}")]
    Truncated(u64),
}
