//! What is wrong with bytes that are no typed kept state of a program.

use thiserror::Error;

/// What is wrong first with bytes that a run is to go on from. Another version comes before a byte in a
/// wrong place, and that before a state that isn't typed.
#[derive(Clone, Copy, PartialEq, Eq, Debug, Error)]
pub enum KeepFault {
    /// Memory was refused.
    #[error("Memory")]
    Memory,
    /// The first byte that can't stand in its place: so many bytes stand before it. It is the length of the
    /// whole where bytes are missing, and 1,048,576 where there are more.
    #[error("Form at {0}")]
    Form(u64),
    /// The number of the first state that isn't typed, counted from 0, a form before its parts.
    #[error("Untyped at {0}")]
    Untyped(u32),
    /// The letters are right, and the version is this one in place of 1.
    #[error("Version at {0}")]
    Version(u8),
}
