//! What is wrong with bytes that are no kept state's.

use thiserror::Error;

/// What is wrong first with the form of bytes. That there are too many of them comes before another
/// version, and another version before a byte in a wrong place.
#[derive(Clone, Copy, PartialEq, Eq, Debug, Error)]
pub enum ReadFault {
    /// Memory was refused, or the bytes nest too deep: 4,000 levels are read.
    #[error("Memory")]
    Memory,
    /// The first byte that can't stand in its place: so many bytes stand before it. It is the length of the
    /// whole where bytes are missing, and 1,048,576 where there are more.
    #[error("Form at {0}")]
    Form(u64),
    /// The letters are right, and the version is this one in place of 1.
    #[error("Version at {0}")]
    Version(u8),
}
