//! Why a kept state isn't written.

use thiserror::Error;

/// Why a kept state isn't written.
#[derive(Clone, Copy, PartialEq, Eq, Debug, Error)]
pub enum SaveRefusal {
    /// Memory was refused.
    #[error("Memory")]
    Memory,
    /// It has so many bytes, more than 1,048,576.
    #[error("Large at {0}")]
    Large(u64),
}
