//! What a shelf, a link or a sink answers where it can't do what was asked.

ghost use Rattle.std.specs.Prelude.{◌≡◌};
ghost use Rattle.port.specs.declared.fault.IoFault.TheVariants.{Memory};

use std::alloc::{AllocError, AllocFailed};
use thiserror::Error;

/// What a shelf, a link or a sink answers in place of bytes. `HasCause` of `specs/Faults.antt` says
/// when `Failed` may be answered.
#[derive(Clone, Copy, Debug, Error, PartialEq, Eq)]
pub enum IoFault {
    /// Memory is wanting.
    #[error("out of memory")]
    Memory,
    /// The object itself failed, and its count of faults rose.
    #[error("failed")]
    Failed,
}

impl From<AllocError> for IoFault {
    ghost from_gives = { λ _ e. e ≡ Memory };

    fn from(_: AllocError) -> Self {
        IoFault::Memory
    }
}

impl<T: Drop> From<AllocFailed<T>> for IoFault {
    ghost from_gives = { λ _ e. e ≡ Memory };

    fn from(_: AllocFailed<T>) -> Self {
        IoFault::Memory
    }
}
