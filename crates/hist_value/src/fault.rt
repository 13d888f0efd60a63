//! Why the rules give an expression no type.

ghost use Rattle.std.specs.Prelude.{◌≡◌};

use crate::hist_type::HTy;
use bunch::Name;
use std::alloc::{AllocError, AllocFailed};
use stream_type::Memory;
use thiserror::Error;

/// Why an expression has no type: the first broken rule in the order of reading. Contracts see it
/// as a `HistRefusal` by `refusal_of` (`specs/Refusal.antt`), and want of memory as none.
#[derive(Drop, Debug, Error)]
pub enum HistFault {
    /// Memory was refused.
    #[error("Memory")]
    Memory,
    /// Nothing gives this name a type.
    #[error("Unbound")]
    Unbound(Name),
    /// The wanted type, or none where only the form of a pair, a sum or a list is asked; and the
    /// found one, or none where a pair, a nil, an inl, an inr or a cons hasn't the form of what is
    /// wanted.
    #[error("Mismatch")]
    Mismatch {
        /// The wanted type.
        wanted: Option<HTy>,
        /// The found type.
        found: Option<HTy>,
    },
    /// A nil, an inl or an inr stands where no type is wanted.
    #[error("NeedsType")]
    NeedsType,
}

impl From<Memory> for HistFault {
    ghost use Rattle.hist_value.specs.declared.fault.HistFault.TheVariants.{Memory};

    ghost from_gives = { λ _ fault. fault ≡ Memory };

    fn from(_: Memory) -> HistFault {
        HistFault::Memory
    }
}

impl From<AllocError> for HistFault {
    ghost use Rattle.hist_value.specs.declared.fault.HistFault.TheVariants.{Memory};

    ghost from_gives = { λ _ fault. fault ≡ Memory };

    fn from(_: AllocError) -> HistFault {
        HistFault::Memory
    }
}

// What could not be put into memory is dropped.
impl<T: Drop> From<AllocFailed<T>> for HistFault {
    ghost use Rattle.hist_value.specs.declared.fault.HistFault.TheVariants.{Memory};

    ghost from_gives = { λ _ fault. fault ≡ Memory };

    fn from(_: AllocFailed<T>) -> HistFault {
        HistFault::Memory
    }
}
