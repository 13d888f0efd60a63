//! Why a program's meaning is not answered.

ghost use Rattle.std.specs.Prelude.{◌≡◌};

use std::alloc::{AllocError, AllocFailed};
use stream_type::Memory;
use thiserror::Error;

/// Why a program's meaning is not answered.
#[derive(Clone, Copy, PartialEq, Eq, Debug, Error)]
pub enum EvalRefusal {
    /// Memory was refused.
    #[error("Memory")]
    Memory,
    /// The program makes more calls than this, the budget.
    #[error("Budget")]
    Budget(u64),
}

/// Why an evaluation stops before its end.
#[derive(Clone, Copy, PartialEq, Eq, Debug, Error)]
pub enum Stop {
    /// Memory was refused.
    #[error("Memory")]
    Memory,
    /// More calls are made than were left.
    #[error("Spent")]
    Spent,
}

impl From<Memory> for Stop {
    ghost use Rattle.delta_meaning.specs.declared.refusal.Stop.TheVariants.{Memory};

    ghost from_gives = { λ _ stop. stop ≡ Memory };

    fn from(_: Memory) -> Stop {
        Stop::Memory
    }
}

impl From<AllocError> for Stop {
    ghost use Rattle.delta_meaning.specs.declared.refusal.Stop.TheVariants.{Memory};

    ghost from_gives = { λ _ stop. stop ≡ Memory };

    fn from(_: AllocError) -> Stop {
        Stop::Memory
    }
}

// What could not be put into memory is dropped.
impl<T: Drop> From<AllocFailed<T>> for Stop {
    ghost use Rattle.delta_meaning.specs.declared.refusal.Stop.TheVariants.{Memory};

    ghost from_gives = { λ _ stop. stop ≡ Memory };

    fn from(_: AllocFailed<T>) -> Stop {
        Stop::Memory
    }
}
