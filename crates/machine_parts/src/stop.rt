//! Why a step stops before its end.

ghost use Rattle.std.specs.Prelude.{◌≡◌, ℕ};

use delta_state::StepRefusal;
use std::alloc::{AllocError, AllocFailed};
use stream_type::Memory;
use thiserror::Error;

/// The depth at which a program begins.
pub const HORIZON: u64 = 1 << 62;

/// The greatest level from below of a run whose calls all stand at level 1,000 or less.
pub const LEVELS: u64 = 1001;

/// Why a step stops before its end.
#[derive(Clone, Copy, PartialEq, Eq, Debug, Error)]
pub enum Stop {
    /// Memory was refused.
    #[error("Memory")]
    Memory,
    /// More calls are made than were left.
    #[error("Spent")]
    Spent,
    /// A call is made at a level that is too great.
    #[error("Deep")]
    Deep,
}

impl From<Memory> for Stop {
    ghost use Rattle.machine_parts.specs.declared.stop.Stop.TheVariants.{Memory};

    ghost from_gives = { λ _ stop. stop ≡ Memory };

    fn from(_: Memory) -> Stop {
        Stop::Memory
    }
}

impl From<AllocError> for Stop {
    ghost use Rattle.machine_parts.specs.declared.stop.Stop.TheVariants.{Memory};

    ghost from_gives = { λ _ stop. stop ≡ Memory };

    fn from(_: AllocError) -> Stop {
        Stop::Memory
    }
}

// What could not be put into memory is dropped.
impl<T: Drop> From<AllocFailed<T>> for Stop {
    ghost use Rattle.machine_parts.specs.declared.stop.Stop.TheVariants.{Memory};

    ghost from_gives = { λ _ stop. stop ≡ Memory };

    fn from(_: AllocFailed<T>) -> Stop {
        Stop::Memory
    }
}

/// Why a machine stops, where a run with this budget did.
pub fn refusal(stop: Stop, budget: u64) -> StepRefusal
    ensures budget { (n : ℕ) → result ≡ StepRefusal.Budget n → (n ≡ budget) × (stop ≡ Stop.Spent) }
    ensures deep { (n : ℕ) → result ≡ StepRefusal.Deep n → (n ≡ 1001) × (stop ≡ Stop.Deep) }
{
    match stop {
        Stop::Memory => StepRefusal::Memory,
        Stop::Spent => StepRefusal::Budget(budget),
        Stop::Deep => StepRefusal::Deep(LEVELS),
    }
}
