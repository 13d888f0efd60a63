//! Why a walk over states stopped.

ghost use Rattle.std.specs.Prelude.{◌≡◌};
ghost use Rattle.kept_check.specs.declared.stop.Stop.TheVariants.{Memory};

use std::alloc::AllocError;
use stream_type::Memory as NoMemory;

/// Why a walk over states stopped: memory was refused, or the state with this number isn't as it should
/// be.
#[derive(Drop)]
pub enum Stop {
    /// Memory was refused.
    Memory,
    /// The number of the state.
    At(u32),
}

impl From<NoMemory> for Stop {
    ghost from_gives = { λ _ e. e ≡ Memory };

    fn from(_e: NoMemory) -> Stop {
        Stop::Memory
    }
}

impl From<AllocError> for Stop {
    ghost from_gives = { λ _ e. e ≡ Memory };

    fn from(_e: AllocError) -> Stop {
        Stop::Memory
    }
}
