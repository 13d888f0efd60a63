//! Why a reader stopped.

ghost use Rattle.std.specs.Prelude.{◌≡◌};
ghost use Rattle.delta_keep.specs.declared.halt.Halt.TheVariants.{Memory};

use std::alloc::{AllocError, AllocFailed};

/// Why a reader stopped: memory was refused, or so many bytes are left, the first of which can't stand in
/// its place; none are left where bytes are missing.
#[derive(Drop)]
pub enum Halt {
    /// Memory was refused.
    Memory,
    /// So many bytes are left.
    At(usize),
}

impl From<AllocError> for Halt {
    ghost from_gives = { λ _ e. e ≡ Memory };

    fn from(_e: AllocError) -> Halt {
        Halt::Memory
    }
}

impl<T: Drop> From<AllocFailed<T>> for Halt {
    ghost from_gives = { λ _ e. e ≡ Memory };

    fn from(_e: AllocFailed<T>) -> Halt {
        Halt::Memory
    }
}
