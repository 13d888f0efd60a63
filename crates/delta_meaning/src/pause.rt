//! Why the evaluation of an expression stops before its end.

use crate::calls::Call;
use std::alloc::{AllocError, AllocFailed};
use stream_type::Memory;

/// Why the evaluation of an expression stops before its end.
#[derive(Drop)]
pub enum Pause {
    /// Memory was refused.
    Memory,
    /// This call is put off: none is left for it, or too many stand round it on the stack.
    PutOff(Box<Call>),
}

impl From<Memory> for Pause {
    ghost use Rattle.std.specs.Prelude.{◌≡◌};
    ghost use Rattle.delta_meaning.specs.declared.pause.Pause.TheVariants.{Memory};

    ghost from_gives = { λ _ pause. pause ≡ Memory };

    fn from(_: Memory) -> Pause {
        Pause::Memory
    }
}

impl From<AllocError> for Pause {
    ghost use Rattle.std.specs.Prelude.{◌≡◌};
    ghost use Rattle.delta_meaning.specs.declared.pause.Pause.TheVariants.{Memory};

    ghost from_gives = { λ _ pause. pause ≡ Memory };

    fn from(_: AllocError) -> Pause {
        Pause::Memory
    }
}

// What could not be put into memory is dropped.
impl<T: Drop> From<AllocFailed<T>> for Pause {
    ghost use Rattle.std.specs.Prelude.{◌≡◌};
    ghost use Rattle.delta_meaning.specs.declared.pause.Pause.TheVariants.{Memory};

    ghost from_gives = { λ _ pause. pause ≡ Memory };

    fn from(_: AllocFailed<T>) -> Pause {
        Pause::Memory
    }
}
