//! Why a program has no bound.

ghost use Rattle.std.specs.Prelude.{◌≡◌};

use bunch::Name;
use std::fmt::{self, Formatter, Write};
use stream_type::Memory;
use thiserror::Error;

/// Why no bound of a program can be told: want of memory, or the first of the other causes that holds
/// (`Refuses` in `specs/Refusals.antt`).
#[derive(Drop, Error)]
pub enum BoundRefusal {
    /// Memory was refused.
    #[error("Memory")]
    Memory,
    /// A case or a wait counts a name whose type has no size.
    #[error("Unbounded")]
    Unbounded {
        /// The first such name of the first such node.
        x: Name,
        /// The number of bytes of the program's text before the node.
        at: u32,
    },
    /// The number of a function still grows after as many rounds as functions are reached.
    #[error("Cycle")]
    Cycle {
        /// The lowest such function.
        f: u32,
        /// The number of bytes of the program's text before its body.
        at: u32,
    },
    /// The bound is no number below 10^18.
    #[error("Large")]
    Large,
}

impl fmt::Debug for BoundRefusal {
    fn fmt<W: Write>(&self, f: &mut Formatter<W>) -> Result<(), fmt::Error> {
        fmt::Display::fmt(self, f)
    }
}

impl From<Memory> for BoundRefusal {
    ghost use Rattle.delta_bound.specs.declared.refusal.BoundRefusal.TheVariants.{Memory};

    ghost from_gives = { λ _ refusal. refusal ≡ Memory };

    fn from(_: Memory) -> BoundRefusal {
        BoundRefusal::Memory
    }
}
