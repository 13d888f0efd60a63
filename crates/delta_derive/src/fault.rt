//! Why a text is no valid derivation of a program.

ghost use Rattle.std.specs.Prelude.{◌≡◌};

use stream_type::Memory;
use thiserror::Error;

/// Why a text is no valid derivation of a program: want of memory, or the first line that is at fault. Lines are
/// numbered from 0. At one line the fault that stands first below is told.
#[derive(Clone, Copy, PartialEq, Eq, Debug, Error)]
pub enum DeriveFault {
    /// Memory was refused.
    #[error("Memory")]
    Memory,
    /// It is no line of a derivation, or isn't ended by a line feed.
    #[error("BadLine at {0}")]
    BadLine(u32),
    /// The path of a step leads nowhere, or what stands there hasn't the form of the step.
    #[error("BadStep at {0}")]
    BadStep(u32),
    /// The rule isn't valid there.
    #[error("BadRule at {0}")]
    BadRule(u32),
    /// The lines end before the last rule; the number is that of all lines.
    #[error("Short at {0}")]
    Short(u32),
    /// The first line after the last rule.
    #[error("Long at {0}")]
    Long(u32),
}

impl From<Memory> for DeriveFault {
    ghost use Rattle.delta_derive.specs.declared.fault.DeriveFault.TheVariants.{Memory};

    ghost from_gives = { λ _ fault. fault ≡ Memory };

    fn from(_: Memory) -> DeriveFault {
        DeriveFault::Memory
    }
}
