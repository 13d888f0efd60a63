//! Why a text has no tokens.

ghost use Rattle.std.specs.Prelude.{◌≡◌};

use std::alloc::AllocFailed;
use thiserror::Error;

/// Why a text has no tokens. A number counts the bytes of the text before the fault.
#[derive(Clone, Copy, PartialEq, Eq, Debug, Error)]
pub enum LexFault {
    /// Memory was refused.
    #[error("Memory")]
    Memory,
    /// The first byte that isn't part of UTF-8 stands here.
    #[error("BadUtf8 at {0}")]
    BadUtf8(u32),
    /// A character that starts no token stands here.
    #[error("BadChar at {0}")]
    BadChar(u32),
    /// A number past 9223372036854775807 stands here.
    #[error("BigNumber at {0}")]
    BigNumber(u32),
    /// The text has more than 1,048,576 bytes.
    #[error("LongText")]
    LongText,
}

impl<T: Drop> From<AllocFailed<T>> for LexFault {
    ghost use Rattle.delta_lex.specs.declared.fault.LexFault.TheVariants.{Memory};

    ghost from_gives = { λ _ fault. fault ≡ Memory };

    fn from(_: AllocFailed<T>) -> LexFault {
        LexFault::Memory
    }
}
