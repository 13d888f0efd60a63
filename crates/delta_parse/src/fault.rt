//! Why tokens belong to no program.

ghost use Rattle.std.specs.Prelude.{◌≡◌};

use std::alloc::AllocError;
use thiserror::Error;

/// Why the tokens of a text belong to no program: what is wrong at the first place, and at one place
/// what stands first here. `IsCause` of `specs/Causes.antt` says when each is the answer. A number
/// counts the bytes of the text before it.
#[derive(Clone, Copy, PartialEq, Eq, Debug, Error)]
pub enum ParseFault {
    /// Memory was refused.
    #[error("Memory")]
    Memory,
    /// More than 64 marks are open before the token here.
    #[error("Deep at {0}")]
    Deep(u32),
    /// No program begins with the tokens up to and with the one here; or the tokens end here, and are
    /// neither a program nor whole declarations.
    #[error("Expected at {0}")]
    Expected(u32),
    /// The name here is declared or bound together with the same name before: among the types or the
    /// functions of the text, the parameters of one header, or the two names of a pattern, of an arm
    /// or of a `with`.
    #[error("Twice at {0}")]
    Twice(u32),
    /// The name here is that of the 1,001st function, or the 1,025th that its declaration binds.
    #[error("Many at {0}")]
    Many(u32),
    /// The tokens end here, behind whole declarations.
    #[error("NoMain at {0}")]
    NoMain(u32),
}

impl From<AllocError> for ParseFault {
    ghost use Rattle.delta_parse.specs.declared.fault.ParseFault.TheVariants.{Memory};

    ghost from_gives = { λ _ fault. fault ≡ Memory };

    fn from(_: AllocError) -> ParseFault {
        ParseFault::Memory
    }
}
