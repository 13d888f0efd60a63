//! Why a text is no program's.

ghost use Rattle.std.specs.Prelude.{◌≡◌};
ghost use Rattle.program_text.specs.Fault.{of_tokens, of_grammar};

use delta_lex::LexFault;
use delta_parse::ParseFault;
use program_refusal::{Refusal, RefusalName};
use thiserror::Error;

/// Why a text is no program's.
#[derive(Clone, Copy, Debug, PartialEq, Eq, Error)]
pub enum TextFault {
    /// Memory was refused.
    #[error("Memory")]
    Memory,
    /// The text is refused for what is wrong first. `IsRefusedFor` of `specs/ProgramText.antt` says
    /// when, and at which place.
    #[error("the text is refused")]
    Refused(Refusal),
}

// A refusal by this name at this place.
fn refused(name: RefusalName, at: u32) -> TextFault
    ensures { result ≡ TextFault.Refused (record { name = name; at = at }) }
{
    TextFault::Refused(Refusal { name, at })
}

impl From<LexFault> for TextFault {
    ghost from_gives = { λ fault found. found ≡ of_tokens fault };

    fn from(fault: LexFault) -> TextFault {
        match fault {
            LexFault::Memory => TextFault::Memory,
            LexFault::LongText => refused(RefusalName::LongText, 1_048_576),
            LexFault::BadUtf8(at) => refused(RefusalName::BadUtf8, at),
            LexFault::BadChar(at) => refused(RefusalName::BadChar, at),
            LexFault::BigNumber(at) => refused(RefusalName::BigNumber, at),
        }
    }
}

impl From<ParseFault> for TextFault {
    ghost from_gives = { λ fault found. found ≡ of_grammar fault };

    fn from(fault: ParseFault) -> TextFault {
        match fault {
            ParseFault::Memory => TextFault::Memory,
            ParseFault::Deep(at) => refused(RefusalName::Deep, at),
            ParseFault::Expected(at) => refused(RefusalName::Expected, at),
            ParseFault::Twice(at) => refused(RefusalName::Twice, at),
            ParseFault::Many(at) => refused(RefusalName::Many, at),
            ParseFault::NoMain(at) => refused(RefusalName::NoMain, at),
        }
    }
}
