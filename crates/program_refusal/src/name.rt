//! The names of faults of programs, as notes tell them.

ghost use Rattle.std.specs.Prelude.{◌≡◌};
ghost use Rattle.program_refusal.specs.RefusalName.{refusal_name as name_of_refusal};

use crate::refusal::RefusalName;

/// The name of a program's fault.
pub fn refusal_name(name: RefusalName) -> &'static [u8]
    ensures { result.now ≡ name_of_refusal name }
{
    match name {
        RefusalName::LongText => b"LongText",
        RefusalName::BadUtf8 => b"BadUtf8",
        RefusalName::BadChar => b"BadChar",
        RefusalName::BigNumber => b"BigNumber",
        RefusalName::Deep => b"Deep",
        RefusalName::Expected => b"Expected",
        RefusalName::Twice => b"Twice",
        RefusalName::Many => b"Many",
        RefusalName::NoMain => b"NoMain",
        RefusalName::Unbound => b"Unbound",
        RefusalName::NoFunction => b"NoFunction",
        RefusalName::NoType => b"NoType",
        RefusalName::TooTall => b"TooTall",
        RefusalName::TooWide => b"TooWide",
        RefusalName::Mismatch => b"Mismatch",
        RefusalName::OutOfOrder => b"OutOfOrder",
        RefusalName::Jumpy => b"Jumpy",
        RefusalName::WaitNull => b"WaitNull",
        RefusalName::Arity => b"Arity",
        RefusalName::History => b"History",
        RefusalName::NotStream => b"NotStream",
        RefusalName::WideOutput => b"WideOutput",
    }
}
