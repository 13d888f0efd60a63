//! Checks the program of a text.

ghost use Rattle.commands.specs.Checking.{Checks};

use checked_program::{accept, dismiss};
use delta_end::End;
use program_text::TextFault;
use std::alloc::Global;

/// Whether a text is accepted: `Done` where it is, and else refused with the name and the place of what is
/// wrong first. `Checks` of `specs/Checking.antt` says when. Nothing is read or written.
pub fn check_source(alloc: Global, text: &[u8]) -> End
    ensures { Checks text.now result }
{
    match accept(alloc, text) {
        Ok(accepted) => {
            dismiss(accepted);
            End::Done
        }
        Err(TextFault::Memory) => End::Memory,
        Err(TextFault::Refused(why)) => End::Refused(Some(why)),
    }
}
