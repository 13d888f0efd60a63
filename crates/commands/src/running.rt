//! Runs the program of a text over a link.

ghost use Rattle.std.specs.Prelude.{◌≤◌};
ghost use Rattle.delta_end.specs.End.{ReadCause, WriteCause};
ghost use Rattle.commands.specs.Running.{RunsText};

use checked_program::{accept_to_write, dismiss};
use delta_end::End;
use delta_runner::{Begins, run_begun};
use event_frame::Version;
use port::Link;
use program_text::TextFault;
use std::alloc::Global;

/// Runs the program of a text over a link, event by event, with so many calls at its start and at each
/// event, and writes frames of the version. What runs it is a B. `RunsText` of `specs/Running.antt` says what
/// stands behind each end.
pub fn run_source<B: Begins, L: Link>(
    alloc: Global,
    text: &[u8],
    budget: u64,
    version: Version,
    link: &mut L,
) -> End
    requires { budget ≤ 1000000 }
    ensures ran { RunsText text.now budget version (L.log link.old) (L.log link.new) (L.left link.old) (L.left link.new) result }
    ensures read { ReadCause result (L.read_faults link.old) (L.read_faults link.new) }
    ensures write { WriteCause result (L.write_faults link.old) (L.write_faults link.new) }
{
    match accept_to_write(alloc, text, version) {
        Ok(accepted) => {
            let end = run_begun::<B, L>(alloc, &accepted.checked, budget, version, link);
            dismiss(accepted);
            end
        }
        Err(TextFault::Memory) => End::Memory,
        Err(TextFault::Refused(why)) => End::Refused(Some(why)),
    }
}
