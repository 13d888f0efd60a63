//! Runs the program of a text, from its start or from a state, and leaves its state on a shelf.

ghost use Rattle.std.specs.Prelude.{◌≢◌, ◌≤◌};
ghost use Rattle.delta_end.specs.declared.end.End.{End};
ghost use Rattle.delta_end.specs.End.{FileCause, ReadCause, WriteCause};
ghost use Rattle.delta_loop.specs.Answer.{Adds, ReadsWell};
ghost use Rattle.commands.specs.Running.{Takes};
ghost use Rattle.commands.specs.Saving.{SavesText, SavesTextFrom};

use crate::keeping::save_checked;
use crate::keeping_again::save_checked_from;
use checked_program::{accept_to_write, dismiss};
use delta_end::End;
use event_frame::Version;
use machine_kept::Keeping;
use port::{Link, Shelf};
use program_text::TextFault;
use std::alloc::Global;

/// Runs the program of a text over a link, event by event, with so many calls at its start and at each event, and
/// writes frames of the version. Where the input ends well, be it that more is awaited, it then leaves the program's
/// state under the name, to go on from there later. `SavesText` of `specs/Saving.antt` says what stands behind each
/// end: no other name of the shelf ever changes.
pub fn save_source<M: Keeping, L: Link, S: Shelf>(
    alloc: Global,
    text: &[u8],
    budget: u64,
    version: Version,
    name: &str,
    link: &mut L,
    shelf: &mut S,
) -> End
    requires { budget ≤ 1000000 }
    ensures saved { SavesText (L.log link.old) (L.log link.new) (L.left link.old) (L.left link.new) text.now budget version name.now (S.holds shelf.old) (S.holds shelf.new) result }
    ensures file { FileCause result (S.faults shelf.old) (S.faults shelf.new) }
    ensures read { ReadCause result (L.read_faults link.old) (L.read_faults link.new) }
    ensures write { WriteCause result (L.write_faults link.old) (L.write_faults link.new) }
{
    match accept_to_write(alloc, text, version) {
        Ok(accepted) => {
            let end = save_checked::<M, L, S>(
                alloc,
                &accepted.checked,
                budget,
                version,
                name,
                link,
                shelf,
            );
            dismiss(accepted);
            end
        }
        Err(TextFault::Memory) => End::Memory,
        Err(TextFault::Refused(why)) => End::Refused(Some(why)),
    }
}

/// Goes on with the program of a text from the state that a file is, as a resumed run does: a stream with a header of its
/// own is read, and frames are written behind those that were written before, without a header. Where the input ends well
/// it then leaves its own state under the name, which may be that of the file. `SavesTextFrom` of `specs/Saving.antt` says
/// what stands behind each end: no other name of the shelf ever changes. Whatever the file is, nothing is read after the end
/// of the input, and no more than may be.
pub fn save_source_from<M: Keeping, L: Link, S: Shelf>(
    alloc: Global,
    text: &[u8],
    budget: u64,
    version: Version,
    from: &str,
    name: &str,
    link: &mut L,
    shelf: &mut S,
) -> End
    requires { budget ≤ 1000000 }
    ensures saved { SavesTextFrom (L.log link.old) (L.log link.new) (L.left link.old) (L.left link.new) text.now budget version from.now name.now (S.holds shelf.old) (S.holds shelf.new) result }
    ensures reads { Adds (L.log link.old) (L.log link.new) (ReadsWell result) }
    ensures taken { Adds (L.log link.old) (L.log link.new) (Takes (L.left link.old) (L.left link.new)) }
    ensures saves { result ≢ End.Usage }
    ensures file { FileCause result (S.faults shelf.old) (S.faults shelf.new) }
    ensures read { ReadCause result (L.read_faults link.old) (L.read_faults link.new) }
    ensures write { WriteCause result (L.write_faults link.old) (L.write_faults link.new) }
{
    match accept_to_write(alloc, text, version) {
        Ok(accepted) => {
            let end = save_checked_from::<M, L, S>(
                alloc,
                &accepted.checked,
                budget,
                version,
                from,
                name,
                link,
                shelf,
            );
            dismiss(accepted);
            end
        }
        Err(TextFault::Memory) => End::Memory,
        Err(TextFault::Refused(why)) => End::Refused(Some(why)),
    }
}
