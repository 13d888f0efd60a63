//! Goes on with the program of a text from the state that a file is.

ghost use Rattle.std.specs.Prelude.{◌≡◌, ◌≢◌, ◌≤◌};
ghost use Rattle.delta_end.specs.declared.end.End.{End};
ghost use Rattle.delta_end.specs.End.{FileCause, ReadCause, WriteCause};
ghost use Rattle.delta_loop.specs.Answer.{Adds, ReadsWell};
ghost use Rattle.commands.specs.Running.{Takes};
ghost use Rattle.commands.specs.Texts.{ResumesText};

use crate::resuming::resume_checked;
use checked_program::{accept_to_write, dismiss};
use delta_end::End;
use event_frame::Version;
use machine_kept::Keeping;
use port::{Link, Shelf};
use program_text::TextFault;
use std::alloc::Global;

/// Goes on with the program of a text from the state that a run of it left in a file, event by event, with so many
/// calls at each event: a stream with a header of its own is read, and frames of the version are written behind those
/// that were written before, without a header. Nobody has to trust the file: where its bytes aren't those of a typed
/// state of the program it is told what is wrong first, with nothing read or written. The text is judged before the
/// file is read. `ResumesText` of `specs/Texts.antt` says what stands behind each end. Whatever the file is, nothing is
/// read after the end of the input, and no more than may be.
pub fn resume_source<M: Keeping, L: Link, S: Shelf>(
    alloc: Global,
    text: &[u8],
    budget: u64,
    version: Version,
    name: &str,
    link: &mut L,
    shelf: &mut S,
) -> End
    requires { budget ≤ 1000000 }
    ensures resumed { ResumesText text.now budget version (S.holds shelf.old) name.now (L.log link.old) (L.log link.new) (L.left link.old) (L.left link.new) result }
    ensures reads { Adds (L.log link.old) (L.log link.new) (ReadsWell result) }
    ensures taken { Adds (L.log link.old) (L.log link.new) (Takes (L.left link.old) (L.left link.new)) }
    ensures resumes { result ≢ End.Usage }
    ensures held { S.holds shelf.new ≡ S.holds shelf.old }
    ensures file { FileCause result (S.faults shelf.old) (S.faults shelf.new) }
    ensures read { ReadCause result (L.read_faults link.old) (L.read_faults link.new) }
    ensures write { WriteCause result (L.write_faults link.old) (L.write_faults link.new) }
{
    match accept_to_write(alloc, text, version) {
        Ok(accepted) => {
            let end = resume_checked::<M, L, S>(
                alloc,
                &accepted.checked,
                budget,
                version,
                name,
                link,
                shelf,
            );
            dismiss(accepted);
            end
        }
        Err(TextFault::Memory) => End::Memory,
        Err(TextFault::Refused(why)) => End::Refused(Some(why)),
    }
}
