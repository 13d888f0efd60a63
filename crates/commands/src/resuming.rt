//! Goes on from a state's bytes, and from those in a file.

ghost use Rattle.std.specs.Prelude.{◌≡◌, ◌≢◌, ◌≤◌, ℕ, IsTrue};
ghost use Rattle.stream_type.specs.StreamType.{reach_of};
ghost use Rattle.event_frame.specs.Frames.{longest};
ghost use Rattle.core_term.specs.CoreTerm.{core_of, fits_of};
ghost use Rattle.delta_end.specs.declared.end.End.{End};
ghost use Rattle.delta_end.specs.End.{FileCause, ReadCause, WriteCause};
ghost use Rattle.delta_loop.specs.Answer.{Adds, ReadsWell};
ghost use Rattle.commands.specs.Running.{Takes};
ghost use Rattle.commands.specs.Resuming.{Resumes, ResumesFile};

use crate::refusing::fault_end;
use core_term::Checked;
use delta_end::End;
use delta_keep::dismiss;
use delta_runner::run_kept;
use event_frame::Version;
use kept_check::load;
use machine_kept::Keeping;
use port::{IoFault, Link, Shelf};
use std::alloc::Global;

// Goes on from the state with these bytes, where they are those of a typed state of the program.
fn resume_bytes<M: Keeping, L: Link>(
    alloc: Global,
    c: &Checked,
    bytes: &[u8],
    budget: u64,
    version: Version,
    link: &mut L,
) -> End
    requires fits { IsTrue (fits_of (core_of c.now)) }
    requires budget { budget ≤ 1000000 }
    requires short { reach_of (core_of c.now).main.result ≤ longest version }
    ensures resumed { Resumes (core_of c.now) budget version bytes.now (L.log link.old) (L.log link.new) (L.left link.old) (L.left link.new) result }
    ensures reads { Adds (L.log link.old) (L.log link.new) (ReadsWell result) }
    ensures taken { Adds (L.log link.old) (L.log link.new) (Takes (L.left link.old) (L.left link.new)) }
    ensures resumes { result ≢ End.Usage }
    ensures file { (count : ℕ) → FileCause result count count }
    ensures read { ReadCause result (L.read_faults link.old) (L.read_faults link.new) }
    ensures write { WriteCause result (L.write_faults link.old) (L.write_faults link.new) }
{
    match load(alloc, c, bytes) {
        Ok(k) => {
            let end = run_kept::<M, L>(alloc, c, &k, budget, version, link);
            dismiss(k);
            end
        }
        Err(fault) => fault_end(fault),
    }
}

/// Goes on from the state that a file is, where its bytes are those of a typed state of the program: `ResumesFile` of
/// `specs/Resuming.antt` says what stands behind each end.
pub fn resume_checked<M: Keeping, L: Link, S: Shelf>(
    alloc: Global,
    c: &Checked,
    budget: u64,
    version: Version,
    name: &str,
    link: &mut L,
    shelf: &mut S,
) -> End
    requires fits { IsTrue (fits_of (core_of c.now)) }
    requires budget { budget ≤ 1000000 }
    requires short { reach_of (core_of c.now).main.result ≤ longest version }
    ensures resumed { ResumesFile (core_of c.now) budget version (S.holds shelf.old) name.now (L.log link.old) (L.log link.new) (L.left link.old) (L.left link.new) result }
    ensures reads { Adds (L.log link.old) (L.log link.new) (ReadsWell result) }
    ensures taken { Adds (L.log link.old) (L.log link.new) (Takes (L.left link.old) (L.left link.new)) }
    ensures resumes { result ≢ End.Usage }
    ensures held { S.holds shelf.new ≡ S.holds shelf.old }
    ensures file { FileCause result (S.faults shelf.old) (S.faults shelf.new) }
    ensures read { ReadCause result (L.read_faults link.old) (L.read_faults link.new) }
    ensures write { WriteCause result (L.write_faults link.old) (L.write_faults link.new) }
{
    match shelf.read(name) {
        Ok(bytes) => resume_bytes::<M, L>(alloc, c, &bytes, budget, version, link),
        Err(IoFault::Memory) => End::Memory,
        Err(IoFault::Failed) => End::FileFailed,
    }
}
