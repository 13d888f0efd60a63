//! Runs that leave the state of a file's program, runs that go on from it, and runs that do both.

ghost use Rattle.std.specs.Prelude.{◌≡◌, ◌≢◌, ◌≤◌};
ghost use Rattle.delta_end.specs.declared.end.End.{End};
ghost use Rattle.delta_end.specs.End.{FileCause, ReadCause, WriteCause};
ghost use Rattle.delta_loop.specs.Answer.{Adds, ReadsWell};
ghost use Rattle.delta_loop.specs.History.{IsUntouched};
ghost use Rattle.commands.specs.Running.{Takes, IsUnrun};
ghost use Rattle.delta_run.specs.Text.{OfFile, IsRefusal};
ghost use Rattle.commands.specs.Leaving.{ChangesState};
ghost use Rattle.delta_run.specs.Saved.{SavedText};
ghost use Rattle.delta_run.specs.SavedAgain.{SavedAgainText};
ghost use Rattle.delta_run.specs.Resumed.{ResumedText};

use commands::{resume_source, save_source, save_source_from};
use delta_end::End;
use event_frame::Version;
use machine_kept::Keeping;
use port::{IoFault, Link, Shelf};
use std::alloc::Global;

/// Runs the program of a file over a link, and leaves its state in another file where the input ends well.
pub fn save_file<K: Keeping, S: Shelf, L: Link>(
    alloc: Global,
    file: &str,
    state: &str,
    budget: u64,
    version: Version,
    shelf: &mut S,
    link: &mut L,
) -> End
    requires { budget ≤ 1000000 }
    ensures saved { OfFile (S.holds shelf.old) file.now
        (λ text. SavedText text budget version state.now (L.log link.old) (L.log link.new) (L.left link.old) (L.left link.new) (S.holds shelf.old) (S.holds shelf.new) result) }
    ensures reads { Adds (L.log link.old) (L.log link.new) (ReadsWell result) }
    ensures taken { Adds (L.log link.old) (L.log link.new) (Takes (L.left link.old) (L.left link.new)) }
    ensures unrun { IsRefusal result → IsUntouched (L.log link.old) (L.log link.new) (L.left link.old) (L.left link.new) }
    ensures saves { result ≢ End.Usage }
    ensures changes { ChangesState result (S.holds shelf.old) (S.holds shelf.new) state.now }
    ensures file { FileCause result (S.faults shelf.old) (S.faults shelf.new) }
    ensures read { ReadCause result (L.read_faults link.old) (L.read_faults link.new) }
    ensures write { WriteCause result (L.write_faults link.old) (L.write_faults link.new) }
{
    match shelf.read(file) {
        Ok(text) => save_source::<K, L, S>(alloc, &text, budget, version, state, link, shelf),
        Err(IoFault::Memory) => End::Memory,
        Err(IoFault::Failed) => End::FileFailed,
    }
}

/// Goes on over a link with the program of a file, from the state that a run of it left in another file, and leaves its
/// own in a third one where the input ends well. That may be the file that it goes on from.
pub fn save_file_from<K: Keeping, S: Shelf, L: Link>(
    alloc: Global,
    file: &str,
    state: &str,
    from: &str,
    budget: u64,
    version: Version,
    shelf: &mut S,
    link: &mut L,
) -> End
    requires { budget ≤ 1000000 }
    ensures saved { OfFile (S.holds shelf.old) file.now
        (λ text. SavedAgainText text budget version from.now state.now (L.log link.old) (L.log link.new) (L.left link.old) (L.left link.new) (S.holds shelf.old) (S.holds shelf.new) result) }
    ensures reads { Adds (L.log link.old) (L.log link.new) (ReadsWell result) }
    ensures taken { Adds (L.log link.old) (L.log link.new) (Takes (L.left link.old) (L.left link.new)) }
    ensures unrun { IsRefusal result → IsUntouched (L.log link.old) (L.log link.new) (L.left link.old) (L.left link.new) }
    ensures saves { result ≢ End.Usage }
    ensures changes { ChangesState result (S.holds shelf.old) (S.holds shelf.new) state.now }
    ensures file { FileCause result (S.faults shelf.old) (S.faults shelf.new) }
    ensures read { ReadCause result (L.read_faults link.old) (L.read_faults link.new) }
    ensures write { WriteCause result (L.write_faults link.old) (L.write_faults link.new) }
{
    match shelf.read(file) {
        Ok(text) => {
            save_source_from::<K, L, S>(alloc, &text, budget, version, from, state, link, shelf)
        }
        Err(IoFault::Memory) => End::Memory,
        Err(IoFault::Failed) => End::FileFailed,
    }
}

/// Goes on over a link with the program of a file, from the state that a run of it left in another file.
pub fn resume_file<K: Keeping, S: Shelf, L: Link>(
    alloc: Global,
    file: &str,
    state: &str,
    budget: u64,
    version: Version,
    shelf: &mut S,
    link: &mut L,
) -> End
    requires { budget ≤ 1000000 }
    ensures resumed { OfFile (S.holds shelf.old) file.now
        (λ text. ResumedText text budget version (S.holds shelf.old) state.now (L.log link.old) (L.log link.new) (L.left link.old) (L.left link.new) result) }
    ensures reads { Adds (L.log link.old) (L.log link.new) (ReadsWell result) }
    ensures taken { Adds (L.log link.old) (L.log link.new) (Takes (L.left link.old) (L.left link.new)) }
    ensures unrun { IsUnrun result → IsUntouched (L.log link.old) (L.log link.new) (L.left link.old) (L.left link.new) }
    ensures resumes { result ≢ End.Usage }
    ensures held { S.holds shelf.new ≡ S.holds shelf.old }
    ensures file { FileCause result (S.faults shelf.old) (S.faults shelf.new) }
    ensures read { ReadCause result (L.read_faults link.old) (L.read_faults link.new) }
    ensures write { WriteCause result (L.write_faults link.old) (L.write_faults link.new) }
{
    match shelf.read(file) {
        Ok(text) => resume_source::<K, L, S>(alloc, &text, budget, version, state, link, shelf),
        Err(IoFault::Memory) => End::Memory,
        Err(IoFault::Failed) => End::FileFailed,
    }
}
