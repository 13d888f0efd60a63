//! Leaves what is kept of a run on a shelf: of one that goes on from a kept state.

ghost use Rattle.std.specs.Prelude.{◌≢◌, ◌≤◌, ◌<◌, ◌⊎◌, ◌^◌, ℕ, List, Option, IsTrue, IfOk, IsErrOf};
ghost use Rattle.stream_type.specs.StreamType.{reach_of};
ghost use Rattle.port.specs.declared.link.Move.{Move};
ghost use Rattle.event_frame.specs.Frames.{longest};
ghost use Rattle.core_term.specs.CoreTerm.{CoreProgram, core_of, fits_of};
ghost use Rattle.kept_state.specs.KeptTree.{KeptTree};
ghost use Rattle.kept_state.specs.KeptTyping.{IsTypedKept};
ghost use Rattle.kept_state.specs.KeptBytes.{kept_bytes};
ghost use Rattle.delta_keep.specs.KeptView.{kept_of, places_kept};
ghost use Rattle.delta_end.specs.declared.end.End.{End};
ghost use Rattle.delta_end.specs.End.{IsOfLoop, FileCause, ReadCause, WriteCause};
ghost use Rattle.delta_loop.specs.Answer.{Adds, ReadsWell};
ghost use Rattle.commands.specs.Running.{Takes};
ghost use Rattle.delta_loop.specs.Loop.{IsWellEnded, RanTo};
ghost use Rattle.delta_loop.specs.Meaning.{Meaning};
ghost use Rattle.delta_runner.specs.Standing.{StandsFor};
ghost use Rattle.delta_runner.specs.SinceCourse.{IsSince, IsFrom};
ghost use Rattle.commands.specs.Leaving.{StandsForSome, OfEachState, KeptAs, AreIts, AreTooMany, AreTooFar, from_kept, Saves};
ghost use Rattle.commands.specs.Saving.{way_since, SavesBytes, SavesFrom};

use crate::keeping::{Unleft, leave, spelled};
use crate::refusing::fault_end;
use core_term::Checked;
use delta_end::End;
use delta_keep::{Kept, dismiss};
use delta_loop::run_machine;
use delta_runner::{Runner, Woken, begin_kept};
use event_frame::Version;
use kept_check::load;
use machine_kept::Keeping;
use port::{IoFault, Link, Shelf};
use std::alloc::Global;

/// The most events that may have come before a state that is kept.
const MOST_EVENTS: u64 = 1 << 41;

// The bytes of what is kept again, unless too many events came before it.
fn spelled_again(alloc: Global, k: Kept) -> Result<Vec<u8>, Unleft>
    ensures its { IfOk result (λ v. ((kept_of k).events ≤ 2 ^ 41) × AreIts v.items (kept_of k) (kept_bytes (kept_of k) (places_kept k))) }
    ensures many { IsErrOf result Unleft.Large
        → (((kept_of k).events ≤ 2 ^ 41) × AreTooMany (kept_of k) (kept_bytes (kept_of k) (places_kept k))) ⊎ (2 ^ 41 < (kept_of k).events) }
{
    if k.events > MOST_EVENTS {
        dismiss(k);
        return Err(Unleft::Large);
    }
    spelled(alloc, k)
}

// The bytes of what is to be kept of a machine that goes on from a kept state.
fn bytes_again<M: Keeping>(alloc: Global, runner: &Runner<Woken<'_, M>>) -> Result<Vec<u8>, Unleft>
    requires { StandsForSome (IsSince M.seen M.since) runner.now }
    ensures bytes { IfOk result (λ v. OfEachState M.seen M.since runner.now (λ origin word. KeptAs origin word (AreIts v.items))) }
    ensures large { IsErrOf result Unleft.Large → OfEachState M.seen M.since runner.now (λ origin word. KeptAs origin word AreTooMany ⊎ AreTooFar origin word) }
{
    match runner.session.machine() {
        Some(woken) => match woken.machine.to_kept(alloc) {
            Ok(k) => spelled_again(alloc, k),
            Err(_) => Err(Unleft::Memory),
        },
        None => unreachable!(),
    }
}

// Leaves the state of a run that went on from a kept one under the name, where it ended well, and answers how the command
// ends.
fn leave_again<M: Keeping, S: Shelf>(
    alloc: Global,
    runner: &Runner<Woken<'_, M>>,
    end: End,
    name: &str,
    shelf: &mut S,
) -> End
    requires stands { IsWellEnded end → StandsForSome (IsSince M.seen M.since) runner.now }
    requires end { IsOfLoop end }
    ensures left { (P : Meaning) (c : CoreProgram) (k : KeptTree) (old new : Option (List Move)) (left0 left1 : Option (List ℕ)) → IsFrom M.seen runner.now.session c k
        → RanTo (StandsFor (IsSince M.seen M.since)) P old new left0 left1 runner.now end
        → Saves (record { meaning = P; origin = from_kept c k; old = old; new = new; left0 = left0; left1 = left1 }) name.now (S.holds shelf.old) (S.holds shelf.new) result }
    ensures file { FileCause result (S.faults shelf.old) (S.faults shelf.new) }
    ensures read { (n m : ℕ) → ReadCause end n m → ReadCause result n m }
    ensures write { (n m : ℕ) → WriteCause end n m → WriteCause result n m }
{
    match end {
        End::Done | End::Open => leave(end, bytes_again(alloc, runner), name, shelf),
        _ => end,
    }
}

// Goes on from a kept state over a link, and leaves its own.
fn save_again<M: Keeping, L: Link, S: Shelf>(
    alloc: Global,
    c: &Checked,
    k: &Kept,
    budget: u64,
    version: Version,
    name: &str,
    link: &mut L,
    shelf: &mut S,
) -> End
    requires fits { IsTrue (fits_of (core_of c.now)) }
    requires typed { IsTypedKept (core_of c.now) (kept_of k.now) }
    requires budget { budget ≤ 1000000 }
    requires short { reach_of (core_of c.now).main.result ≤ longest version }
    ensures saved { Saves (way_since (L.log link.old) (L.log link.new) (L.left link.old) (L.left link.new) (core_of c.now) (kept_of k.now) budget version) name.now (S.holds shelf.old) (S.holds shelf.new) result }
    ensures reads { Adds (L.log link.old) (L.log link.new) (ReadsWell result) }
    ensures taken { Adds (L.log link.old) (L.log link.new) (Takes (L.left link.old) (L.left link.new)) }
    ensures saves { result ≢ End.Usage }
    ensures file { FileCause result (S.faults shelf.old) (S.faults shelf.new) }
    ensures read { ReadCause result (L.read_faults link.old) (L.read_faults link.new) }
    ensures write { WriteCause result (L.write_faults link.old) (L.write_faults link.new) }
{
    match begin_kept::<M>(alloc, c, k, budget, version) {
        Ok(runner) => {
            let mut runner = runner;
            let end = run_machine(alloc, &mut runner, None, b"", link);
            let left = leave_again(alloc, &runner, end, name, shelf);
            drop(runner);
            left
        }
        Err(_) => End::Memory,
    }
}

// Goes on from the state with these bytes, where they are those of a typed state of the program, and leaves its own.
fn save_bytes<M: Keeping, L: Link, S: Shelf>(
    alloc: Global,
    c: &Checked,
    bytes: &[u8],
    budget: u64,
    version: Version,
    name: &str,
    link: &mut L,
    shelf: &mut S,
) -> End
    requires fits { IsTrue (fits_of (core_of c.now)) }
    requires budget { budget ≤ 1000000 }
    requires short { reach_of (core_of c.now).main.result ≤ longest version }
    ensures saved { SavesBytes (L.log link.old) (L.log link.new) (L.left link.old) (L.left link.new) (core_of c.now) budget version bytes.now name.now (S.holds shelf.old) (S.holds shelf.new) result }
    ensures reads { Adds (L.log link.old) (L.log link.new) (ReadsWell result) }
    ensures taken { Adds (L.log link.old) (L.log link.new) (Takes (L.left link.old) (L.left link.new)) }
    ensures saves { result ≢ End.Usage }
    ensures file { FileCause result (S.faults shelf.old) (S.faults shelf.new) }
    ensures read { ReadCause result (L.read_faults link.old) (L.read_faults link.new) }
    ensures write { WriteCause result (L.write_faults link.old) (L.write_faults link.new) }
{
    match load(alloc, c, bytes) {
        Ok(k) => {
            let end = save_again::<M, L, S>(alloc, c, &k, budget, version, name, link, shelf);
            dismiss(k);
            end
        }
        Err(fault) => fault_end(fault),
    }
}

/// Goes on from the state that a file is, where its bytes are those of a typed state of the program, and leaves its own
/// under the name, which may be that of the file: `SavesFrom` of `specs/Saving.antt` says what stands behind each end.
pub fn save_checked_from<M: Keeping, L: Link, S: Shelf>(
    alloc: Global,
    c: &Checked,
    budget: u64,
    version: Version,
    from: &str,
    name: &str,
    link: &mut L,
    shelf: &mut S,
) -> End
    requires fits { IsTrue (fits_of (core_of c.now)) }
    requires budget { budget ≤ 1000000 }
    requires short { reach_of (core_of c.now).main.result ≤ longest version }
    ensures saved { SavesFrom (L.log link.old) (L.log link.new) (L.left link.old) (L.left link.new) (core_of c.now) budget version from.now name.now (S.holds shelf.old) (S.holds shelf.new) result }
    ensures reads { Adds (L.log link.old) (L.log link.new) (ReadsWell result) }
    ensures taken { Adds (L.log link.old) (L.log link.new) (Takes (L.left link.old) (L.left link.new)) }
    ensures saves { result ≢ End.Usage }
    ensures file { FileCause result (S.faults shelf.old) (S.faults shelf.new) }
    ensures read { ReadCause result (L.read_faults link.old) (L.read_faults link.new) }
    ensures write { WriteCause result (L.write_faults link.old) (L.write_faults link.new) }
{
    match shelf.read(from) {
        Ok(bytes) => { save_bytes::<M, L, S>(alloc, c, &bytes, budget, version, name, link, shelf) }
        Err(IoFault::Memory) => End::Memory,
        Err(IoFault::Failed) => End::FileFailed,
    }
}
