//! Leaves what is kept of a run on a shelf: of a checked program that ran from its start.

ghost use Rattle.std.specs.Prelude.{◌≡◌, ◌≤◌, ◌<◌, ℕ, List, Option, IsTrue, IfOk, IfErr, IsErrOf};
ghost use Rattle.stream_type.specs.StreamType.{reach_of};
ghost use Rattle.port.specs.declared.link.Move.{Move};
ghost use Rattle.event_frame.specs.Frames.{longest};
ghost use Rattle.core_term.specs.CoreTerm.{CoreProgram, core_of, fits_of};
ghost use Rattle.kept_state.specs.KeptBytes.{kept_bytes};
ghost use Rattle.delta_keep.specs.KeptView.{kept_of, places_kept};
ghost use Rattle.delta_end.specs.End.{IsOfLoop, FileCause, ReadCause, WriteCause};
ghost use Rattle.delta_loop.specs.Loop.{IsWellEnded, RanTo};
ghost use Rattle.delta_loop.specs.Meaning.{Meaning};
ghost use Rattle.delta_output.specs.LoopMeaning.{meaning_of};
ghost use Rattle.delta_session.specs.Programs.{IsRunning, one_shot};
ghost use Rattle.delta_session.specs.Standing.{IsOf};
ghost use Rattle.delta_runner.specs.Standing.{StandsFor};
ghost use Rattle.commands.specs.Leaving.{StandsForSome, OfEachProgram, KeptAs, AreIts, AreTooMany, Way, from_start, TellsBytes, Saves};

use core_term::Checked;
use delta_end::{End, Objection, StateName};
use delta_keep::{Kept, SaveRefusal, dismiss, read_kept, save};
use delta_loop::{run_machine, stop_first};
use delta_runner::{BeginFault, Runner, begin};
use event_frame::Version;
use machine_kept::Keeping;
use port::{IoFault, Link, Shelf};
use std::alloc::Global;

/// Why what is kept isn't left.
#[derive(Clone, Copy, Debug, PartialEq, Eq)]
pub enum Unleft {
    /// Memory is wanting.
    Memory,
    /// It is too large.
    Large,
}

/// The bytes of what is kept, which ends here, where they can be read again. Where they can't, since what is kept nests
/// deeper than a reader goes, the same is told as for want of memory, so no state is left that its own reader wouldn't take.
pub fn spelled(alloc: Global, k: Kept) -> Result<Vec<u8>, Unleft>
    ensures its { IfOk result (λ v. AreIts v.items (kept_of k) (kept_bytes (kept_of k) (places_kept k))) }
    ensures many { IsErrOf result Unleft.Large → AreTooMany (kept_of k) (kept_bytes (kept_of k) (places_kept k)) }
{
    let bytes = save(alloc, &k);
    dismiss(k);
    match bytes {
        Ok(bytes) => read_again(alloc, bytes),
        Err(SaveRefusal::Memory) => Err(Unleft::Memory),
        Err(SaveRefusal::Large(_)) => Err(Unleft::Large),
    }
}

// These bytes, where a kept state can be read from them.
fn read_again(alloc: Global, bytes: Vec<u8>) -> Result<Vec<u8>, Unleft>
    ensures same { IfOk result (λ v. v.items ≡ bytes.items) }
    ensures memory { IfErr result (λ e. e ≡ Unleft.Memory) }
{
    match read_kept(alloc, &bytes) {
        Ok(k) => {
            dismiss(k);
            Ok(bytes)
        }
        Err(_) => Err(Unleft::Memory),
    }
}

/// Leaves these bytes under the name, behind a run that ended well, and answers how the command ends.
pub fn leave<S: Shelf>(end: End, bytes: Result<Vec<u8>, Unleft>, name: &str, shelf: &mut S) -> End
    requires well { IsWellEnded end }
    ensures left { (w : Way) → TellsBytes w end bytes → Saves w name.now (S.holds shelf.old) (S.holds shelf.new) result }
    ensures file { FileCause result (S.faults shelf.old) (S.faults shelf.new) }
    ensures read { (n m : ℕ) → ReadCause end n m → ReadCause result n m }
    ensures write { (n m : ℕ) → WriteCause end n m → WriteCause result n m }
{
    match bytes {
        Ok(bytes) => match shelf.write(name, &bytes) {
            Ok(()) => end,
            Err(IoFault::Memory) => End::Memory,
            Err(IoFault::Failed) => End::FileFailed,
        },
        Err(Unleft::Memory) => End::Memory,
        Err(Unleft::Large) => { End::Objected(Objection::State(StateName::Large, 1_048_576)) }
    }
}

// The bytes of what is to be kept of a program that runs.
fn bytes_of<M: Keeping>(alloc: Global, runner: &Runner<M>) -> Result<Vec<u8>, Unleft>
    requires { StandsForSome (IsRunning M.seen M.stands) runner.now }
    ensures bytes { IfOk result (λ v. OfEachProgram M.seen M.stands runner.now (λ origin word. KeptAs origin word (AreIts v.items))) }
    ensures large { IsErrOf result Unleft.Large → OfEachProgram M.seen M.stands runner.now (λ origin word. KeptAs origin word AreTooMany) }
{
    match runner.session.machine() {
        Some(machine) => match machine.to_kept(alloc) {
            Ok(k) => spelled(alloc, k),
            Err(_) => Err(Unleft::Memory),
        },
        None => unreachable!(),
    }
}

// Leaves the state of a program that ran under the name, where the run ended well, and answers how the command ends.
fn leave_program<M: Keeping, S: Shelf>(
    alloc: Global,
    runner: &Runner<M>,
    end: End,
    name: &str,
    shelf: &mut S,
) -> End
    requires stands { IsWellEnded end → StandsForSome (IsRunning M.seen M.stands) runner.now }
    requires end { IsOfLoop end }
    ensures left { (P : Meaning) (c : CoreProgram) (old new : Option (List Move)) (left0 left1 : Option (List ℕ)) → IsOf M.seen runner.now.session c
        → RanTo (StandsFor (IsRunning M.seen M.stands)) P old new left0 left1 runner.now end
        → Saves (record { meaning = P; origin = from_start c; old = old; new = new; left0 = left0; left1 = left1 }) name.now (S.holds shelf.old) (S.holds shelf.new) result }
    ensures file { FileCause result (S.faults shelf.old) (S.faults shelf.new) }
    ensures read { (n m : ℕ) → ReadCause end n m → ReadCause result n m }
    ensures write { (n m : ℕ) → WriteCause end n m → WriteCause result n m }
{
    match end {
        End::Done | End::Open => leave(end, bytes_of(alloc, runner), name, shelf),
        _ => end,
    }
}

/// Runs a checked program over a link as a run does, and where its input ends well it leaves the program's state under
/// the name, to go on from there later. `Saves` of `specs/Leaving.antt` says what stands behind each end.
pub fn save_checked<M: Keeping, L: Link, S: Shelf>(
    alloc: Global,
    c: &Checked,
    budget: u64,
    version: Version,
    name: &str,
    link: &mut L,
    shelf: &mut S,
) -> End
    requires fits { IsTrue (fits_of (core_of c.now)) }
    requires budget { budget ≤ 1000000 }
    requires short { reach_of (core_of c.now).main.result ≤ longest version }
    ensures saved { Saves (record { meaning = meaning_of version budget (one_shot (core_of c.now)); origin = from_start (core_of c.now); old = L.log link.old; new = L.log link.new; left0 = L.left link.old; left1 = L.left link.new })
        name.now (S.holds shelf.old) (S.holds shelf.new) result }
    ensures file { FileCause result (S.faults shelf.old) (S.faults shelf.new) }
    ensures read { ReadCause result (L.read_faults link.old) (L.read_faults link.new) }
    ensures write { WriteCause result (L.write_faults link.old) (L.write_faults link.new) }
{
    match begin::<M>(alloc, c, budget, version) {
        Ok((runner, first)) => {
            let mut runner = runner;
            let end = run_machine(alloc, &mut runner, Some(version), &first, link);
            drop(first);
            let left = leave_program(alloc, &runner, end, name, shelf);
            drop(runner);
            left
        }
        Err(BeginFault::Memory) => End::Memory,
        Err(BeginFault::Stopped(why)) => stop_first(version, why, link),
    }
}
