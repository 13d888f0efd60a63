//! Runs a program that was read: the call on which every command that runs a program stands.

ghost use Rattle.std.specs.Prelude.{◌≡◌, ◌≢◌, ◌⊎◌};
ghost use Rattle.port.specs.Faults.{Rose};
ghost use Rattle.delta_end.specs.declared.end.End.{End};
ghost use Rattle.delta_loop.specs.Answer.{Adds, AtReturn, IsComplete, ReadsWell};
ghost use Rattle.delta_end.specs.Status.{IsStatus, IsStill};
ghost use Rattle.delta_end.specs.End.{IsOfLoop, ReadCause, WriteCause};
ghost use Rattle.delta_loop.specs.Loop.{RanTo, IsFresh};
ghost use Rattle.delta_loop.specs.Meaning.{Meaning, Begun, HasBegun};
ghost use Rattle.delta_end.specs.Note.{note_of, Says};
ghost use Rattle.delta_loop.specs.Output.{due};
ghost use Rattle.delta_loop.specs.Prompt.{IsPrompt};

use crate::open::open;
use crate::serve::serve;
use crate::stepper::Stepper;
use delta_end::{End, answer, note};
use event_frame::{Reader, Version};
use port::{IoFault, Link, Sink};
use std::alloc::Global;

/// The most bytes that a reader of a run keeps: those of a part of a frame, and a piece.
const ROOM: u64 = 4137;

// Writes what comes before the first read, and runs the program to its end. It asks for a reader with room for all that
// a run keeps: so nothing is written before that room is there, and no piece that is read later can be refused.
fn run_with<M: Stepper, L: Link>(
    alloc: Global,
    machine: &mut M,
    reader: &mut Reader,
    version: Option<Version>,
    first: &[u8],
    link: &mut L,
) -> End
    requires live { Begun M.stands machine.old }
    requires room { IsFresh reader.old }
    ensures ran { (P : Meaning) → HasBegun M.stands P machine.old version first.now → RanTo M.stands P (L.log link.old) (L.log link.new) (L.left link.old) (L.left link.new) machine.new result }
    ensures program { M.same_program machine.old machine.new }
    ensures end { IsOfLoop result }
    ensures read { ReadCause result (L.read_faults link.old) (L.read_faults link.new) }
    ensures write { WriteCause result (L.write_faults link.old) (L.write_faults link.new) }
{
    match open(link, version, first) {
        Ok(()) => serve(alloc, machine, reader, link),
        Err(IoFault::Memory) => End::Memory,
        Err(IoFault::Failed) => End::WriteFailed,
    }
}

/// Runs a program over a link, up to its end. The machine stands for the program before any event, and
/// `first` are the bytes that come before the first read, behind a header of the version, if there is one.
/// Where the input ended well, the machine then stands after all of its events, for the program that it ran. The reader's room is taken
/// before anything is written.
pub fn run_machine<M: Stepper, L: Link>(
    alloc: Global,
    machine: &mut M,
    version: Option<Version>,
    first: &[u8],
    link: &mut L,
) -> End
    requires { Begun M.stands machine.old }
    ensures ran { (P : Meaning) → HasBegun M.stands P machine.old version first.now → RanTo M.stands P (L.log link.old) (L.log link.new) (L.left link.old) (L.left link.new) machine.new result }
    ensures program { M.same_program machine.old machine.new }
    ensures end { IsOfLoop result }
    ensures read { ReadCause result (L.read_faults link.old) (L.read_faults link.new) }
    ensures write { WriteCause result (L.write_faults link.old) (L.write_faults link.new) }
{
    let mut reader = Reader::new(alloc);
    match reader.reserve(ROOM) {
        Ok(()) => run_with(alloc, machine, &mut reader, version, first, link),
        Err(_) => End::Memory,
    }
}

/// Runs a program that was read over a link, and answers the exit status: 0 where the input ended and
/// the program may end there, 4 where the input is refused, 5 where the program is stopped, 6 where the input ended and the program awaits
/// more, 7 at a fault outside, 8 for want of memory, and 9 for more than 2^40 input bytes. The note is
/// the last thing that is written. The machine stands for the program before any event, and `first` are the
/// bytes that come before the first read, behind a header of the version, if there is one.
pub fn run_program<M: Stepper, L: Link, N: Sink>(
    alloc: Global,
    machine: M,
    version: Option<Version>,
    first: &[u8],
    link: &mut L,
    notes: &mut N,
) -> u8
    requires { Begun M.stands machine }
    // Before each read, what was written is what is due for what was read.
    ensures prompt { (P : Meaning) → HasBegun M.stands P machine version first.now → Adds (L.log link.old) (L.log link.new) (IsPrompt (due P)) }
    // The status is that of an end, and the end is shown by the bytes, the counts and the note. Nothing is read after the
    // end of the input; at most 2^40 bytes are read, and one more only where there are too many.
    ensures answer { (end : End) × IsOfLoop end × IsStatus end result (N.faults notes.old) (N.faults notes.new)
        × ((P : Meaning) → HasBegun M.stands P machine version first.now → Adds (L.log link.old) (L.log link.new) (ReadsWell end))
        × ((P : Meaning) → HasBegun M.stands P machine version first.now → Adds (L.log link.old) (L.log link.new) (AtReturn P end))
        × ReadCause end (L.read_faults link.old) (L.read_faults link.new)
        × WriteCause end (L.write_faults link.old) (L.write_faults link.new)
        × Says (N.told notes.old) (N.told notes.new) (note_of end) ((result ≢ 8) × IsStill (N.faults notes.old) (N.faults notes.new)) }
    // An outside fault is answered only where one of the counts rose.
    ensures outside { result ≡ 7 → Rose (L.read_faults link.old) (L.read_faults link.new)
        ⊎ Rose (L.write_faults link.old) (L.write_faults link.new) ⊎ Rose (N.faults notes.old) (N.faults notes.new) }
    // Where the link's count of reads or of writes rose, the status is 7 or 8.
    ensures still { (result ≡ 7) ⊎ (result ≡ 8) ⊎ ((L.read_faults link.new ≡ L.read_faults link.old) × (L.write_faults link.new ≡ L.write_faults link.old)) }
    // Over an input that is good in whole, with no fault counted: done or open with all written, or want of memory.
    ensures complete { (P : Meaning) → HasBegun M.stands P machine version first.now
        → IsStill (L.read_faults link.old) (L.read_faults link.new) → IsStill (L.write_faults link.old) (L.write_faults link.new)
        → IsStill (N.faults notes.old) (N.faults notes.new)
        → IsComplete P (L.left link.old) (L.log link.old) (L.log link.new) result }
{
    let mut machine = machine;
    let end = run_machine(alloc, &mut machine, version, first, link);
    let said = note(notes, end);
    answer(end, said)
}
