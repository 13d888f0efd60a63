//! Takes the whole frames that came, and writes the answer to each.

ghost use Rattle.std.specs.Prelude.{◌≡◌, ◌++◌, ◌≤◌, ◌^◌, [], ◌∷◌, List, ℕ, Option, false, length, OnOk, IfErr, MatchResult};
ghost use Rattle.port.specs.declared.link.Move.{Move};
ghost use Rattle.event_word.specs.StreamEvent.{StreamEvent};
ghost use Rattle.event_frame.specs.Reading.{whole};
ghost use Rattle.delta_end.specs.End.{IsOfLoop, ReadCause, WriteCause};
ghost use Rattle.delta_loop.specs.Finding.{place_in};
ghost use Rattle.delta_loop.specs.Loop.{Serves, Feeds, Settles, Ended, IsLive, given_to, room_of};
ghost use Rattle.delta_loop.specs.Meaning.{Meaning, Stands};

use crate::sending::send;
use crate::stepper::{StepFault, Stepper};
use delta_end::{End, InputFault};
use event_frame::Reader;
use event_word::Event;
use port::{IoFault, Link};
use std::alloc::Global;

/// The number of bytes of a header.
const HEADER_LENGTH: u64 = 4;

/// Steps the program by one event, whose frame stands at `place`, and writes the answer as one piece.
pub fn feed_one<M: Stepper, L: Link>(
    alloc: Global,
    machine: &mut M,
    link: &mut L,
    place: u64,
    event: Event,
) -> Result<(), End>
    requires { Stands M.stands machine.old }
    ensures stepped { OnOk result ((P : Meaning) (word : List StreamEvent) → M.stands machine.old P word → M.stands machine.new P (word ++ event ∷ [])) }
    ensures ok { OnOk result ((P : Meaning) (start : Option (List Move)) (input : List ℕ) (word : List StreamEvent)
        → Serves M.stands P start (L.log link.old) machine.old input word → Serves M.stands P start (L.log link.new) machine.new input (word ++ event ∷ [])) }
    ensures err { IfErr result (λ end. (P : Meaning) (start : Option (List Move)) (input : List ℕ) (word more : List StreamEvent)
        → Serves M.stands P start (L.log link.old) machine.old input word → whole input ≡ word ++ event ∷ more → place ≡ place_in input word
        → Ended P start (L.log link.new) input false end) }
    ensures program { M.same_program machine.old machine.new }
    ensures ran { IfErr result (λ end. IsOfLoop end) }
    ensures left { L.left link.new ≡ L.left link.old }
    ensures read { MatchResult result (λ _. L.read_faults link.new ≡ L.read_faults link.old) (λ end. ReadCause end (L.read_faults link.old) (L.read_faults link.new)) }
    ensures write { MatchResult result (λ _. L.write_faults link.new ≡ L.write_faults link.old) (λ end. WriteCause end (L.write_faults link.old) (L.write_faults link.new)) }
{
    match machine.step(alloc, event) {
        Ok(bytes) => match send(link, &bytes) {
            Ok(()) => Ok(()),
            Err(IoFault::Memory) => Err(End::Memory),
            Err(IoFault::Failed) => Err(End::WriteFailed),
        },
        Err(StepFault::Memory) => Err(End::Memory),
        Err(StepFault::Refused(fault)) => Err(End::Input(InputFault::Event(fault, place))),
        Err(StepFault::Budget) => Err(End::Budget(place)),
        Err(StepFault::Deep) => Err(End::Deep(place)),
    }
}

/// Steps the program by each whole frame that the reader holds. The frame of the first event stands
/// behind the header, which is taken with it.
pub fn feed_whole<M: Stepper, L: Link>(
    alloc: Global,
    machine: &mut M,
    reader: &mut Reader,
    link: &mut L,
) -> Result<(), End>
    requires live { IsLive M.stands machine.old reader.old }
    requires bound { given_to reader.old ≤ 2 ^ 41 }
    ensures live { OnOk result (IsLive M.stands machine.new reader.new) }
    ensures ok { OnOk result ((P : Meaning) (start : Option (List Move)) (input : List ℕ)
        → Feeds M.stands P start (L.log link.old) machine.old reader.old input → Settles M.stands P start (L.log link.new) machine.new reader.new input) }
    ensures err { IfErr result (λ end. (P : Meaning) (start : Option (List Move)) (input : List ℕ)
        → Feeds M.stands P start (L.log link.old) machine.old reader.old input → Ended P start (L.log link.new) input false end) }
    ensures program { M.same_program machine.old machine.new }
    ensures given { given_to reader.new ≡ given_to reader.old }
    ensures room { room_of reader.new ≡ room_of reader.old }
    ensures little { OnOk result (length reader.new.kept ≤ 40) }
    ensures ran { IfErr result (λ end. IsOfLoop end) }
    ensures left { L.left link.new ≡ L.left link.old }
    ensures read { MatchResult result (λ _. L.read_faults link.new ≡ L.read_faults link.old) (λ end. ReadCause end (L.read_faults link.old) (L.read_faults link.new)) }
    ensures write { MatchResult result (λ _. L.write_faults link.new ≡ L.write_faults link.old) (λ end. WriteCause end (L.write_faults link.old) (L.write_faults link.new)) }
{
    'frames: loop {
        let place = reader.taken().max(HEADER_LENGTH);
        match reader.next() {
            Err(fault) => return Err(End::Input(InputFault::Frame(fault))),
            Ok(None) => return Ok(()),
            Ok(Some(event)) => match feed_one(alloc, machine, link, place, event) {
                Ok(()) => {}
                Err(end) => return Err(end),
            },
        }
    }
}
