//! The loop: reads the input to its end, and answers each event as soon as its frame is whole.

ghost use Rattle.std.specs.Prelude.{◌≡◌, ◌≢◌, ◌^◌, [], List, ℕ, true, Option};
ghost use Rattle.port.specs.declared.link.Move.{Move};
ghost use Rattle.event_word.specs.StreamEvent.{StreamEvent};
ghost use Rattle.event_frame.specs.declared.fault.FrameFault.{FrameFault};
ghost use Rattle.event_frame.specs.Reading.{whole, ending, Bad};
ghost use Rattle.event_frame.specs.Reads.{Reads};
ghost use Rattle.delta_end.specs.End.{IsOfLoop, ReadCause, WriteCause};
ghost use Rattle.delta_loop.specs.Loop.{Serves, Goes, RanTo, IsFresh};
ghost use Rattle.delta_loop.specs.Meaning.{Meaning, Begun};
ghost use Rattle.delta_loop.specs.Output.{accepted, output};
ghost use Rattle.delta_loop.specs.Return.{MayEnd};

use crate::feed::feed_whole;
use crate::pull::pull;
use crate::stepper::Stepper;
use delta_end::{End, InputFault};
use event_frame::Reader;
use port::{IoFault, Link};
use std::alloc::Global;

/// The greatest number of bytes that a run reads.
const LIMIT: u64 = 1 << 40;

/// The greatest number of bytes of one read.
const PIECE: usize = 4096;

/// How a run ends whose input ended.
fn finish<M: Stepper>(machine: &M, reader: &Reader) -> End
    ensures end { (P : Meaning) (input : List ℕ) (word : List StreamEvent) → accepted P word ≡ word → M.stands machine.now P word → Reads reader.now input word
        → whole input ≡ word → ((fault : FrameFault) → ending input ≢ Bad fault) → MayEnd P input true (output P word) result }
    ensures ran { IsOfLoop result }
    ensures read { (n : ℕ) → ReadCause result n n }
    ensures write { (n : ℕ) → WriteCause result n n }
{
    match reader.finish() {
        Err(fault) => End::Input(InputFault::Frame(fault)),
        Ok(()) => {
            if machine.is_finished() {
                End::Done
            } else {
                End::Open
            }
        }
    }
}

/// Ends a run that has read as many bytes as it may: one more is too long.
fn probe<M: Stepper, L: Link>(machine: &M, reader: &Reader, link: &mut L) -> End
    ensures ran { (P : Meaning) (start : Option (List Move)) (left : Option (List ℕ))
        → Goes M.stands P start (L.log link.old) left (L.left link.old) machine.now reader.now (2 ^ 40) → RanTo M.stands P start (L.log link.new) left (L.left link.new) machine.now result }
    ensures end { IsOfLoop result }
    ensures read { ReadCause result (L.read_faults link.old) (L.read_faults link.new) }
    ensures write { WriteCause result (L.write_faults link.old) (L.write_faults link.new) }
{
    let mut one = [0u8; 1];
    match link.read(&mut one) {
        Ok(0) => finish(machine, reader),
        Ok(_) => End::Long,
        Err(IoFault::Memory) => End::Memory,
        Err(IoFault::Failed) => End::ReadFailed,
    }
}

/// Reads the link to its end, and answers each event before the next read.
pub fn serve<M: Stepper, L: Link>(
    alloc: Global,
    machine: &mut M,
    reader: &mut Reader,
    link: &mut L,
) -> End
    requires live { Begun M.stands machine.old }
    requires fresh { IsFresh reader.old }
    ensures ran { (P : Meaning) (start : Option (List Move)) → Serves M.stands P start (L.log link.old) machine.old [] []
        → RanTo M.stands P start (L.log link.new) (L.left link.old) (L.left link.new) machine.new result }
    ensures program { M.same_program machine.old machine.new }
    ensures end { IsOfLoop result }
    ensures read { ReadCause result (L.read_faults link.old) (L.read_faults link.new) }
    ensures write { WriteCause result (L.write_faults link.old) (L.write_faults link.new) }
{
    let mut buffer = [0u8; PIECE];
    let mut total = 0u64;
    'pieces: while total < LIMIT {
        let room = PIECE.min((LIMIT - total) as usize);
        match pull(reader, link, &mut buffer[..room]) {
            Ok(0) => return finish(machine, reader),
            Ok(count) => total += count as u64,
            Err(end) => return end,
        }
        match feed_whole(alloc, machine, reader, link) {
            Ok(()) => {}
            Err(end) => return end,
        }
    }
    probe(machine, reader, link)
}
