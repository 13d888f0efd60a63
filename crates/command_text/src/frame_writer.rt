//! Writes lines as frames.

ghost use Rattle.std.specs.Prelude.{◌≡◌, ◌++◌, ◌+◌, ◌<◌, ◌≤◌, ◌^◌, [], ◌∷◌, List, ℕ, Option, true, false, length, IsOk, OnOk, IfErr, MatchResult};
ghost use Rattle.port.specs.declared.link.Move.{Move};
ghost use Rattle.event_frame.specs.Frames.{frame, longest};
ghost use Rattle.command_text.specs.Conversion.{frames_of_lines, Ended};
ghost use Rattle.delta_end.specs.End.{ReadCause, WriteCause};
ghost use Rattle.command_text.specs.Loop.{Feeds, given_to};
ghost use Rattle.delta_loop.specs.History.{Writes};
ghost use Rattle.command_text.specs.Sending.{IsOfSending};

use crate::fault::input_fault;
use crate::line_reader::{LineReader, ReadStop};
use delta_end::End;
use delta_loop::send;
use event_frame::{Version, encode_in};
use event_word::Event;
use port::{IoFault, Link};
use std::alloc::Global;

// Writes the frame of an event as one piece. At an error a part of it was written.
fn send_event<L: Link>(
    alloc: Global,
    link: &mut L,
    version: Version,
    event: Event,
) -> Result<(), End>
    requires { length event.path ≤ longest version }
    ensures sent { (sent rest : List ℕ) × (frame version event ≡ sent ++ rest) × (IsOk result → rest ≡ []) × Writes (L.log link.old) (L.log link.new) sent }
    ensures ran { IfErr result IsOfSending }
    ensures left { L.left link.new ≡ L.left link.old }
    ensures read { L.read_faults link.new ≡ L.read_faults link.old }
    ensures write { MatchResult result (λ _. L.write_faults link.new ≡ L.write_faults link.old) (λ end. WriteCause end (L.write_faults link.old) (L.write_faults link.new)) }
{
    let mut bytes = Vec::new(alloc);
    match encode_in(version, &event, &mut bytes) {
        Ok(()) => match send(link, &bytes) {
            Ok(()) => Ok(()),
            Err(IoFault::Memory) => Err(End::Memory),
            Err(IoFault::Failed) => Err(End::WriteFailed),
        },
        Err(_) => Err(End::Memory),
    }
}

// Reads one byte more, and writes the frame of the line that it ends.
fn feed_byte<L: Link>(
    alloc: Global,
    version: Version,
    reader: &mut LineReader,
    link: &mut L,
    byte: u8,
) -> Result<(), End>
    requires { given_to reader.old < 2 ^ 63 }
    ensures ok { OnOk result ((start : Option (List Move)) (input front : List ℕ)
        → Feeds version start (L.log link.old) reader.old input front false → Feeds version start (L.log link.new) reader.new input (front ++ byte ∷ []) false) }
    ensures err { IfErr result (λ end. (start : Option (List Move)) (front more : List ℕ)
        → Feeds version start (L.log link.old) reader.old (front ++ byte ∷ more) front false
        → Ended (frames_of_lines version) start (L.log link.new) (front ++ byte ∷ more) false end) }
    ensures given { OnOk result (given_to reader.new ≡ given_to reader.old + 1) }
    ensures left { L.left link.new ≡ L.left link.old }
    ensures read { MatchResult result (λ _. L.read_faults link.new ≡ L.read_faults link.old) (λ end. ReadCause end (L.read_faults link.old) (L.read_faults link.new)) }
    ensures write { MatchResult result (λ _. L.write_faults link.new ≡ L.write_faults link.old) (λ end. WriteCause end (L.write_faults link.old) (L.write_faults link.new)) }
{
    let place = reader.place();
    match reader.push(version, byte) {
        Ok(None) => Ok(()),
        Ok(Some(event)) => send_event(alloc, link, version, event),
        Err(ReadStop::Memory) => Err(End::Memory),
        Err(ReadStop::Refused(refusal)) => Err(End::Input(input_fault(refusal, place))),
    }
}

/// Reads a piece, and writes the frame of each line that ends in it.
pub fn feed<L: Link>(
    alloc: Global,
    version: Version,
    reader: &mut LineReader,
    link: &mut L,
    piece: &[u8],
) -> Result<(), End>
    requires { given_to reader.old + length piece.now < 2 ^ 63 }
    ensures ok { OnOk result ((start : Option (List Move)) (input : List ℕ)
        → Feeds version start (L.log link.old) reader.old (input ++ piece.now) input false
        → Feeds version start (L.log link.new) reader.new (input ++ piece.now) (input ++ piece.now) false) }
    ensures err { IfErr result (λ end. (start : Option (List Move)) (input : List ℕ)
        → Feeds version start (L.log link.old) reader.old (input ++ piece.now) input false
        → Ended (frames_of_lines version) start (L.log link.new) (input ++ piece.now) false end) }
    ensures given { OnOk result (given_to reader.new ≡ given_to reader.old + length piece.now) }
    ensures left { L.left link.new ≡ L.left link.old }
    ensures read { MatchResult result (λ _. L.read_faults link.new ≡ L.read_faults link.old) (λ end. ReadCause end (L.read_faults link.old) (L.read_faults link.new)) }
    ensures write { MatchResult result (λ _. L.write_faults link.new ≡ L.write_faults link.old) (λ end. WriteCause end (L.write_faults link.old) (L.write_faults link.new)) }
{
    for byte in piece {
        match feed_byte(alloc, version, reader, link, *byte) {
            Ok(()) => {}
            Err(end) => return Err(end),
        }
    }
    Ok(())
}

/// Writes the frame of the last line, once the input ended, and answers how the run ends.
pub fn finish<L: Link>(alloc: Global, version: Version, reader: &LineReader, link: &mut L) -> End
    ensures ended { (start : Option (List Move)) (input : List ℕ)
        → Feeds version start (L.log link.old) reader.now input input true → Ended (frames_of_lines version) start (L.log link.new) input true result }
    ensures left { L.left link.new ≡ L.left link.old }
    ensures read { ReadCause result (L.read_faults link.old) (L.read_faults link.new) }
    ensures write { WriteCause result (L.write_faults link.old) (L.write_faults link.new) }
{
    match reader.finish(version) {
        Ok(None) => End::Done,
        Ok(Some(event)) => match send_event(alloc, link, version, event) {
            Ok(()) => End::Done,
            Err(end) => end,
        },
        Err(refusal) => End::Input(input_fault(refusal, reader.place())),
    }
}
