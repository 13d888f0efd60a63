//! A reader of lines, a byte at a time.

ghost use Rattle.std.specs.Prelude.{◌≡◌, ◌+◌, ◌<◌, ◌≤◌, ◌^◌, ◌∷◌, List, ℕ, length, IfOk, IfErr, IfSome, OnErr, Some, None};
ghost use Rattle.event_frame.specs.declared.version.Version.{Version};
ghost use Rattle.event_frame.specs.Frames.{longest};
ghost use Rattle.command_text.specs.Reading.{event_of, taken_from, first_line};
ghost use Rattle.command_text.specs.Reads.{goes_on, Ends, IsLast};

use crate::fault::LineRefusal;
use event_frame::Version;
use event_text::{LineFault, read_line};
use event_word::Event;
use std::alloc::Global;
use std::marker::Model;

/// The greatest number of bytes of a line, without its line feed.
const LONGEST: usize = 256;

/// Why a reader of lines doesn't go on.
#[derive(Clone, Copy, PartialEq, Eq, Debug)]
pub enum ReadStop {
    /// Memory is wanting.
    Memory,
    /// The line is refused.
    Refused(LineRefusal),
}

/// A reader of lines that keeps the bytes of one line, at most 256, and the place at which it begins.
#[derive(Drop)]
pub struct LineReader {
    line: Vec<u8>,
    place: u64,
}

impl Model for LineReader {
    ghost use Rattle.command_text.specs.LineState.{LineState};

    ghost Value = { LineState };

    ghost view = { λ r. record { place = r.place; line = r.line.items } };
}

// The event of a line, where the version has a frame for it.
fn line_event(version: Version, line: &[u8]) -> Result<Event, LineRefusal>
    ensures event { result ≡ event_of version line.now }
    ensures fits { IfOk result (λ x. length x.path ≤ longest version) }
{
    match read_line(line) {
        Ok(event) => {
            if event.path().len() <= usize::from(version.longest()) {
                Ok(event)
            } else {
                Err(LineRefusal::Line(LineFault::LongPath))
            }
        }
        Err(fault) => Err(LineRefusal::Line(fault)),
    }
}

impl LineReader {
    /// A reader at the beginning of an input.
    pub fn new(alloc: Global) -> LineReader
        ensures { result ≡ first_line }
    {
        LineReader {
            line: Vec::new(alloc),
            place: 0,
        }
    }

    /// Reads one byte more, and answers the event of the line that it ends. After `Memory` and `Refused` all is
    /// unchanged.
    pub fn push(&mut self, version: Version, byte: u8) -> Result<Option<Event>, ReadStop>
        requires { self.old.place + length self.old.line < 2 ^ 63 }
        ensures read { IfOk result (λ found. (more : List ℕ) → taken_from version self.old (byte ∷ more) ≡ goes_on version found self.new more) }
        ensures refused { IfErr result (λ stop. (more : List ℕ) → Ends stop self.old.place (taken_from version self.old (byte ∷ more))) }
        ensures kept { OnErr result (self.new ≡ self.old) }
        ensures fits { IfOk result (λ found. IfSome found (λ x. length x.path ≤ longest version)) }
        ensures count { IfOk result (λ _. self.new.place + length self.new.line ≡ self.old.place + length self.old.line + 1) }
    {
        if byte == b'\n' {
            let event = match line_event(version, &self.line) {
                Ok(event) => event,
                Err(refusal) => return Err(ReadStop::Refused(refusal)),
            };
            self.place += self.line.len() as u64 + 1;
            self.line.clear();
            return Ok(Some(event));
        }
        if self.line.len() == LONGEST {
            return Err(ReadStop::Refused(LineRefusal::LongLine));
        }
        match self.line.push(byte) {
            Ok(()) => Ok(None),
            Err(_) => Err(ReadStop::Memory),
        }
    }

    /// The event of the last line, where the input ended with a byte of it.
    pub fn finish(&self, version: Version) -> Result<Option<Event>, LineRefusal>
        ensures last { IsLast version self.now result }
        ensures fits { IfOk result (λ found. IfSome found (λ x. length x.path ≤ longest version)) }
    {
        if self.line.is_empty() {
            return Ok(None);
        }
        match line_event(version, &self.line) {
            Ok(event) => Ok(Some(event)),
            Err(refusal) => Err(refusal),
        }
    }

    /// The place of the line that is being read.
    pub fn place(&self) -> u64
        ensures { result ≡ self.now.place }
    {
        self.place
    }
}
