//! Writes the line that tells how a run ended, in pieces and without taking memory.

ghost use Rattle.std.specs.Prelude.{◌≡◌, ◌++◌, [], ◌∷◌, IsOk, codes, decimal};
ghost use Rattle.port.specs.Faults.{HasCause};
ghost use Rattle.program_refusal.specs.RefusalName.{refusal_name as name_of_refusal};
ghost use Rattle.delta_end.specs.Note.{note_of, name_of, refusal_note, table_note, objection_note, place_of, Says};

use crate::end::{End, InputFault};
use crate::name::{bound_name, derivation_name, input_name, state_name, table_name};
use crate::objection::Objection;
use event_frame::FrameFault;
use port::{IoFault, Sink};
use program_refusal::{Refusal, refusal_name};

// Writes all of a text, or a part of it at an error.
fn say<N: Sink>(sink: &mut N, text: &[u8]) -> Result<(), IoFault>
    ensures said { Says (N.told sink.old) (N.told sink.new) text.now (IsOk result) }
    ensures cause { HasCause result (N.faults sink.old) (N.faults sink.new) }
{
    let mut rest = text;
    while !rest.is_empty() {
        match sink.write(rest) {
            Ok(count) => rest = &rest[count..],
            Err(fault) => return Err(fault),
        }
    }
    Ok(())
}

// Writes a number in decimal, each digit as a piece.
fn say_number<N: Sink>(sink: &mut N, number: u64) -> Result<(), IoFault>
    ensures said { Says (N.told sink.old) (N.told sink.new) (decimal number) (IsOk result) }
    ensures cause { HasCause result (N.faults sink.old) (N.faults sink.new) }
{
    let digit = [b'0' + (number % 10) as u8];
    if number < 10 {
        return say(sink, &digit);
    }
    match say_number(sink, number / 10) {
        Ok(()) => say(sink, &digit),
        Err(fault) => Err(fault),
    }
}

// Writes two texts, one after the other.
fn say_both<N: Sink>(sink: &mut N, first: &[u8], second: &[u8]) -> Result<(), IoFault>
    ensures said { Says (N.told sink.old) (N.told sink.new) (first.now ++ second.now) (IsOk result) }
    ensures cause { HasCause result (N.faults sink.old) (N.faults sink.new) }
{
    match say(sink, first) {
        Ok(()) => say(sink, second),
        Err(fault) => Err(fault),
    }
}

// Writes a number and a line feed.
fn say_line_end<N: Sink>(sink: &mut N, number: u64) -> Result<(), IoFault>
    ensures said { Says (N.told sink.old) (N.told sink.new) (decimal number ++ 10 ∷ []) (IsOk result) }
    ensures cause { HasCause result (N.faults sink.old) (N.faults sink.new) }
{
    match say_number(sink, number) {
        Ok(()) => say(sink, b"\n"),
        Err(fault) => Err(fault),
    }
}

// Writes a place, and ends the line.
fn say_place<N: Sink>(sink: &mut N, place: u64) -> Result<(), IoFault>
    ensures said { Says (N.told sink.old) (N.told sink.new) (codes " at " ++ decimal place ++ 10 ∷ []) (IsOk result) }
    ensures cause { HasCause result (N.faults sink.old) (N.faults sink.new) }
{
    match say(sink, b" at ") {
        Ok(()) => say_line_end(sink, place),
        Err(fault) => Err(fault),
    }
}

// Writes what is refused, by which name and at which place.
fn say_refusal<N: Sink>(sink: &mut N, what: &[u8], name: &[u8], place: u64) -> Result<(), IoFault>
    ensures said { Says (N.told sink.old) (N.told sink.new) (refusal_note what.now name.now place) (IsOk result) }
    ensures cause { HasCause result (N.faults sink.old) (N.faults sink.new) }
{
    match say_both(sink, what, name) {
        Ok(()) => say_place(sink, place),
        Err(fault) => Err(fault),
    }
}

impl InputFault {
    /// The place of the fault in bytes.
    pub fn place(self) -> u64
        ensures { result ≡ place_of self }
    {
        match self {
            InputFault::Frame(FrameFault::BadMagic(at)) => at,
            InputFault::Frame(FrameFault::LongPath(at, _)) => at,
            InputFault::Frame(FrameFault::BadStep(at, _)) => at,
            InputFault::Frame(FrameFault::BadLeaf(at, _)) => at,
            InputFault::Frame(FrameFault::Truncated(at)) => at,
            InputFault::Event(_, at) => at,
            InputFault::Line(_, at) => at,
            InputFault::LongLine(at) => at,
        }
    }
}

// Writes why a program is refused.
fn say_why<N: Sink>(sink: &mut N, why: Refusal) -> Result<(), IoFault>
    ensures said { Says (N.told sink.old) (N.told sink.new) (refusal_note (codes "delta: program refused: ") (name_of_refusal why.name) why.at) (IsOk result) }
    ensures cause { HasCause result (N.faults sink.old) (N.faults sink.new) }
{
    let name = refusal_name(why.name);
    say_refusal(sink, b"delta: program refused: ", name, u64::from(why.at))
}

// Writes what is wrong with the input.
fn say_fault<N: Sink>(sink: &mut N, fault: InputFault) -> Result<(), IoFault>
    ensures said { Says (N.told sink.old) (N.told sink.new) (refusal_note (codes "delta: input refused: ") (name_of fault) (place_of fault)) (IsOk result) }
    ensures cause { HasCause result (N.faults sink.old) (N.faults sink.new) }
{
    let name = input_name(fault);
    say_refusal(sink, b"delta: input refused: ", name, fault.place())
}

// Writes the number of a file.
fn say_file<N: Sink>(sink: &mut N, file: u64) -> Result<(), IoFault>
    ensures said { Says (N.told sink.old) (N.told sink.new) (codes " in " ++ decimal file) (IsOk result) }
    ensures cause { HasCause result (N.faults sink.old) (N.faults sink.new) }
{
    match say(sink, b" in ") {
        Ok(()) => say_number(sink, file),
        Err(fault) => Err(fault),
    }
}

// Writes the number of a file and that of a row of it, and ends the line.
fn say_row<N: Sink>(sink: &mut N, file: u64, row: u64) -> Result<(), IoFault>
    ensures said { Says (N.told sink.old) (N.told sink.new) ((codes " in " ++ decimal file) ++ (codes " at " ++ decimal row ++ 10 ∷ [])) (IsOk result) }
    ensures cause { HasCause result (N.faults sink.old) (N.faults sink.new) }
{
    match say_file(sink, file) {
        Ok(()) => say_place(sink, row),
        Err(fault) => Err(fault),
    }
}

// Writes why tables are refused, and where.
fn say_table<N: Sink>(sink: &mut N, name: &[u8], file: u64, row: u64) -> Result<(), IoFault>
    ensures said { Says (N.told sink.old) (N.told sink.new) (table_note name.now file row) (IsOk result) }
    ensures cause { HasCause result (N.faults sink.old) (N.faults sink.new) }
{
    match say_both(sink, b"delta: table refused: ", name) {
        Ok(()) => say_row(sink, file, row),
        Err(fault) => Err(fault),
    }
}

// Writes what is said against a program.
fn say_objection<N: Sink>(sink: &mut N, what: Objection) -> Result<(), IoFault>
    ensures said { Says (N.told sink.old) (N.told sink.new) (objection_note what) (IsOk result) }
    ensures cause { HasCause result (N.faults sink.old) (N.faults sink.new) }
{
    match what {
        Objection::Derivation(name, at) => {
            let name = derivation_name(name);
            say_refusal(sink, b"delta: derivation refused: ", name, u64::from(at))
        }
        Objection::Bound(name, at) => {
            let name = bound_name(name);
            say_refusal(sink, b"delta: no bound: ", name, u64::from(at))
        }
        Objection::Table(name, file, row) => {
            let name = table_name(name);
            say_table(sink, name, u64::from(file), u64::from(row))
        }
        Objection::State(name, at) => {
            let name = state_name(name);
            say_refusal(sink, b"delta: state refused: ", name, u64::from(at))
        }
    }
}

/// Writes the line that tells how a command ended, or a part of it at an error. A command that did all that it was to do has none.
pub fn note<N: Sink>(sink: &mut N, end: End) -> Result<(), IoFault>
    ensures said { Says (N.told sink.old) (N.told sink.new) (note_of end) (IsOk result) }
    ensures cause { HasCause result (N.faults sink.old) (N.faults sink.new) }
{
    match end {
        End::Done => Ok(()),
        End::Usage => say(sink, b"delta: usage\n"),
        End::Refused(None) => say(sink, b"delta: program refused\n"),
        End::Refused(Some(why)) => say_why(sink, why),
        End::Input(fault) => say_fault(sink, fault),
        End::Budget(at) => say_refusal(sink, b"delta: stopped: ", b"Budget", at),
        End::Deep(at) => say_refusal(sink, b"delta: stopped: ", b"Deep", at),
        End::Open => say(sink, b"delta: input open\n"),
        End::FileFailed => say(sink, b"delta: outside fault: file\n"),
        End::ReadFailed => say(sink, b"delta: outside fault: input\n"),
        End::WriteFailed => say(sink, b"delta: outside fault: output\n"),
        End::Memory => say(sink, b"delta: no memory\n"),
        End::Long => say(sink, b"delta: input too long\n"),
        End::Objected(what) => say_objection(sink, what),
    }
}
