//! Writes the lines of an input as a header and frames.

ghost use Rattle.std.specs.Prelude.{◌≡◌, ◌++◌, [], List, ℕ, IsOk};
ghost use Rattle.port.specs.Faults.{HasCause};
ghost use Rattle.event_frame.specs.Frames.{header};
ghost use Rattle.command_text.specs.Conversion.{frames_of_lines, Ran};
ghost use Rattle.delta_end.specs.End.{ReadCause, WriteCause};
ghost use Rattle.delta_loop.specs.History.{Writes};

use crate::line_reader::LineReader;
use crate::serve::serve;
use delta_end::End;
use delta_loop::send;
use event_frame::Version;
use port::{IoFault, Link};
use std::alloc::Global;

// Writes the header of a version.
fn open<L: Link>(link: &mut L, version: Version) -> Result<(), IoFault>
    ensures sent { (sent rest : List ℕ) × (header version ≡ sent ++ rest) × (IsOk result → rest ≡ []) × Writes (L.log link.old) (L.log link.new) sent }
    ensures left { L.left link.new ≡ L.left link.old }
    ensures cause { HasCause result (L.write_faults link.old) (L.write_faults link.new) }
    ensures other { L.read_faults link.new ≡ L.read_faults link.old }
{
    send(link, version.header())
}

/// Reads lines of events from the link to the end of its input, and writes a header and their frames of a
/// version, each event's frame as one piece before the next read. The first refused line ends the run, at
/// its place in bytes. `frames_of_lines` of `specs/Conversion.antt` says what is due and what is wrong with
/// an input, and `MayEnd` there what stands behind each end.
pub fn write_frames<L: Link>(alloc: Global, version: Version, link: &mut L) -> End
    ensures ran { Ran (frames_of_lines version) (L.log link.old) (L.log link.new) (L.left link.old) (L.left link.new) result }
    ensures read { ReadCause result (L.read_faults link.old) (L.read_faults link.new) }
    ensures write { WriteCause result (L.write_faults link.old) (L.write_faults link.new) }
{
    match open(link, version) {
        Ok(()) => {
            let mut reader = LineReader::new(alloc);
            serve(alloc, version, &mut reader, link)
        }
        Err(IoFault::Memory) => End::Memory,
        Err(IoFault::Failed) => End::WriteFailed,
    }
}
