//! The loop: reads lines to the end of the input, and writes each event's frame before the next read.

ghost use Rattle.std.specs.Prelude.{◌≡◌, ◌^◌, [], List, ℕ, Option, false};
ghost use Rattle.port.specs.declared.link.Move.{Move};
ghost use Rattle.command_text.specs.Conversion.{frames_of_lines, Ran};
ghost use Rattle.delta_end.specs.End.{ReadCause, WriteCause};
ghost use Rattle.command_text.specs.Loop.{Feeds, Goes, given_to};

use crate::frame_writer::{feed, finish};
use crate::line_reader::LineReader;
use crate::pull::pull;
use delta_end::End;
use event_frame::Version;
use port::{IoFault, Link};
use std::alloc::Global;

/// The greatest number of bytes that a run reads.
const LIMIT: u64 = 1 << 40;

/// The greatest number of bytes of one read.
const PIECE: usize = 4096;

/// Ends a run that has read as many bytes as it may: one more is too long.
fn probe<L: Link>(alloc: Global, version: Version, reader: &LineReader, link: &mut L) -> End
    ensures ran { (start : Option (List Move)) (left : Option (List ℕ))
        → Goes version start (L.log link.old) left (L.left link.old) reader.now (2 ^ 40) → Ran (frames_of_lines version) start (L.log link.new) left (L.left link.new) result }
    ensures read { ReadCause result (L.read_faults link.old) (L.read_faults link.new) }
    ensures write { WriteCause result (L.write_faults link.old) (L.write_faults link.new) }
{
    let mut one = [0u8; 1];
    match pull(link, &mut one) {
        Ok(0) => finish(alloc, version, reader, link),
        Ok(_) => End::Long,
        Err(end) => end,
    }
}

/// Reads the link to its end, and writes the frame of each line before the next read.
pub fn serve<L: Link>(alloc: Global, version: Version, reader: &mut LineReader, link: &mut L) -> End
    requires { given_to reader.old ≡ 0 }
    ensures ran { (start : Option (List Move)) → Feeds version start (L.log link.old) reader.old [] [] false
        → Ran (frames_of_lines version) start (L.log link.new) (L.left link.old) (L.left link.new) result }
    ensures read { ReadCause result (L.read_faults link.old) (L.read_faults link.new) }
    ensures write { WriteCause result (L.write_faults link.old) (L.write_faults link.new) }
{
    let mut buffer = [0u8; PIECE];
    let mut total = 0u64;
    'pieces: while total < LIMIT {
        let room = PIECE.min((LIMIT - total) as usize);
        let count = match pull(link, &mut buffer[..room]) {
            Ok(0) => return finish(alloc, version, reader, link),
            Ok(count) => count,
            Err(end) => return end,
        };
        match feed(alloc, version, reader, link, &buffer[..count]) {
            Ok(()) => total += count as u64,
            Err(end) => return end,
        }
    }
    probe(alloc, version, reader, link)
}
