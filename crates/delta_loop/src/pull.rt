//! Reads a piece of the input.

ghost use Rattle.std.specs.Prelude.{◌≡◌, ◌<◌, ◌≤◌, ◌+◌, ◌^◌, length, take, IfOk, IfErr, OnOk, OnErr, MatchResult};
ghost use Rattle.delta_end.specs.End.{ReadCause};
ghost use Rattle.delta_loop.specs.Loop.{Pulls, PullEnds, given_to, room_of};

use delta_end::End;
use event_frame::Reader;
use port::{IoFault, Link};

/// Reads a piece that the reader has room for, and hands it to the reader. 0 is the end of the input.
/// Memory can run out in the link alone, and after an error nothing was read, and the reader is as it was.
pub fn pull<L: Link>(reader: &mut Reader, link: &mut L, into: &mut [u8]) -> Result<usize, End>
    requires room { 0 < length into.old }
    requires fits { length into.old ≤ reader.old.spare }
    requires bound { given_to reader.old + length into.old ≤ 2 ^ 41 }
    ensures bound { IfOk result (λ n. n ≤ length into.old) }
    ensures given { IfOk result (λ n. given_to reader.new ≡ given_to reader.old + n) }
    ensures room { OnOk result (room_of reader.old ≤ room_of reader.new) }
    ensures pulled { IfOk result (λ n. Pulls (L.log link.old) (L.log link.new) (L.left link.old) (L.left link.new) reader.old reader.new (take n into.new)) }
    ensures kept { OnErr result (reader.new ≡ reader.old) }
    ensures ended { IfErr result (λ end. PullEnds (L.log link.old) (L.log link.new) (L.left link.old) (L.left link.new) end) }
    ensures read { MatchResult result (λ _. L.read_faults link.new ≡ L.read_faults link.old) (λ end. ReadCause end (L.read_faults link.old) (L.read_faults link.new)) }
    ensures write { L.write_faults link.new ≡ L.write_faults link.old }
{
    match link.read(into) {
        Ok(count) => {
            // The room is there, so this can't be refused.
            reader.push(&into[..count]).unwrap();
            Ok(count)
        }
        Err(IoFault::Memory) => Err(End::Memory),
        Err(IoFault::Failed) => Err(End::ReadFailed),
    }
}
