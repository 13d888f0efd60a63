//! Reads a piece of the input.

ghost use Rattle.std.specs.Prelude.{◌≡◌, ◌<◌, ◌≤◌, length, take, IfOk, IfErr, MatchResult};
ghost use Rattle.delta_end.specs.End.{ReadCause};
ghost use Rattle.command_text.specs.Loop.{Pulls};
ghost use Rattle.delta_loop.specs.Loop.{PullEnds};

use delta_end::End;
use port::{IoFault, Link};

/// Reads a piece. 0 is the end of the input.
pub fn pull<L: Link>(link: &mut L, into: &mut [u8]) -> Result<usize, End>
    requires { 0 < length into.old }
    ensures bound { IfOk result (λ n. n ≤ length into.old) }
    ensures pulled { IfOk result (λ n. Pulls (L.log link.old) (L.log link.new) (L.left link.old) (L.left link.new) (take n into.new)) }
    ensures ended { IfErr result (λ end. PullEnds (L.log link.old) (L.log link.new) (L.left link.old) (L.left link.new) end) }
    ensures read { MatchResult result (λ _. L.read_faults link.new ≡ L.read_faults link.old) (λ end. ReadCause end (L.read_faults link.old) (L.read_faults link.new)) }
    ensures write { L.write_faults link.new ≡ L.write_faults link.old }
{
    match link.read(into) {
        Ok(count) => Ok(count),
        Err(IoFault::Memory) => Err(End::Memory),
        Err(IoFault::Failed) => Err(End::ReadFailed),
    }
}
