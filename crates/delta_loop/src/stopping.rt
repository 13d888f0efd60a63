//! A program that is stopped before any event.

ghost use Rattle.std.specs.Prelude.{◌≡◌, Some};
ghost use Rattle.delta_end.specs.End.{IsOfLoop, ReadCause, WriteCause};
ghost use Rattle.delta_loop.specs.Loop.{IsWellEnded, Ran};
ghost use Rattle.delta_loop.specs.Meaning.{Meaning};
ghost use Rattle.delta_loop.specs.Stopping.{StopsFor};

use crate::open::open;
use delta_end::End;
use event_frame::Version;
use port::{IoFault, Link};

/// Why a program is stopped before any event.
#[derive(Clone, Copy, Debug, PartialEq, Eq)]
pub enum Stop {
    /// It makes more calls than it may make.
    Budget,
    /// It makes a call at a level above 1,000.
    Deep,
}

/// Ends a run of a program that is stopped before any event: a header of the version is written, and
/// nothing is read. It is no good end.
pub fn stop_first<L: Link>(version: Version, stop: Stop, link: &mut L) -> End
    ensures ran { (P : Meaning) → P.version ≡ Some version → StopsFor P stop → Ran P (L.log link.old) (L.log link.new) (L.left link.old) (L.left link.new) result }
    ensures ill { IsWellEnded result → ⊥ }
    ensures end { IsOfLoop result }
    ensures read { ReadCause result (L.read_faults link.old) (L.read_faults link.new) }
    ensures write { WriteCause result (L.write_faults link.old) (L.write_faults link.new) }
{
    match open(link, Some(version), b"") {
        Ok(()) => match stop {
            Stop::Budget => End::Budget(0),
            Stop::Deep => End::Deep(0),
        },
        Err(IoFault::Memory) => End::Memory,
        Err(IoFault::Failed) => End::WriteFailed,
    }
}
