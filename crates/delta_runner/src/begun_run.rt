//! Runs a checked program over a link by whatever can be begun for it.

ghost use Rattle.std.specs.Prelude.{◌≤◌, IsTrue};
ghost use Rattle.stream_type.specs.StreamType.{reach_of};
ghost use Rattle.core_term.specs.CoreTerm.{core_of, fits_of};
ghost use Rattle.event_frame.specs.Frames.{longest};
ghost use Rattle.delta_end.specs.End.{ReadCause, WriteCause};
ghost use Rattle.delta_loop.specs.Loop.{Ran};
ghost use Rattle.delta_output.specs.LoopMeaning.{meaning_of};
ghost use Rattle.delta_session.specs.Programs.{one_shot};

use crate::begins::Begins;
use crate::runner::BeginFault;
use core_term::Checked;
use delta_end::End;
use delta_loop::{run_machine, stop_first};
use event_frame::Version;
use port::Link;
use std::alloc::Global;

/// Runs a checked program over a link, event by event, with so many calls at its start and at each event,
/// up to its end, and writes frames of the version. What runs it is a B.
pub fn run_begun<B: Begins, L: Link>(
    alloc: Global,
    c: &Checked,
    budget: u64,
    version: Version,
    link: &mut L,
) -> End
    requires fits { IsTrue (fits_of (core_of c.now)) }
    requires budget { budget ≤ 1000000 }
    requires short { reach_of (core_of c.now).main.result ≤ longest version }
    ensures ran { Ran (meaning_of version budget (one_shot (core_of c.now))) (L.log link.old) (L.log link.new) (L.left link.old) (L.left link.new) result }
    ensures read { ReadCause result (L.read_faults link.old) (L.read_faults link.new) }
    ensures write { WriteCause result (L.write_faults link.old) (L.write_faults link.new) }
{
    match B::begin(alloc, c, budget, version) {
        Ok((runner, first)) => {
            let mut runner = runner;
            run_machine(alloc, &mut runner, Some(version), &first, link)
        }
        Err(BeginFault::Memory) => End::Memory,
        Err(BeginFault::Stopped(why)) => stop_first(version, why, link),
    }
}
