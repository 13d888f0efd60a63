//! Goes on from a kept state over a link.

ghost use Rattle.std.specs.Prelude.{◌≤◌, IsTrue};
ghost use Rattle.stream_type.specs.StreamType.{reach_of};
ghost use Rattle.core_term.specs.CoreTerm.{core_of, fits_of};
ghost use Rattle.event_frame.specs.Frames.{longest};
ghost use Rattle.kept_state.specs.KeptTyping.{IsTypedKept};
ghost use Rattle.delta_keep.specs.KeptView.{kept_of};
ghost use Rattle.delta_end.specs.End.{ReadCause, WriteCause};
ghost use Rattle.delta_loop.specs.Loop.{Ran};
ghost use Rattle.delta_runner.specs.KeptOneShot.{meaning_since};

use crate::resuming::begin_kept;
use core_term::Checked;
use delta_end::End;
use delta_keep::Kept;
use delta_loop::run_machine;
use event_frame::Version;
use machine_kept::Keeping;
use port::Link;
use std::alloc::Global;

/// Goes on from a kept state over a link, event by event, with so many calls at each event, up to its end. A header is
/// read, and none is written; the frames written are of the version.
pub fn run_kept<M: Keeping, L: Link>(
    alloc: Global,
    c: &Checked,
    k: &Kept,
    budget: u64,
    version: Version,
    link: &mut L,
) -> End
    requires fits { IsTrue (fits_of (core_of c.now)) }
    requires typed { IsTypedKept (core_of c.now) (kept_of k.now) }
    requires budget { budget ≤ 1000000 }
    requires short { reach_of (core_of c.now).main.result ≤ longest version }
    ensures ran { Ran (meaning_since version budget (core_of c.now) (kept_of k.now)) (L.log link.old) (L.log link.new) (L.left link.old) (L.left link.new) result }
    ensures read { ReadCause result (L.read_faults link.old) (L.read_faults link.new) }
    ensures write { WriteCause result (L.write_faults link.old) (L.write_faults link.new) }
{
    match begin_kept::<M>(alloc, c, k, budget, version) {
        Ok(runner) => {
            let mut runner = runner;
            run_machine(alloc, &mut runner, None, b"", link)
        }
        Err(_) => End::Memory,
    }
}
