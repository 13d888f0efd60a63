//! Goes on from a kept state: the session that does, and its runner.

ghost use Rattle.std.specs.Prelude.{◌≡◌, ◌≤◌, [], None, IsTrue, IfOk};
ghost use Rattle.stream_type.specs.StreamType.{type_of, reach_of};
ghost use Rattle.core_term.specs.CoreTerm.{core_of, fits_of};
ghost use Rattle.event_frame.specs.Frames.{longest};
ghost use Rattle.delta_session.specs.Standing.{Stands, HasTaken};
ghost use Rattle.kept_state.specs.KeptTyping.{IsTypedKept};
ghost use Rattle.kept_state.specs.KeptMeaning.{input_kept};
ghost use Rattle.delta_keep.specs.KeptView.{kept_of};
ghost use Rattle.delta_loop.specs.Meaning.{HasBegun};
ghost use Rattle.delta_runner.specs.Standing.{StandsFor};
ghost use Rattle.delta_runner.specs.KeptOneShot.{meaning_since};
ghost use Rattle.delta_runner.specs.SinceCourse.{IsSince, IsFrom, course_since};

use crate::runner::Runner;
use crate::woken::Woken;
use core_term::{Checked, Core};
use delta_keep::Kept;
use delta_session::Session;
use event_frame::Version;
use machine_kept::Keeping;
use machine_kept::awaiting::{awaited_at, type_awaited};
use std::alloc::Global;
use stream_type::{Memory, Ty};

// The type of what a kept state leaves of the program's input.
fn input_left(alloc: Global, c: &Core, k: &Kept) -> Result<Ty, Memory>
    ensures { IfOk result (λ t. type_of t ≡ input_kept (core_of c.now) (kept_of k.now)) }
{
    let awaited = awaited_at(alloc, &c.main.params, &k.ins, &k.cuts)?;
    let left = type_awaited(alloc, &awaited)?;
    Ok(Box::into_inner(left))
}

/// A session that goes on from what was kept of a run of the program, or of whatever is typed for it, before anything
/// more has come; nothing is said then. The budget is the number of calls that it may make at each event. Its only
/// error is want of memory.
pub fn resume<'a, M: Keeping>(
    alloc: Global,
    c: &Checked,
    k: &'a Kept,
    budget: u64,
) -> Result<Session<Woken<'a, M>>, Memory>
    requires fits { IsTrue (fits_of (core_of c.now)) }
    requires typed { IsTypedKept (core_of c.now) (kept_of k.now) }
    requires budget { budget ≤ 1000000 }
    ensures stands { IfOk result (λ r. Stands (IsSince M.seen M.since) r (course_since (core_of c.now) (kept_of k.now) budget) []) }
    ensures taken { IfOk result (λ r. HasTaken r (course_since (core_of c.now) (kept_of k.now) budget) []) }
    ensures from { IfOk result (λ r. IsFrom M.seen r (core_of c.now) (kept_of k.now)) }
{
    let core = c.core();
    let rest = input_left(alloc, core, k)?;
    let output = stream_type::copy(alloc, &k.out)?;
    let machine = M::from_kept(alloc, c, k, budget)?;
    let events = k.events;
    Ok(Session::over(Woken { machine, from: k }, rest, output, events))
}

/// Its runner. Neither a header nor a frame comes first. Its only error is want of memory.
pub fn begin_kept<'a, M: Keeping>(
    alloc: Global,
    c: &Checked,
    k: &'a Kept,
    budget: u64,
    version: Version,
) -> Result<Runner<Woken<'a, M>>, Memory>
    requires fits { IsTrue (fits_of (core_of c.now)) }
    requires typed { IsTypedKept (core_of c.now) (kept_of k.now) }
    requires budget { budget ≤ 1000000 }
    requires short { reach_of (core_of c.now).main.result ≤ longest version }
    ensures begun { IfOk result (λ r. HasBegun (StandsFor (IsSince M.seen M.since)) (meaning_since version budget (core_of c.now) (kept_of k.now)) r None []) }
    ensures from { IfOk result (λ r. IsFrom M.seen r.session (core_of c.now) (kept_of k.now)) }
{
    let session = resume(alloc, c, k, budget)?;
    Ok(Runner {
        session,
        version,
        lost: false,
    })
}
