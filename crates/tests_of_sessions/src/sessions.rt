//! Sessions that are fed.

ghost use Rattle.std.specs.Prelude.{◌≤◌, IfOk, IsTrue};
ghost use Rattle.core_term.specs.CoreTerm.{core_of, fits_of};
ghost use Rattle.delta_session.specs.Programs.{IsRunning};
ghost use Rattle.delta_session.specs.Standing.{IsKept};

use core_term::Checked;
use delta_session::{Answers, OpenRefusal, Session};
use delta_state::Machine;
use event_word::Event;
use std::alloc::Global;

/// A session of a program, which may make so many calls at each event.
pub fn opened<M: Machine>(
    alloc: Global,
    checked: &Checked,
    budget: u64,
) -> Result<Session<M>, OpenRefusal>
    requires fits { IsTrue (fits_of (core_of checked.now)) }
    requires budget { budget ≤ 1000000 }
    ensures { IfOk result (λ s. IsKept (IsRunning M.seen M.stands) s) }
{
    match Session::<M>::open(alloc, checked, budget) {
        Ok((session, said)) => {
            drop(said);
            Ok(session)
        }
        Err(refusal) => Err(refusal),
    }
}

/// Feeds an event, and answers what is said to it, or None where it isn't taken.
pub fn said_to<A: Answers>(alloc: Global, session: &mut Session<A>, x: Event) -> Option<Vec<Event>>
    requires kept { IsKept A.stands session.old }
    ensures kept { IsKept A.stands session.new }
{
    if session.events() >= 1 << 42 {
        return None;
    }
    session.feed(alloc, x).ok()
}
