//! The number of states that the machine keeps on the load, on one long session, and on many.

ghost use Rattle.std.specs.Prelude.{◌≤◌};
ghost use Rattle.delta_session.specs.Standing.{IsKept};

use crate::answers::said_at_last;
use crate::sessions::{opened, said_to};
use checked_program::{accept, dismiss};
use core_term::{Checked, fits};
use delta_code::Coded;
use delta_load::{LOAD_TEXT, gen_event};
use delta_session::{Answers, Session};
use delta_state::Machine;
use std::alloc::Global;
use std::test::Fail;

/// How many states are kept after some items.
#[derive(Clone, Copy)]
pub struct Kept {
    /// The greatest number after an event of one of them.
    pub greatest: u64,
    /// The number after their last event.
    pub last: u64,
}

// Feeds the events of these items of the load, of which each has five.
fn feed_items<A: Answers>(
    alloc: Global,
    session: &mut Session<A>,
    from: u64,
    to: u64,
) -> Option<Kept>
    requires kept { IsKept A.stands session.old }
    requires items { from ≤ 50 }
    requires more { to ≤ 50 }
    ensures kept { IsKept A.stands session.new }
{
    let mut kept = Kept {
        greatest: 0,
        last: 0,
    };
    for i in 5 * from..5 * to {
        let x = gen_event(0, 50, i)?;
        said_to(alloc, session, x)?;
        kept.last = session.nodes();
        kept.greatest = kept.greatest.max(kept.last);
    }
    Some(kept)
}

// Whether as many states are kept after the fortieth item as after the tenth, and no more after an event of the ten
// items up to the one than after one of the ten items after the other; None where an event isn't taken.
fn stays_as_small<A: Answers>(alloc: Global, session: &mut Session<A>) -> Option<bool>
    requires { IsKept A.stands session.old }
{
    feed_items(alloc, session, 0, 9)?;
    let tenth = feed_items(alloc, session, 9, 10)?;
    let to_twentieth = feed_items(alloc, session, 10, 20)?;
    feed_items(alloc, session, 20, 30)?;
    let to_fortieth = feed_items(alloc, session, 30, 40)?;
    Some(tenth.last == to_fortieth.last && to_twentieth.greatest == to_fortieth.greatest)
}

// The same of a session of the program with this core.
fn core_stays_small<M: Machine>(alloc: Global, checked: &Checked) -> Result<bool, Fail> {
    if !fits(checked.core()) {
        return Ok(false);
    }
    let mut session = opened::<M>(alloc, checked, 1_000_000)?;
    Ok(stays_as_small(alloc, &mut session) == Some(true))
}

// The same of the load's program.
fn load_stays_small<M: Machine>(alloc: Global) -> Result<bool, Fail> {
    match accept(alloc, LOAD_TEXT) {
        Ok(accepted) => {
            let found = core_stays_small::<M>(alloc, &accepted.checked);
            dismiss(accepted);
            found
        }
        Err(fault) => Err(fault.into()),
    }
}

#[test]
fn load_leaves_no_more_states_behind(rt: HostRuntime) -> Result<(), Fail> {
    assert!(rt; load_stays_small::<Coded>(rt.alloc())?);
    Ok(())
}

// A feed of numbers and marks, cut at each mark: `examples/sessions.delta`.
const SESSIONS: &[u8] =
    b"fun session(xs : (Int + 1)*) : Int* . (Int + 1)* = case xs of { nil => (nil; nil) | x :: xt => case x of { inl n => let (ns; rest) = session(xt) in (n :: ns; rest) | inr mark => (nil; xt) } }\nfun sessions(xs : (Int + 1)*) : Int** = case xs of { nil => nil | x :: xt => let (ns; rest) = session(x :: xt) in ns :: sessions(rest) }\nmain(xs : (Int + 1)*) : Int** = sessions(xs)";

// A number of a session, by its events.
const NUMBER: [&[u8]; 4] = [b"item", b"F inl", b"F int 5", b"cut"];

// A session of one number, with the mark behind it.
const SESSION: [&[u8]; 8] = [
    b"item", b"F inl", b"F int 5", b"cut", b"item", b"F inr", b"F one", b"cut",
];

// Feeds these events so many times, and answers how many states are kept then, or None where an event isn't taken.
fn feed_often<A: Answers>(
    alloc: Global,
    session: &mut Session<A>,
    lines: &[&[u8]],
    count: u64,
) -> Option<u64>
    requires kept { IsKept A.stands session.old }
    ensures kept { IsKept A.stands session.new }
{
    for _i in 0..count {
        said_at_last(alloc, session, lines)?;
    }
    Some(session.nodes())
}

// Whether as many states are kept after a thousand times these events as after a hundred; None where an event of 1,500
// times isn't taken.
fn stays_level<A: Answers>(alloc: Global, session: &mut Session<A>, lines: &[&[u8]]) -> Option<bool>
    requires { IsKept A.stands session.old }
{
    let hundredth = feed_often(alloc, session, lines, 100)?;
    let thousandth = feed_often(alloc, session, lines, 900)?;
    feed_often(alloc, session, lines, 500)?;
    Some(hundredth == thousandth && hundredth > 0)
}

// The same of a session of the program with this core.
fn core_stays_level<M: Machine>(
    alloc: Global,
    checked: &Checked,
    lines: &[&[u8]],
) -> Result<bool, Fail> {
    if !fits(checked.core()) {
        return Ok(false);
    }
    let mut session = opened::<M>(alloc, checked, 1_000_000)?;
    Ok(stays_level(alloc, &mut session, lines) == Some(true))
}

// The same of a run of the program that cuts its feed.
fn cut_stays_small<M: Machine>(alloc: Global, lines: &[&[u8]]) -> Result<bool, Fail> {
    match accept(alloc, SESSIONS) {
        Ok(accepted) => {
            let found = core_stays_level::<M>(alloc, &accepted.checked, lines);
            dismiss(accepted);
            found
        }
        Err(fault) => Err(fault.into()),
    }
}

#[test]
fn long_session_leaves_no_more_states_behind(rt: HostRuntime) -> Result<(), Fail> {
    assert!(rt; cut_stays_small::<Coded>(rt.alloc(), &NUMBER)?);
    Ok(())
}

#[test]
fn many_sessions_leave_no_more_states_behind(rt: HostRuntime) -> Result<(), Fail> {
    assert!(rt; cut_stays_small::<Coded>(rt.alloc(), &SESSION)?);
    Ok(())
}
