//! The state of a program whose feed goes on.

ghost use Rattle.std.specs.Prelude.{IsTrue};
ghost use Rattle.core_term.specs.CoreTerm.{core_of, fits_of};
ghost use Rattle.delta_session.specs.Standing.{IsKept};

use crate::talking::{ROOM, open};
use checked_program::{accept, dismiss};
use core_term::{Checked, fits};
use delta_code::Coded;
use delta_load::{LOAD_TEXT, gen_event};
use delta_session::{Answers, Session};
use delta_state::Machine;
use std::alloc::Global;
use std::test::Fail;

const ITEMS: u64 = 10_000;

// Feeds the load's event of a number, and answers how many states there are then.
fn count<A: Answers>(alloc: Global, session: &mut Session<A>, i: u64) -> Result<u64, Fail>
    requires kept { IsKept A.stands session.old }
    ensures kept { IsKept A.stands session.new }
{
    let Some(x) = gen_event(1, ITEMS, i) else {
        return Ok(0);
    };
    if session.events() >= ROOM {
        return Ok(0);
    }
    let _word = session.feed(alloc, x)?;
    Ok(session.nodes())
}

// Feeds the load's events of these numbers, and answers the greatest number of states after the last event of an item.
fn greatest<A: Answers>(
    alloc: Global,
    session: &mut Session<A>,
    from: u64,
    below: u64,
) -> Result<u64, Fail>
    requires kept { IsKept A.stands session.old }
    ensures kept { IsKept A.stands session.new }
{
    let mut most = 0;
    for i in from..below {
        let nodes = count(alloc, session, i)?;
        if i % 5 == 4 {
            most = nodes.max(most);
        }
    }
    Ok(most)
}

// The greatest numbers of states of the load's program: over its second thousand items, and over its tenth.
fn most<M: Machine>(alloc: Global, checked: &Checked) -> Result<(u64, u64), Fail>
    requires { IsTrue (fits_of (core_of checked.now)) }
{
    let (session, _first) = open::<M>(alloc, checked, 1_000_000)?;
    let mut session = session;
    greatest(alloc, &mut session, 0, 5_000)?;
    let second = greatest(alloc, &mut session, 5_000, 10_000)?;
    greatest(alloc, &mut session, 10_000, 45_000)?;
    let tenth = greatest(alloc, &mut session, 45_000, 50_000)?;
    Ok((second, tenth))
}

// Whether the state is no greater after nine thousand items than after one thousand.
fn stays_small(alloc: Global) -> Result<bool, Fail> {
    match accept(alloc, LOAD_TEXT) {
        Ok(accepted) => {
            let found = core_stays_small(alloc, &accepted.checked);
            dismiss(accepted);
            found
        }
        Err(fault) => Err(fault.into()),
    }
}

// The same of the load's core.
fn core_stays_small(alloc: Global, checked: &Checked) -> Result<bool, Fail> {
    if !fits(checked.core()) {
        return Ok(false);
    }
    let (second, tenth) = most::<Coded>(alloc, checked)?;
    Ok(second == tenth && second > 0)
}

#[test]
fn state_does_not_grow_with_the_feed(rt: HostRuntime) -> Result<(), Fail> {
    assert!(rt; stays_small(rt.alloc())?);
    Ok(())
}
