//! What is said to the last event of an input.

ghost use Rattle.std.specs.Prelude.{◌≤◌};
ghost use Rattle.delta_session.specs.Standing.{IsKept};

use crate::sessions::{opened, said_to};
use checked_program::{accept, dismiss};
use core_term::{Checked, fits};
use delta_code::Coded;
use delta_session::{Answers, Session};
use delta_state::Machine;
use event_text::read_line;
use event_word::Event;
use std::alloc::Global;
use std::test::Fail;

/// What is said to the last of these lines, or None where one isn't taken.
pub fn said_at_last<A: Answers>(
    alloc: Global,
    session: &mut Session<A>,
    lines: &[&[u8]],
) -> Option<Vec<Event>>
    requires kept { IsKept A.stands session.old }
    ensures kept { IsKept A.stands session.new }
{
    let mut said = Vec::new(alloc);
    for line in lines {
        said = said_to(alloc, session, read_line(line).ok()?)?;
    }
    Some(said)
}

// Whether these events are those of the lines.
fn are_lines(events: &[Event], lines: &[&[u8]]) -> bool {
    if events.len() != lines.len() {
        return false;
    }
    for (event, line) in events.iter().zip(lines) {
        if read_line(line) != Ok(*event) {
            return false;
        }
    }
    true
}

// Whether a program says this to the last of the lines, where it may make so many calls at each.
fn says<M: Machine>(
    alloc: Global,
    text: &[u8],
    budget: u64,
    lines: &[&[u8]],
    said: &[&[u8]],
) -> Result<bool, Fail>
    requires { budget ≤ 1000000 }
{
    match accept(alloc, text) {
        Ok(accepted) => {
            let found = core_says::<M>(alloc, &accepted.checked, budget, lines, said);
            dismiss(accepted);
            found
        }
        Err(fault) => Err(fault.into()),
    }
}

// The same of its core.
fn core_says<M: Machine>(
    alloc: Global,
    checked: &Checked,
    budget: u64,
    lines: &[&[u8]],
    said: &[&[u8]],
) -> Result<bool, Fail>
    requires { budget ≤ 1000000 }
{
    if !fits(checked.core()) {
        return Ok(false);
    }
    let mut session = opened::<M>(alloc, checked, budget)?;
    match said_at_last(alloc, &mut session, lines) {
        Some(events) => Ok(are_lines(&events, said)),
        None => Ok(false),
    }
}

// 100,001 calls at level 0 in one event; and so with names that are bound anew, exchanged and taken apart on the way.
#[test]
fn calls_at_one_level_take_no_stack(rt: HostRuntime) -> Result<(), Fail> {
    let down =
        b"fun down{n : Int}(u : 1) : Int = if n < 1 then {7} else down{n - 1}(u)\nmain(x : Int) : Int = wait x in down{x}(())";
    let rename =
        b"fun go{n : Int}(x : Int) : Int = if n < 1 then x else let y = x in go{n - 1}(y)\nmain(n : Int ; x : Int) : Int = wait n in go{n}(x)";
    let swap =
        b"fun go{n : Int}(x : Int, y : Int) : Int || Int = if n < 1 then (x, y) else go{n - 1}(y, x)\nmain(n : Int ; z : Int || Int) : Int || Int = wait n in let (x, y) = z in go{n}(x, y)";
    let parts =
        b"fun back{n : Int}(z : Int || Int, x : Int) : Int = if n < 1 then x else fore{n - 1}(z, z)\nfun fore{n : Int}(z : Int || Int, w : Int || Int) : Int = let (x, y) = w in back{n}(z, x)\nmain(n : Int ; z : Int || Int) : Int = wait n in fore{n}(z, z)";
    let rows: [(&[u8], &[&[u8]], &[&[u8]]); 4] = [
        (down, &[b"int 100000"], &[b"int 7"]),
        (rename, &[b"F int 5000", b"cut", b"int 5"], &[b"int 5"]),
        (
            swap,
            &[b"F int 5001", b"cut", b"L int 4", b"R int 5"],
            &[b"L int 5"],
        ),
        (
            parts,
            &[b"F int 5000", b"cut", b"R int 4", b"L int 5"],
            &[b"int 5"],
        ),
    ];
    for (text, lines, said) in rows {
        assert!(rt; says::<Coded>(rt.alloc(), text, 1_000_000, lines, said)?);
    }
    Ok(())
}

// The budget is that of the event, and what is called counts once each.
#[test]
fn calls_at_one_level_are_counted(rt: HostRuntime) -> Result<(), Fail> {
    let down =
        b"fun down{n : Int}(u : 1) : Int = if n < 1 then {7} else down{n - 1}(u)\nmain(x : Int) : Int = wait x in down{x}(())";
    assert!(rt; says::<Coded>(rt.alloc(), down, 5_001, &[b"int 5000"], &[b"int 7"])?);
    assert!(rt; !says::<Coded>(rt.alloc(), down, 5_000, &[b"int 5000"], &[b"int 7"])?);
    Ok(())
}

// A name that a let gives to an input gives what the input gives.
#[test]
fn renamed_input_goes_on(rt: HostRuntime) -> Result<(), Fail> {
    let text = b"main(x : Int, y : Int) : Int || Int = let z = x in (z, y)";
    assert!(rt; says::<Coded>(rt.alloc(), text, 1_000_000, &[b"R int 5"], &[b"R int 5"])?);
    assert!(rt;
        says::<Coded>(
            rt.alloc(),
            text,
            1_000_000,
            &[b"R int 5", b"L int 4"],
            &[b"L int 4"]
        )?
    );
    Ok(())
}
