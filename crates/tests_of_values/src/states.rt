//! What states hold, and how large they are.

use bunch::Name;
use core_term::{Node, Term};
use delta_state::{Argument, Held, Later, State, count_states, held_events};
use std::alloc::Global;
use stream_prefix::{Prefix, StarEnd};
use stream_type::{Memory, Ty};

// Code that gives a name's stream once it is reached.
fn later(alloc: Global, x: u32) -> Later {
    Later {
        term: Node {
            at: 0,
            term: Term::Var(Name(x)),
        },
        past: Vec::new(alloc),
        depth: 1,
    }
}

// A number and a mark at once on the name 1, two whole items and half of a third on the name 2.
fn held(alloc: Global) -> Result<Held, Memory> {
    let number = Box::new(alloc, Prefix::IntFull(5))?;
    let mark = Box::new(alloc, Prefix::OneFull)?;
    let mut items = Vec::new(alloc);
    items.push(Prefix::IntFull(7))?;
    items.push(Prefix::IntFull(8))?;
    let third = StarEnd::First(Box::new(alloc, Prefix::IntEmp)?);
    let mut held = Vec::new(alloc);
    held.push((Name(0), Prefix::SumEmp))?;
    held.push((Name(1), Prefix::Par(number, mark)))?;
    held.push((Name(2), Prefix::Star(items, third)))?;
    Ok(held)
}

// A case on the name 0 that holds these.
fn case(alloc: Global) -> Result<Box<State>, Memory> {
    let held = held(alloc)?;
    let (left, right) = (later(alloc, 1), later(alloc, 2));
    let case = State::CaseSum(Name(0), Ty::Int, held, Name(3), left, Name(4), right);
    Ok(Box::new(alloc, case)?)
}

// How many events a state holds that was made, and of how many states it is.
fn size(state: Result<Box<State>, Memory>) -> (u64, u64) {
    match state {
        Ok(state) => (held_events(&state), count_states(&state)),
        Err(_) => (0, 0),
    }
}

#[test]
fn a_case_holds_what_came(rt: HostRuntime) {
    // Two events on 1; on 2 Item, the number and Cut for each item, and Item for the third.
    assert!(rt; size(case(rt.alloc())) == (9, 3));
}

// `0 . 0`
fn in_turn(alloc: Global) -> Result<Box<State>, Memory> {
    let first = Box::new(alloc, State::Var(Name(0)))?;
    Ok(Box::new(alloc, State::Cat(first, later(alloc, 0)))?)
}

// An argument for the name 0.
fn put(arguments: &mut Vec<Argument>, state: Box<State>) -> Result<(), Memory> {
    let argument = Argument {
        name: Name(0),
        state: Box::into_inner(state),
    };
    Ok(arguments.push(argument)?)
}

// `0 . 0` in a called body, whose one argument is a case.
fn frame(alloc: Global) -> Result<Box<State>, Memory> {
    let mut arguments = Vec::new(alloc);
    put(&mut arguments, case(alloc)?)?;
    let body = in_turn(alloc)?;
    Ok(Box::new(alloc, State::Frame(arguments, body))?)
}

#[test]
fn arguments_and_code_count(rt: HostRuntime) {
    assert!(rt; size(frame(rt.alloc())) == (9, 7));
}
