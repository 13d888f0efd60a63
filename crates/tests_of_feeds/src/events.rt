//! Worked examples of events and words.

use event_word::{Event, EventFault, Leaf, Step, admits, after, canon, one, prefix_of};
use std::alloc::Global;
use std::test::Fail;
use stream_prefix::Prefix;
use stream_type::{Memory, Ty, cat, par, same, star};

// The event of a leaf behind one step.
fn behind(step: Step, leaf: Leaf) -> Result<Event, Fail> {
    Ok(Event::new(leaf).under(step).ok_or("full")?)
}

// The canonical word of the numbers 1 and 2 beside each other.
fn word_of_a_pair(alloc: Global) -> Result<Vec<Event>, Memory> {
    let t = par(alloc, Ty::Int, Ty::Int)?;
    let left = Box::new(alloc, Prefix::IntFull(1))?;
    let right = Box::new(alloc, Prefix::IntFull(2))?;
    let p = Prefix::Par(left, right);
    canon(alloc, &t, &p)
}

// Whether these are the events of that word.
fn are_of_a_pair(word: &[Event]) -> Result<bool, Fail> {
    let left = behind(Step::Left, Leaf::Int(1))?;
    let right = behind(Step::Right, Leaf::Int(2))?;
    Ok(word == [left, right].as_slice())
}

#[test]
fn canon_of_a_pair(rt: HostRuntime) -> Result<(), Fail> {
    let word = word_of_a_pair(rt.alloc())?;
    let are = are_of_a_pair(&word)?;
    assert!(rt; are);
    Ok(())
}

// Whether a prefix is a first number, 1.
fn is_number_first(p: &Prefix) -> bool {
    match p {
        Prefix::CatFst(p) => matches!(**p, Prefix::IntFull(1)),
        _ => false,
    }
}

// Whether the event that is the first number is the prefix of it, on `Int . Int`.
fn is_one_first(alloc: Global) -> Result<bool, Fail> {
    let x = behind(Step::First, Leaf::Int(1))?;
    let t = cat(alloc, Ty::Int, Ty::Int)?;
    admits(&t, &x)?;
    let p = one(alloc, &t, &x)?;
    Ok(is_number_first(&p))
}

#[test]
fn one_of_a_sequence(rt: HostRuntime) -> Result<(), Fail> {
    let is = is_one_first(rt.alloc())?;
    assert!(rt; is);
    Ok(())
}

// The same of the word of that event alone.
fn is_word_first(alloc: Global) -> Result<bool, Fail> {
    let x = behind(Step::First, Leaf::Int(1))?;
    let t = cat(alloc, Ty::Int, Ty::Int)?;
    admits(&t, &x)?;
    let p = prefix_of(alloc, &t, &[x])?;
    Ok(is_number_first(&p))
}

#[test]
fn prefix_of_a_sequence(rt: HostRuntime) -> Result<(), Fail> {
    let is = is_word_first(rt.alloc())?;
    assert!(rt; is);
    Ok(())
}

// What an item leaves of `Int*`.
fn left_by_an_item(alloc: Global) -> Result<Ty, Fail> {
    let t = star(alloc, Ty::Int)?;
    let x = Event::new(Leaf::Item);
    admits(&t, &x)?;
    Ok(after(alloc, &t, &x)?)
}

// Whether an item leaves `Int . Int*` of it.
fn item_leaves_a_number(alloc: Global) -> Result<bool, Fail> {
    let left = left_by_an_item(alloc)?;
    let expected = cat(alloc, Ty::Int, star(alloc, Ty::Int)?)?;
    Ok(same(&left, &expected))
}

#[test]
fn an_item_begins(rt: HostRuntime) -> Result<(), Fail> {
    let leaves = item_leaves_a_number(rt.alloc())?;
    assert!(rt; leaves);
    Ok(())
}

#[test]
fn the_path_has_63_steps(rt: HostRuntime) -> Result<(), Fail> {
    let mut x = Event::new(Leaf::End);
    for _ in 0..63 {
        x = x.under(Step::Left).ok_or("full")?;
    }
    let full = x.path().len() == 63 && x.leaf() == Leaf::End && x.under(Step::Right) == None;
    assert!(rt; full);
    Ok(())
}

// Whether a type refuses each of these events for its fault.
fn refuses(t: &Ty, rows: &[(Event, EventFault)]) -> bool {
    let mut all = true;
    for (x, fault) in rows {
        all = all && admits(t, x) == Err(*fault);
    }
    all
}

// Whether `Int . 1` does.
fn sequence_refuses(alloc: Global, rows: &[(Event, EventFault)]) -> Result<bool, Memory> {
    let t = cat(alloc, Ty::Int, Ty::One)?;
    Ok(refuses(&t, rows))
}

#[test]
fn each_fault(rt: HostRuntime) -> Result<(), Fail> {
    let end = Event::new(Leaf::End);
    assert!(rt; refuses(&Ty::Eps, &[(end, EventFault::Ended(0))]));
    let rows = [
        (behind(Step::Left, Leaf::End)?, EventFault::WrongStep(0)),
        (behind(Step::First, Leaf::End)?, EventFault::WrongLeaf(1)),
        (Event::new(Leaf::Cut), EventFault::EarlyCut(0)),
    ];
    let all = sequence_refuses(rt.alloc(), &rows)?;
    assert!(rt; all);
    Ok(())
}
