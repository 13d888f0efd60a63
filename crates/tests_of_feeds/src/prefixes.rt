//! Each call once, on small prefixes.

use std::alloc::Global;
use std::test::Fail;
use stream_prefix::{Prefix, StarEnd, copy, derive, empty, is_prefix, join, maximal};
use stream_type::{Memory, Ty, cat, same, star};

fn boxed(alloc: Global, p: Prefix) -> Result<Box<Prefix>, Memory> {
    Ok(Box::new(alloc, p)?)
}

// Whether a first number is awaited.
fn is_awaited(p: &Prefix) -> bool {
    match p {
        Prefix::CatFst(p) => matches!(**p, Prefix::IntEmp),
        _ => false,
    }
}

// Whether nothing that came is an awaited number, where a number is first.
fn empty_is_awaited(alloc: Global) -> Result<bool, Memory> {
    let t = cat(alloc, Ty::Int, Ty::One)?;
    let p = empty(alloc, &t)?;
    Ok(is_awaited(&p))
}

#[test]
fn nothing_has_come(rt: HostRuntime) -> Result<(), Fail> {
    let awaited = empty_is_awaited(rt.alloc())?;
    assert!(rt; awaited, "the first part is awaited");
    Ok(())
}

// Whether the first number came, and is 1.
fn is_one_first(p: &Prefix) -> bool {
    match p {
        Prefix::CatFst(p) => matches!(**p, Prefix::IntFull(1)),
        _ => false,
    }
}

// Whether the first number 1 is the same when copied.
fn one_is_copied(alloc: Global) -> Result<bool, Memory> {
    let p = Prefix::CatFst(boxed(alloc, Prefix::IntFull(1))?);
    let copied = copy(alloc, &p)?;
    Ok(is_one_first(&copied))
}

#[test]
fn copies_are_equal(rt: HostRuntime) -> Result<(), Fail> {
    let same = one_is_copied(rt.alloc())?;
    assert!(rt; same, "the same form");
    Ok(())
}

// A star whose first item began, a number of which nothing came.
fn begun(alloc: Global) -> Result<Prefix, Memory> {
    let number = boxed(alloc, Prefix::IntEmp)?;
    Ok(Prefix::Star(Vec::new(alloc), StarEnd::First(number)))
}

// The number 3, and behind it no item.
fn number(alloc: Global) -> Result<Prefix, Memory> {
    let nothing = boxed(alloc, Prefix::Star(Vec::new(alloc), StarEnd::Emp))?;
    Ok(Prefix::CatBoth(boxed(alloc, Prefix::IntFull(3))?, nothing))
}

// Whether a type leaves this one after a prefix that isn't maximal.
fn leaves(alloc: Global, t: &Ty, p: &Prefix, rest: &Ty) -> Result<bool, Memory> {
    if maximal(p) || !is_prefix(t, p) {
        return Ok(false);
    }
    let left = derive(alloc, t, p)?;
    Ok(same(&left, rest))
}

// Whether numbers leave `Int . Int*` after an item that began.
fn begun_leaves_a_number(alloc: Global) -> Result<bool, Memory> {
    let numbers = star(alloc, Ty::Int)?;
    let rest = cat(alloc, Ty::Int, star(alloc, Ty::Int)?)?;
    let begun = begun(alloc)?;
    leaves(alloc, &numbers, &begun, &rest)
}

// Both prefixes as one, where each is a prefix of what is awaited.
#[tactic(auto, using(stream_prefix::specs::StreamPrefix::follows))]
fn joined(alloc: Global, t: &Ty, p: Prefix, q: Prefix) -> Result<Option<Prefix>, Memory> {
    if !is_prefix(t, &p) {
        return Ok(None);
    }
    let left = derive(alloc, t, &p)?;
    if !is_prefix(&left, &q) {
        return Ok(None);
    }
    Ok(Some(join(alloc, p, q)?))
}

// Whether a prefix is one whole item, the number 3.
fn is_one_item(p: &Option<Prefix>) -> bool {
    match p {
        Some(Prefix::Star(items, StarEnd::Emp)) => {
            matches!(items.as_slice(), [Prefix::IntFull(3)])
        }
        _ => false,
    }
}

// Whether an item that began and its number are one whole item.
fn both_are_an_item(alloc: Global) -> Result<bool, Memory> {
    let numbers = star(alloc, Ty::Int)?;
    let begun = begun(alloc)?;
    let whole = joined(alloc, &numbers, begun, number(alloc)?)?;
    Ok(is_one_item(&whole))
}

#[test]
fn an_item_comes_in_two_steps(rt: HostRuntime) -> Result<(), Fail> {
    let begins = begun_leaves_a_number(rt.alloc())?;
    assert!(rt; begins);
    let ends = both_are_an_item(rt.alloc())?;
    assert!(rt; ends, "one whole item");
    Ok(())
}
