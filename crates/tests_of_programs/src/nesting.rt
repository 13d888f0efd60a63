//! Calls that stand far inside one another: what they give, and that they use their budget up. The stack
//! has at most some thirty of them at a time.

use crate::programs::{ran, refusal};
use delta_meaning::EvalRefusal;
use std::alloc::Global;
use std::test::Fail;
use stream_prefix::{Prefix, StarEnd};

// Programs that call themselves without end, by where the call stands.
const ENDLESS: &[&[u8]] = &[
    // alone
    b"fun f(u : 1) : 1 = f(u)
main(u : 1) : 1 = f(u)",
    // the head of a let
    b"fun f(u : 1) : 1 = let y = f(u) in y
main(u : 1) : 1 = f(u)",
    // behind a let
    b"fun f(u : 1) : 1 = let y = u in f(y)
main(u : 1) : 1 = f(u)",
    // with its type
    b"fun f(u : 1) : 1 = (f(u) : 1)
main(u : 1) : 1 = f(u)",
    // the first of two at once
    b"fun f(u : 1) : 1 = let (x, y) = ((f(u), u) : 1 || 1) in u
main(u : 1) : 1 = f(u)",
    // the second of two at once
    b"fun f(u : 1) : 1 = let (x, y) = ((u, f(u)) : 1 || 1) in u
main(u : 1) : 1 = f(u)",
    // the first of two in turn
    b"fun f(u : 1) : 1 = let (x; y) = ((f(u); ()) : 1 . 1) in u
main(u : 1) : 1 = f(u)",
    // the second of two in turn
    b"fun f(u : 1) : 1 = let (x; y) = ((u; f(())) : 1 . 1) in x
main(u : 1) : 1 = f(u)",
    // what is taken apart, at once and in turn
    b"fun f(u : 1) : 1 || 1 = let (x, y) = f(u) in (x, y)
main(u : 1) : 1 || 1 = f(u)",
    b"fun f(u : 1) : 1 . 1 = let (x; y) = f(u) in (x; y)
main(u : 1) : 1 . 1 = f(u)",
];

// And further ones.
const ENDLESS_TOO: &[&[u8]] = &[
    // a case on it
    b"fun f(u : 1) : 1 + 1 = case f(u) of { inl x => inl x | inr y => inr y }
main(u : 1) : 1 + 1 = f(u)",
    b"fun f(u : 1) : 1* = case f(u) of { nil => nil | y :: ys => ys }
main(u : 1) : 1* = f(u)",
    // the branch of a case
    b"fun f(s : 1 + 1) : 1 = case s of { inl x => f(inl x) | inr y => y }
main(u : 1) : 1 = f(inl u)",
    b"fun f(s : 1*) : 1 = case s of { nil => () | y :: ys => f(() :: nil) }
main(u : 1) : 1 = f(u :: nil)",
    // an item, the rest of a list, and behind eight items
    b"fun f(u : 1) : 1* = let y = (f(u) :: nil : 1**) in nil
main(u : 1) : 1* = f(u)",
    b"fun f(u : 1) : 1* = () :: f(u)
main(u : 1) : 1* = f(u)",
    b"fun f(u : 1) : Int* = {1} :: {2} :: {3} :: {4} :: {5} :: {6} :: {7} :: {8} :: (f(u) : Int*)
main(u : 1) : Int* = f(u)",
    // behind a wait and an if
    b"fun f{n : Int}(u : 1) : 1 = wait u in if n < 1 then () else f{n}(())
main(u : 1) : 1 = f{1}(u)",
    // an argument
    b"fun f(u : 1) : 1 = f(f(u))
main(u : 1) : 1 = f(u)",
    // a side of a sum, which another call looks at
    b"fun f(u : 1) : 1 + 1 = g((inl f(u) : (1 + 1) + 1))
fun g(s : (1 + 1) + 1) : 1 + 1 = case s of { inl x => x | inr y => inr y }
main(u : 1) : 1 + 1 = f(u)",
];

// Why a program gives nothing where so many calls may be made.
fn refused(alloc: Global, text: &[u8], budget: u64) -> Result<Option<EvalRefusal>, Fail> {
    refusal(alloc, text, &Prefix::OneFull, budget)
}

#[test]
fn an_endless_nest_uses_its_budget_up(rt: HostRuntime) -> Result<(), Fail> {
    for text in ENDLESS {
        let found = refused(rt.alloc(), text, 10_000)?;
        assert!(rt; found == Some(EvalRefusal::Budget(10_000)));
    }
    Ok(())
}

#[test]
fn so_does_one_in_any_other_place(rt: HostRuntime) -> Result<(), Fail> {
    for text in ENDLESS_TOO {
        let found = refused(rt.alloc(), text, 10_000)?;
        assert!(rt; found == Some(EvalRefusal::Budget(10_000)));
    }
    Ok(())
}

// Counts down from 300, with each number before the rest, which is given by the next call.
const LISTED: &[u8] =
    b"fun f{n : Int}(u : 1) : Int* = if n < 1 then nil else let y = f{n - 1}(u) in {n} :: y
main(u : 1) : Int* = f{300}(u)";

// Calls itself twice, the one after the other, from 40 down to 36, and then once.
const BRANCHING: &[u8] =
    b"fun f{n : Int}(u : 1) : Int* = if n < 1 then nil else if n < 36 then f{n - 1}(u) else
  let y = f{n - 1}(u) in let z = f{n - 1}(u) in {n} :: z
main(u : 1) : Int* = f{40}(u)";

// The number of items, of calls and of levels of a program.
fn counted(alloc: Global, text: &[u8]) -> Result<(usize, u64, u64), Fail> {
    let found = ran(alloc, text, &Prefix::OneFull)?;
    Ok((items_of(&found.output), found.calls, found.level))
}

// The number of items of a list that is over.
fn items_of(p: &Prefix) -> usize {
    match p {
        Prefix::Star(items, StarEnd::Done) => items.len(),
        _ => 0,
    }
}

#[test]
fn a_deep_nest_gives_what_it_gives(rt: HostRuntime) -> Result<(), Fail> {
    assert!(rt; counted(rt.alloc(), LISTED)? == (300, 301, 301));
    assert!(rt; refused(rt.alloc(), LISTED, 301)? == None);
    assert!(rt; refused(rt.alloc(), LISTED, 300)? == Some(EvalRefusal::Budget(300)));
    Ok(())
}

#[test]
fn each_call_of_a_tree_is_counted(rt: HostRuntime) -> Result<(), Fail> {
    assert!(rt; counted(rt.alloc(), BRANCHING)? == (5, 1183, 6));
    assert!(rt; refused(rt.alloc(), BRANCHING, 1183)? == None);
    assert!(rt; refused(rt.alloc(), BRANCHING, 1182)? == Some(EvalRefusal::Budget(1182)));
    Ok(())
}
