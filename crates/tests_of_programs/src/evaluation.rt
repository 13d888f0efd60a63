//! Small programs run on small inputs, with ample memory. Each answer was worked out by hand.

use crate::programs::{program, ran, refusal};
use delta_meaning::{EvalRefusal, eval};
use std::alloc::Global;
use std::test::Fail;
use stream_prefix::{Prefix, StarEnd};
use stream_type::Memory;

// Doubles each number.
const DOUBLING: &[u8] =
    b"fun f(x : Int*) : Int* = case x of { nil => nil | y :: ys => wait y in ({y * 2} :: f(ys)) }
main(x : Int*) : Int* = f(x)";

// Calls itself at its end.
const LOOPING: &[u8] = b"fun f(x : Int*) : 1 = case x of { nil => () | y :: ys => f(ys) }
main(x : Int*) : 1 = f(x)";

// Calls itself inside.
const NESTING: &[u8] =
    b"fun f(x : Int*) : 1 = case x of { nil => () | y :: ys => let n = f(ys) in n }
main(x : Int*) : 1 = f(x)";

// Calls behind a let of a number and a mark beside each other.
const BEHIND: &[u8] = b"fun f(u : 1) : 1 = u
main(x : Int) : 1 = let y = ((x, ()) : Int || 1) in f(())";

// The numbers, and then the end.
fn numbers(alloc: Global, numbers: &[i64]) -> Result<Box<Prefix>, Memory> {
    let mut items = Vec::new(alloc);
    for n in numbers {
        items.push(Prefix::IntFull(*n))?;
    }
    Ok(Box::new(alloc, Prefix::Star(items, StarEnd::Done))?)
}

// Why nothing is answered on these numbers with so many calls.
fn refused(
    alloc: Global,
    text: &[u8],
    items: &[i64],
    budget: u64,
) -> Result<Option<EvalRefusal>, Fail> {
    let input = numbers(alloc, items)?;
    refusal(alloc, text, &input, budget)
}

// Whether a prefix has ended and has so many whole items.
fn has_items(p: &Prefix, count: usize) -> bool {
    match p {
        Prefix::Star(items, StarEnd::Done) => items.len() == count,
        _ => false,
    }
}

// Whether the doubled numbers 3 and 4 are two items, with three calls at the first level.
fn are_doubled(alloc: Global) -> Result<bool, Fail> {
    let input = numbers(alloc, &[3, 4])?;
    let doubled = ran(alloc, DOUBLING, &input)?;
    let counted = doubled.calls == 3 && doubled.level == 1;
    Ok(counted && has_items(&doubled.output, 2))
}

// Whether a prefix is a feed of the one number 6 that has ended.
fn is_six(p: &Prefix) -> bool {
    match p {
        Prefix::Star(items, StarEnd::Done) => matches!(items.as_slice(), [Prefix::IntFull(6)]),
        _ => false,
    }
}

// Whether the doubled number 3 is 6, where two calls may be made.
fn three_is_doubled(alloc: Global) -> Result<bool, Fail> {
    let input = numbers(alloc, &[3])?;
    let program = program(alloc, DOUBLING)?;
    match &eval(alloc, &program, &input, 2) {
        Ok(output) => Ok(is_six(output)),
        Err(_) => Ok(false),
    }
}

#[test]
fn a_number_is_doubled_by_two_calls(rt: HostRuntime) -> Result<(), Fail> {
    assert!(rt; three_is_doubled(rt.alloc())?);
    let one = refused(rt.alloc(), DOUBLING, &[3], 1)?;
    assert!(rt; one == Some(EvalRefusal::Budget(1)));
    Ok(())
}

#[test]
fn calls_are_counted_up_to_the_budget(rt: HostRuntime) -> Result<(), Fail> {
    assert!(rt; are_doubled(rt.alloc())?);
    for (budget, refusal) in [(3, None), (2, Some(EvalRefusal::Budget(2)))] {
        let found = refused(rt.alloc(), DOUBLING, &[3, 4], budget)?;
        assert!(rt; found == refusal);
    }
    Ok(())
}

// The calls of a text's program on twenty numbers, and their level.
fn counted(alloc: Global, text: &[u8]) -> Result<(u64, u64), Fail> {
    let input = numbers(alloc, &[0; 20])?;
    let found = ran(alloc, text, &input)?;
    Ok((found.calls, found.level))
}

#[test]
fn a_loop_stays_and_a_nest_goes_down(rt: HostRuntime) -> Result<(), Fail> {
    assert!(rt; counted(rt.alloc(), LOOPING)? == (21, 1));
    assert!(rt; counted(rt.alloc(), NESTING)? == (21, 21));
    Ok(())
}

// The level of the calls of a text's program where this came.
fn level_on(alloc: Global, text: &[u8], input: &Prefix) -> Result<u64, Fail> {
    let found = ran(alloc, text, input)?;
    Ok(found.level)
}

// So the level may fall as more comes.
#[test]
fn a_call_stands_deeper_behind_what_is_not_whole(rt: HostRuntime) -> Result<(), Fail> {
    assert!(rt; level_on(rt.alloc(), BEHIND, &Prefix::IntEmp)? == 2);
    assert!(rt; level_on(rt.alloc(), BEHIND, &Prefix::IntFull(4))? == 1);
    Ok(())
}
