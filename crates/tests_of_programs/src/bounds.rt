//! Which bounds programs have, and why others have none.

use checked_program::{accept, dismiss};
use delta_bound::{BoundRefusal, bound};
use std::alloc::Global;
use std::test::Fail;

// The bound of the program of the text, or why it has none.
fn told(alloc: Global, text: &[u8]) -> Result<Result<u64, BoundRefusal>, Fail> {
    match accept(alloc, text) {
        Ok(accepted) => {
            let found = bound(alloc, &accepted.checked);
            dismiss(accepted);
            Ok(found)
        }
        Err(fault) => Err(fault.into()),
    }
}

// Whether the program of the text has this bound.
fn has_bound(alloc: Global, text: &[u8], number: u64) -> Result<bool, Fail> {
    Ok(told(alloc, text)?.ok() == Some(number))
}

// Whether a node at this place counts a name without a size first in the program of the text.
fn is_unbounded(alloc: Global, text: &[u8], place: u32) -> Result<bool, Fail> {
    match told(alloc, text)? {
        Err(BoundRefusal::Unbounded { x: _, at }) => Ok(at == place),
        Ok(_) | Err(_) => Ok(false),
    }
}

// Whether the number of the function whose body stands at this place still grows, and none before it.
fn is_cycle(alloc: Global, text: &[u8], number: u32, place: u32) -> Result<bool, Fail> {
    match told(alloc, text)? {
        Err(BoundRefusal::Cycle { f, at }) => Ok(f == number && at == place),
        Ok(_) | Err(_) => Ok(false),
    }
}

#[test]
fn programs_have_their_bounds(rt: HostRuntime) -> Result<(), Fail> {
    let rows: [(&[u8], u64); 4] = [
        (
            b"fun twice(xs : Int*) : Int* = case xs of { nil => nil | y :: ys => wait y in ({y * 2} :: twice(ys)) } main(xs : Int*) : Int* = twice(xs)",
            1,
        ),
        (
            b"main(z : 1 + 1, y : Int) : Int + Int = case z of { inl a => inl y | inr b => inr y }",
            1,
        ),
        (
            b"main(z : 1 + 1; y : Int) : Int + Int = case z of { inl a => inl y | inr b => inr y }",
            0,
        ),
        (b"main(x : Int, y : Int) : Int = wait x in y", 2),
    ];
    for (text, number) in rows {
        assert!(rt; has_bound(rt.alloc(), text, number)?);
    }
    Ok(())
}

#[test]
fn a_whole_star_has_no_size(rt: HostRuntime) -> Result<(), Fail> {
    let text = b"main(xs : Int*) : Int = wait xs in {fold xs from 0 with a, x . a + x}";
    assert!(rt; is_unbounded(rt.alloc(), text, 24)?);
    Ok(())
}

#[test]
fn a_function_that_holds_more_at_each_call_is_told(rt: HostRuntime) -> Result<(), Fail> {
    let text =
        b"fun g(z : 1 + 1, y : Int) : Int = let a = (case z of { inl u => y | inr u => y } : Int) in g(z, a) main(z : 1 + 1, y : Int) : Int = g(z, y)";
    assert!(rt; is_cycle(rt.alloc(), text, 0, 34)?);
    Ok(())
}
