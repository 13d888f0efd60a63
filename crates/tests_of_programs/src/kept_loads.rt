//! Bytes that are read as kept states of a program, and others that are told apart from these.

use crate::kept_bytes::ONE;
use crate::programs::checked;
use core_term::Checked;
use delta_keep::{Kept, KeptState, dismiss};
use kept_check::{KeepFault, load};
use std::alloc::Global;
use std::test::Fail;
use stream_type::Memory;

// One stream of numbers, as it comes: the program of `ONE`.
const SAME: &[u8] = b"main(x : Int) : Int = x";

// Two streams of numbers.
const TWO: &[u8] = b"main(x : Int, y : Int) : Int = x";

// A case that holds what comes before its subject's side.
const CASE: &[u8] =
    b"main(a : Int; (y : Int, w : 1 + 1)) : Int = let x = (((), y) : 1 || Int) in case w of { inl u => let (p, q) = x in wait q in a | inr u => a }";

// It before any event: x is held with its `1` whole, and of a nothing has come.
const HELD: &[u8] = b"\
    DST\x01\0\0\0\0\0\0\0\0\0\0\0\x03\x02\x02\x05\x01\x01\0\0\0\x01\0\x02\x04\0\0\0\x03\x04\
    \0\x02\x02\0\0\x01\0\0\0\x01\x07\0\0\0\x02\x02\0\0\0\x03\0\0\0\x02\x05\x01\x01\x08\0\0\0\
    \x03\x04\x01\x02\x05\x02\x03\0\0\0\0\x02\x03\0\0\0\x04\0\0\0\x01\x0b\0\0\0\x05\0\0\0\x06\
    \0\0\0\x03\0\0\0\x01\x0f\0\0\0\x06\x02\0\0\0\x01\0\0\0\0\0\0\0\0\0\x3d\x09\0\0\0\0\0\0\0\
    \0\0\x07\0\0\0\x01\0\0\0\0\0\0\0\0\0\x3d\x09\0\0\0\0\0\0";

// A call.
const CALL: &[u8] = b"fun same(u : Int) : Int = u main(x : Int) : Int = same(x)";

// It before any event: the body of the function on its argument.
const FRAME: &[u8] = b"\
    DST\x01\0\0\0\0\0\0\0\0\0\0\0\x01\x02\0\0\0\0\x02\x0a\0\0\0\x01\0\0\0\0\x02\x01\0\0\0\
    \x01\x01\0\0\0\0";

// Whether the kept state has the name numbered 0 as its state.
fn is_first_name(k: &Kept) -> bool {
    matches!(&*k.state, KeptState::Var(x) if x.0 == 0)
}

// What is wrong with bytes for the program with this core, or whether they are read as that name.
fn name_by(alloc: Global, c: &Checked, bytes: &[u8]) -> Result<bool, KeepFault> {
    match load(alloc, c, bytes) {
        Ok(k) => {
            let found = is_first_name(&k);
            dismiss(k);
            Ok(found)
        }
        Err(fault) => Err(fault),
    }
}

// The same for the program of a text.
fn name_of(alloc: Global, text: &[u8], bytes: &[u8]) -> Result<Result<bool, KeepFault>, Fail> {
    let checked = checked(alloc, text)?;
    Ok(name_by(alloc, &checked, bytes))
}

#[test]
fn what_was_kept_is_read(rt: HostRuntime) -> Result<(), Fail> {
    assert!(rt; name_of(rt.alloc(), SAME, ONE)? == Ok(true));
    assert!(rt; name_of(rt.alloc(), CASE, HELD)? == Ok(false));
    assert!(rt; name_of(rt.alloc(), CALL, FRAME)? == Ok(false));
    Ok(())
}

// What is wrong with bytes for the program of a text, if they aren't read.
fn told(alloc: Global, text: &[u8], bytes: &[u8]) -> Result<Option<KeepFault>, Fail> {
    Ok(name_of(alloc, text, bytes)?.err())
}

#[test]
fn another_programs_state_is_refused(rt: HostRuntime) -> Result<(), Fail> {
    assert!(rt; told(rt.alloc(), CASE, ONE)? == Some(KeepFault::Untyped(0)));
    assert!(rt; told(rt.alloc(), SAME, HELD)? == Some(KeepFault::Untyped(0)));
    assert!(rt; told(rt.alloc(), TWO, ONE)? == Some(KeepFault::Untyped(0)));
    Ok(())
}

#[test]
fn a_byte_is_missing(rt: HostRuntime) -> Result<(), Fail> {
    assert!(rt; told(rt.alloc(), SAME, &ONE[..26])? == Some(KeepFault::Form(26)));
    Ok(())
}

// The bytes, of which one is set to a value.
fn changed(alloc: Global, bytes: &[u8], at: usize, value: u8) -> Result<Vec<u8>, Memory> {
    let mut next = bytes.to_vec(alloc)?;
    if at < next.len() {
        next[at] = value;
    }
    Ok(next)
}

// What is wrong with these for the program of a text.
fn told_changed(
    alloc: Global,
    text: &[u8],
    bytes: &[u8],
    at: usize,
    value: u8,
) -> Result<Option<KeepFault>, Fail> {
    told(alloc, text, &changed(alloc, bytes, at, value)?)
}

// A byte of the first state, what it is set to, and what is wrong then.
const FAULTS: &[(usize, u8, KeepFault)] = &[
    (21, 1, KeepFault::Untyped(0)),
    (3, 2, KeepFault::Version(2)),
    (26, 1, KeepFault::Untyped(0)),
    (4, 255, KeepFault::Untyped(0)),
    (16, 1, KeepFault::Untyped(0)),
    (20, 1, KeepFault::Form(21)),
    (22, 11, KeepFault::Form(22)),
];

#[test]
fn the_first_fault_is_told(rt: HostRuntime) -> Result<(), Fail> {
    for (at, value, wanted) in FAULTS {
        assert!(rt; told_changed(rt.alloc(), SAME, ONE, *at, *value)?.as_ref() == Some(wanted));
    }
    Ok(())
}

// A byte of the held state, what it is set to, and the number of the state that isn't typed then.
const UNTYPED: &[(usize, u8, u32)] = &[
    // a parameter is bound again
    (31, 0, 0),
    // the type of x isn't a pair
    (32, 3, 1),
    // the end of a stream of numbers
    (37, 2, 2),
    // a name that isn't there, and one of another type
    (42, 9, 3),
    (42, 2, 3),
    // another name holds something
    (55, 9, 4),
    // what is held is of another type, and of another one is left
    (58, 2, 4),
    // the name of a branch is bound before
    (80, 3, 4),
    // code that isn't deep enough
    (121, 60, 4),
];

// Whether just that is told of the state of a text's program, row by row.
fn are_told_untyped(
    alloc: Global,
    text: &[u8],
    bytes: &[u8],
    rows: &[(usize, u8, u32)],
) -> Result<bool, Fail> {
    for (at, value, number) in rows {
        if told_changed(alloc, text, bytes, *at, *value)? != Some(KeepFault::Untyped(*number)) {
            return Ok(false);
        }
    }
    Ok(true)
}

#[test]
fn the_first_untyped_state_is_told(rt: HostRuntime) -> Result<(), Fail> {
    assert!(rt; are_told_untyped(rt.alloc(), CASE, HELD, UNTYPED)?);
    Ok(())
}

// The same of the state of a call: the argument, the body, the parameter's type, its name.
const UNTYPED_OF_A_CALL: &[(usize, u8, u32)] = &[(36, 7, 1), (41, 7, 2), (31, 1, 1), (30, 5, 2)];

#[test]
fn the_first_untyped_state_of_a_call_is_told(rt: HostRuntime) -> Result<(), Fail> {
    assert!(rt; are_told_untyped(rt.alloc(), CALL, FRAME, UNTYPED_OF_A_CALL)?);
    Ok(())
}

// Whether what is wrong is told with a place among so many bytes, if anything is.
fn is_told_within(fault: Option<KeepFault>, count: usize) -> bool {
    match fault {
        None => true,
        Some(KeepFault::Memory) => false,
        Some(KeepFault::Form(at)) => at <= count as u64,
        Some(KeepFault::Untyped(number)) => (number as usize) < count,
        Some(KeepFault::Version(n)) => n != 1,
    }
}

// Whether it is so with each byte set to a value, one after the other, for the program of a text.
fn are_told(alloc: Global, text: &[u8], bytes: &[u8], value: u8) -> Result<bool, Fail> {
    for at in 0..bytes.len() {
        let fault = told_changed(alloc, text, bytes, at, value)?;
        if !is_told_within(fault, bytes.len()) {
            return Ok(false);
        }
    }
    Ok(true)
}

#[test]
fn each_byte_may_be_another(rt: HostRuntime) -> Result<(), Fail> {
    for value in [0, 1, 2, 3, 7, 11, 128, 255] {
        assert!(rt; are_told(rt.alloc(), SAME, ONE, value)?);
        assert!(rt; are_told(rt.alloc(), CASE, HELD, value)?);
        assert!(rt; are_told(rt.alloc(), CALL, FRAME, value)?);
    }
    Ok(())
}
