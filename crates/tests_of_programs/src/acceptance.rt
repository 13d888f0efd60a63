//! Which texts are accepted, and for what the others are refused.

use checked_program::{accept, accept_to_write};
use event_frame::Version;
use program_refusal::{Refusal, RefusalName};
use program_text::TextFault;
use std::alloc::Global;
use std::test::Fail;

// Whether a text is accepted.
fn is_accepted(alloc: Global, text: &[u8]) -> bool {
    let found = accept(alloc, text);
    let accepted = found.is_ok();
    drop(found);
    accepted
}

// Whether a text is accepted, with its output to be written in a version.
fn is_writable(alloc: Global, text: &[u8], version: Version) -> bool {
    let found = accept_to_write(alloc, text, version);
    let accepted = found.is_ok();
    drop(found);
    accepted
}

// Whether the core of an accepted text has so many texts.
fn has_texts(alloc: Global, text: &[u8], count: usize) -> Result<bool, Fail> {
    let accepted = Box::new(alloc, accept(alloc, text)?)?;
    Ok(accepted.checked.core().texts.len() == count)
}

#[test]
fn first_program_is_accepted(rt: HostRuntime) -> Result<(), Fail> {
    assert!(rt; has_texts(rt.alloc(), b"main(x : Int) : Int = x", 1)?);
    Ok(())
}

// Whether that is wrong first with a text.
fn is_refused(alloc: Global, text: &[u8], name: RefusalName, at: u32) -> bool {
    let refusal = Refusal { name, at };
    accept(alloc, text).err() == Some(TextFault::Refused(refusal))
}

// Each text and what is wrong with it first.
const REFUSED: &[(&[u8], RefusalName, u32)] = &[
    (b"main(x : Int) : Int = ", RefusalName::Expected, 21),
    (b"main(x : Int) : Int = y", RefusalName::Unbound, 22),
    (b"main(x : Int) : Int = f(x)", RefusalName::NoFunction, 22),
    (b"main(x : N) : Int = x", RefusalName::NoType, 9),
    (b"main(x : Int) : 1 = x", RefusalName::Mismatch, 20),
    (
        b"main(x : Int, y : Int) : Int . Int = (x; y)",
        RefusalName::OutOfOrder,
        37,
    ),
];

#[test]
fn texts_are_refused_by_name_and_place(rt: HostRuntime) {
    for (text, name, at) in REFUSED {
        assert!(rt; is_refused(rt.alloc(), text, *name, *at));
    }
}

// Whether a text's output is too wide for frames of version 1.
fn is_wide(alloc: Global, text: &[u8]) -> bool {
    let refusal = Refusal {
        name: RefusalName::WideOutput,
        at: 0,
    };
    let found = accept_to_write(alloc, text, Version::V1).err();
    found == Some(TextFault::Refused(refusal))
}

#[test]
fn wide_output_is_refused_for_short_frames(rt: HostRuntime) {
    let text = b"main() : Int******************************** = nil";
    assert!(rt; is_accepted(rt.alloc(), text));
    assert!(rt; is_writable(rt.alloc(), text, Version::V2));
    assert!(rt; is_wide(rt.alloc(), text));
}

// A text at each side of each rule of types: what breaks it, with the place, and what keeps it.
const SIDES: &[(&[u8], RefusalName, u32, &[u8])] = &[
    (
        b"main(x : Int) : 1 = x",
        RefusalName::Mismatch,
        20,
        b"main(x : Int) : Int = x",
    ),
    (
        b"main(x : Int, y : Int) : Int . Int = (x; y)",
        RefusalName::OutOfOrder,
        37,
        b"main(x : Int; y : Int) : Int . Int = (x; y)",
    ),
    (
        b"fun f(a : 1; b : 1) : 1 = a\nmain(x : 1; y : 1) : 1 = f(x, ())",
        RefusalName::Jumpy,
        53,
        b"fun f(a : 1; b : 1) : 1 = a\nmain(x : 1; y : 1) : 1 = f(x, y)",
    ),
    (
        b"main(x : eps, y : Int) : Int = wait x in y",
        RefusalName::WaitNull,
        31,
        b"main(x : Int, y : Int) : Int = wait x in y",
    ),
    (
        b"fun f(a : 1) : 1 = a\nmain(x : 1) : 1 = f(x, x)",
        RefusalName::Arity,
        39,
        b"fun f(a : 1) : 1 = a\nmain(x : 1) : 1 = f(x)",
    ),
    (
        b"main(x : Int) : Int = wait x in {fst x}",
        RefusalName::History,
        32,
        b"main(x : Int) : Int = wait x in {x + 1}",
    ),
    (
        b"fun f{n : Int}(a : 1) : Int = n\nmain(x : 1) : Int = f{1}(x)",
        RefusalName::NotStream,
        30,
        b"fun f{n : Int}(a : 1) : Int = {n}\nmain(x : 1) : Int = f{1}(x)",
    ),
];

#[test]
fn each_rule_has_two_sides(rt: HostRuntime) {
    for (broken, name, at, kept) in SIDES {
        assert!(rt; is_refused(rt.alloc(), broken, *name, *at));
        assert!(rt; is_accepted(rt.alloc(), kept));
    }
}
