//! Bytes of kept states that nest as deep as is read, and deeper.

use crate::kept_bytes::fault;
use delta_keep::ReadFault;
use std::alloc::Global;
use std::test::Fail;

// A kept state before its state: no event, no input, and the null type.
const BEFORE: &[u8] = b"DST\x01\0\0\0\0\0\0\0\0\0\0\0\0\0\0\0\0\0";

// A state up to where the next of a kind begins, and a form of this kind up to where it holds another of it.
const FORMS: &[(&[u8], &[u8])] = &[
    // types
    (b"\0", b"\x06"),
    (b"\0", b"\x03"),
    // states
    (b"", b"\x02"),
    (b"", b"\x03"),
    (b"", b"\x04\0\0\0\0\0"),
    (b"", b"\x05\0\0\0\0\0\0\0\0\0\0\0\0"),
    (b"", b"\x0a\0\0\0\0"),
    (b"", b"\x0a\0\0\0\x01\0\0\0\0\0"),
    // terms
    (b"\x03\x01\0\0\0\0", b"\0\0\0\0\x04"),
    (b"\x03\x01\0\0\0\0", b"\0\0\0\0\x06"),
    (b"\x03\x01\0\0\0\0", b"\0\0\0\0\x0a\0\0\0\0\0"),
    (b"\x03\x01\0\0\0\0", b"\0\0\0\0\x0d\0\0\0\0\0\0\0\0\0"),
    (b"\x03\x01\0\0\0\0", b"\0\0\0\0\x0e\0\0\0\0\0"),
    (b"\x03\x01\0\0\0\0", b"\0\0\0\0\x0f\0\0\0\0\0"),
    (
        b"\x03\x01\0\0\0\0",
        b"\0\0\0\0\x10\0\0\0\0\0\0\0\0\0\0\0\x01",
    ),
    // historical expressions
    (b"\x03\x01\0\0\0\0\0\0\0\0\x03", b"\x03\0"),
    (b"\x03\x01\0\0\0\0\0\0\0\0\x03", b"\x05"),
    (b"\x03\x01\0\0\0\0\0\0\0\0\x03", b"\x09"),
    (b"\x03\x01\0\0\0\0\0\0\0\0\x03", b"\x0c"),
    // prefixes
    (b"\x09\0\0\0\0\0\0\0\0\x01\0\0\0\0\0", b"\x05"),
    (b"\x09\0\0\0\0\0\0\0\0\x01\0\0\0\0\0", b"\x09"),
    (b"\x09\0\0\0\0\0\0\0\0\x01\0\0\0\0\0", b"\x0b\0\0\0\x01"),
    // values
    (b"\x03\x01\0\0\0\0\0\0\0\0\x01\0\0\0\x01\0\0\0\0\0", b"\x02"),
    (b"\x03\x01\0\0\0\0\0\0\0\0\x01\0\0\0\x01\0\0\0\0\0", b"\x03"),
    (
        b"\x03\x01\0\0\0\0\0\0\0\0\x01\0\0\0\x01\0\0\0\0\0",
        b"\x05\0\0\0\x01",
    ),
];

// They, told in one place: a table is proved in each function that names it.
fn forms() -> &'static [(&'static [u8], &'static [u8])] {
    FORMS
}

// A kept state of which the last bytes are missing: a form inside itself so many times.
fn nested(alloc: Global, head: &[u8], form: &[u8], levels: usize) -> Result<Vec<u8>, Fail> {
    let mut bytes = BEFORE.to_vec(alloc)?;
    bytes.extend_from_slice(head)?;
    for _ in 0..levels {
        bytes.extend_from_slice(form)?;
    }
    Ok(bytes)
}

// Whether it is told that bytes are missing.
fn are_read(alloc: Global, head: &[u8], form: &[u8], levels: usize) -> Result<bool, Fail> {
    let bytes = nested(alloc, head, form, levels)?;
    Ok(fault(alloc, &bytes) == Some(ReadFault::Form(bytes.len() as u64)))
}

// Whether it is told that they nest too deep.
fn are_refused(alloc: Global, head: &[u8], form: &[u8], levels: usize) -> Result<bool, Fail> {
    let bytes = nested(alloc, head, form, levels)?;
    Ok(fault(alloc, &bytes) == Some(ReadFault::Memory))
}

#[test]
fn four_thousand_levels_are_read(rt: HostRuntime) -> Result<(), Fail> {
    for (head, form) in forms() {
        assert!(rt; are_read(rt.alloc(), head, form, 3_990)?);
    }
    Ok(())
}

#[test]
fn deeper_bytes_are_refused(rt: HostRuntime) -> Result<(), Fail> {
    for (head, form) in forms() {
        for levels in [4_001, 50_000] {
            assert!(rt; are_refused(rt.alloc(), head, form, levels)?);
        }
    }
    Ok(())
}
