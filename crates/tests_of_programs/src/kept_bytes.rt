//! Bytes of kept states: read and written again, with each byte set to other values, and without their end.

use delta_keep::{Kept, ReadFault, dismiss, read_kept, save};
use std::alloc::Global;
use std::test::Fail;

/// `main(x : Int) : Int = x` before any event: its 27 bytes, of which the state is the last five.
pub(crate) const ONE: &[u8] = b"DST\x01\0\0\0\0\0\0\0\0\0\0\0\x01\x02\0\0\0\0\x02\x01\0\0\0\0";

// A wait and then code of each form of a term and of a historical expression, with values and prefixes of most forms.
const WAITS: &[u8] = b"\
    DST\x01\0\0\x01\0\0\0\0\x05\0\0\0\x02\x02\x06\x01\0\0\0\x02\x01\0\x04\0\x02\x03\x09\0\0\
    \0\x03\x02\0\0\0\x02\0\0\0\x01\x05\x01\x02\x07\x05\x02\x04\0\0\0\0\0\0\0\x03\x0b\0\0\0\
    \x03\x09\x01\x0a\x03\x06\0\x02\x0b\0\0\0\0\x01\0\0\0\x02\x02\x05\x08\x0b\0\0\0\0\0\0\0\0\
    \x0b\x08\0\0\0\x01\0\0\0\x07\x06\x02\x05\0\0\0\x03\x02\0\x01\xff\xff\xff\xff\xff\xff\xff\
    \xff\x03\0\x04\0\x20\0\0\0\0\0\0\0\0\0\0\x0b\x04\0\0\0\x01\x10\0\0\0\x02\0\0\0\x02\0\0\0\
    \0\x07\x01\0\0\0\0\0\0\0\x05\0\0\0\x02\0\0\0\x01\0\0\0\0\x01\0\0\0\x02\x02\0\0\0\x02\x04\
    \0\0\0\x01\x0f\0\0\0\0\x02\0\0\0\x03\0\0\0\0\x01\0\0\0\x02\x04\0\0\0\x01\x0e\0\0\0\0\x02\
    \0\0\0\x01\x01\0\0\0\x1b\0\0\0\x1c\0\0\0\x02\0\0\0\0\x1b\0\0\0\x02\x04\0\0\0\x01\x0d\0\0\
    \0\0\x02\0\0\0\x19\0\0\0\x01\0\0\0\0\x19\0\0\0\x1a\0\0\0\x02\0\0\0\0\x1a\0\0\0\x02\x04\0\
    \0\0\x01\x0c\0\0\0\x17\0\0\0\x18\0\0\0\0\0\0\0\x07\0\0\0\0\x17\0\0\0\x02\x04\0\0\0\x01\
    \x0b\0\0\0\x15\0\0\0\x16\0\0\0\0\0\0\0\x07\0\0\0\0\x15\0\0\0\x02\x04\0\0\0\x01\x0a\0\0\0\
    \x14\x06\x02\0\0\0\x05\0\0\0\0\x01\0\0\0\x06\0\0\0\0\x14\0\0\0\x02\x04\0\0\0\x01\x09\0\0\
    \0\x01\x02\0\0\0\x02\x08\0\0\0\x02\x04\0\0\0\x01\x07\0\0\0\x09\x02\0\0\0\x02\x04\0\0\0\
    \x01\x06\0\0\0\x09\x02\0\0\0\x02\x04\0\0\0\x01\x05\0\0\0\x01\x01\0\0\0\x02\x08\0\0\0\x02\
    \x04\0\0\0\x01\x04\0\0\0\x03\x01\0\0\0\x04\x02\0\0\0\x02\x04\0\0\0\x01\x03\x09\x04\x01\
    \xff\xff\xff\xff\xff\xff\xff\xfe\x02\0\0\0\x07\x03\0\x05\0\0\0\0\x07\x06\0\0\0\0\x07\0\0\
    \0\x08\x0c\x0b\x07\x02\x0a\x08\x02\0\0\0\x09\0\0\0\x0a\0\0\0\0\x09\0\0\0\x02\x04\0\0\0\
    \x01\x02\0\0\0\x02\x01\0\0\0\x01\0\0\0\x07\x06\x02\x05\0\0\0\x03\x02\0\x01\xff\xff\xff\
    \xff\xff\xff\xff\xff\x03\0\x04\0\x20\0\0\0\0\0\0\0";

// A frame whose body has both cases, a let and both destructurings.
const FRAME: &[u8] = b"\
    DST\x01\0\0\0\0\0\0\0\x07\0\0\0\x01\x05\x01\x02\0\0\0\x01\0\x03\x02\x01\x0a\0\0\0\x02\0\
    \0\0\x1e\x02\x01\0\0\0\0\0\0\0\x1f\x01\0\0\x02\x07\0\0\0\x03\x02\0\0\0\x01\0\0\0\x01\x05\
    \x01\x02\x07\x05\x02\x04\0\0\0\0\0\0\0\x03\x0b\0\0\0\x03\x09\x01\x0a\x03\x06\0\x02\x0b\0\
    \0\0\0\x01\0\0\0\x04\0\0\0\x0b\0\0\0\0\x04\0\0\0\x01\0\0\0\x07\x06\x02\x05\0\0\0\x03\x02\
    \0\x01\xff\xff\xff\xff\xff\xff\xff\xff\x03\0\x04\0\x20\0\0\0\0\0\0\0\0\0\0\x05\0\0\0\x0b\
    \x02\0\0\0\x01\0\0\0\x07\x06\x02\x05\0\0\0\x03\x02\0\x01\xff\xff\xff\xff\xff\xff\xff\xff\
    \x03\0\x04\0\x20\0\0\0\0\0\0\0\x04\0\0\0\x20\x04\0\x03\x01\x02\x08\0\0\0\x03\x02\0\0\0\0\
    \0\0\0\x0b\x01\0\0\0\x01\0\0\0\x07\x06\x02\x05\0\0\0\x03\x02\0\x01\xff\xff\xff\xff\xff\
    \xff\xff\xff\x03\0\x04\0\x20\0\0\0\0\0\0\0\0\0\0\x04\0\0\0\x05\0\0\0\x0b\0\0\0\0\x04\0\0\
    \0\x01\0\0\0\x07\x06\x02\x05\0\0\0\x03\x02\0\x01\xff\xff\xff\xff\xff\xff\xff\xff\x03\0\
    \x04\0\x20\0\0\0\0\0\0\0\x05\0\0\0\x21\0\0\0\x22\0\0\0\0\x06\0\0\0\x23\0\0\0\x24\0\0\0\0\
    \x01\0\0\0\x23";

/// They, told in one place: constants are proved in each function that names them.
pub(crate) fn states() -> [&'static [u8]; 3] {
    [ONE, WAITS, FRAME]
}

/// Whether a kept state is saved as these bytes.
pub(crate) fn saves_to(alloc: Global, k: &Kept, bytes: &[u8]) -> bool {
    match save(alloc, k) {
        Ok(out) => out.as_slice() == bytes,
        Err(_) => false,
    }
}

// Whether the bytes are those of a kept state that is saved as them again.
fn comes_back(alloc: Global, bytes: &[u8]) -> Result<bool, ReadFault> {
    match read_kept(alloc, bytes) {
        Ok(k) => {
            let same = saves_to(alloc, &k, bytes);
            dismiss(k);
            Ok(same)
        }
        Err(fault) => Err(fault),
    }
}

#[test]
fn states_come_back(rt: HostRuntime) {
    for bytes in states() {
        assert!(rt; matches!(comes_back(rt.alloc(), bytes), Ok(true)));
    }
}

/// What is wrong with the bytes, if they aren't read.
pub(crate) fn fault(alloc: Global, bytes: &[u8]) -> Option<ReadFault> {
    comes_back(alloc, bytes).err()
}

// The bytes of a name with one more behind them, of which one is set to a value.
fn changed(at: usize, value: u8) -> [u8; 28] {
    let mut bytes = [0; 28];
    for (byte, one) in bytes.iter_mut().zip(ONE) {
        *byte = *one;
    }
    if at < bytes.len() {
        bytes[at] = value;
    }
    bytes
}

// What is wrong with so many of these.
fn fault_changed(alloc: Global, length: usize, at: usize, value: u8) -> Option<ReadFault> {
    let bytes = changed(at, value);
    fault(alloc, &bytes[..length.min(28)])
}

// How many of these bytes there are, the one that is set and its value, and what is wrong first.
const FAULTS: &[(usize, usize, u8, ReadFault)] = &[
    (26, 0, 68, ReadFault::Form(26)),
    (28, 0, 68, ReadFault::Form(27)),
    (27, 3, 2, ReadFault::Version(2)),
    (27, 0, 67, ReadFault::Form(0)),
    (27, 16, 7, ReadFault::Form(16)),
    (27, 21, 11, ReadFault::Form(21)),
    (27, 22, 11, ReadFault::Form(22)),
    (3, 0, 68, ReadFault::Form(3)),
    (0, 0, 68, ReadFault::Form(0)),
];

#[test]
fn the_first_fault_is_told(rt: HostRuntime) {
    for (length, at, value, wanted) in FAULTS {
        let told = fault_changed(rt.alloc(), *length, *at, *value);
        assert!(rt; told.as_ref() == Some(wanted));
    }
}

// So many bytes of value 0.
fn zeros(alloc: Global, count: usize) -> Result<Vec<u8>, Fail> {
    let mut bytes = Vec::new(alloc);
    bytes.resize(count, 0)?;
    Ok(bytes)
}

#[test]
fn too_many_bytes_are_told_first(rt: HostRuntime) -> Result<(), Fail> {
    let many = zeros(rt.alloc(), 1_048_577)?;
    let most = zeros(rt.alloc(), 1_048_576)?;
    assert!(rt; fault(rt.alloc(), &many) == Some(ReadFault::Form(1_048_576)));
    assert!(rt; fault(rt.alloc(), &most) == Some(ReadFault::Form(0)));
    Ok(())
}

// Whether bytes are refused for their form, or are those of a kept state that is saved as them again.
fn holds(alloc: Global, bytes: &[u8]) -> bool {
    match comes_back(alloc, bytes) {
        Ok(same) => same,
        Err(ReadFault::Form(_) | ReadFault::Version(_)) => true,
        Err(ReadFault::Memory) => false,
    }
}

// Whether that holds with the byte at an index set to this value; afterwards the byte is as before.
fn holds_at(alloc: Global, bytes: &mut [u8], i: usize, value: u8) -> bool {
    if i >= bytes.len() {
        return true;
    }
    let before = bytes[i];
    bytes[i] = value;
    let held = holds(alloc, bytes);
    bytes[i] = before;
    held
}

// Whether it holds with each of the bytes set to each of these values.
fn holds_with_each(alloc: Global, bytes: &[u8], values: &[u8]) -> Result<bool, Fail> {
    let mut changed = bytes.to_vec(alloc)?;
    let mut all = true;
    for i in 0..bytes.len() {
        for value in values {
            all = holds_at(alloc, &mut changed, i, *value) && all;
        }
    }
    Ok(all)
}

#[test]
fn each_byte_may_be_anything(rt: HostRuntime) -> Result<(), Fail> {
    for bytes in states() {
        let held = holds_with_each(rt.alloc(), bytes, &[0, 1, 2, 5, 11, 16, 127, 255])?;
        assert!(rt; held);
    }
    Ok(())
}

// Whether the bytes without their end, from each place on, are missing just there.
fn ends_anywhere(alloc: Global, bytes: &[u8]) -> bool {
    let mut all = true;
    for i in 0..bytes.len() {
        all = fault(alloc, &bytes[..i]) == Some(ReadFault::Form(i as u64)) && all;
    }
    all
}

#[test]
fn a_missing_end_is_told(rt: HostRuntime) {
    for bytes in states() {
        assert!(rt; ends_anywhere(rt.alloc(), bytes));
    }
}
