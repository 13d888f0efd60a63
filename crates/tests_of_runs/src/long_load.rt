//! The load of 100,000 items, told in a line and run over its frames in pieces. The frames are written by hand.

use crate::load_lines::is_line;
use delta_code::Coded;
use delta_load::LOAD_TEXT;
use delta_run::delta;
use learned_runner::Learner;
use port::{MemLink, MemShelf, MemSink, Move};
use std::alloc::Global;
use std::test::Fail;

const ITEMS: u64 = 100_000;

#[test]
fn line_of_a_long_load(rt: HostRuntime) -> Result<(), Fail> {
    let line = "items 100000 in 500001 3000006 out 149701 748506 last 99999\n";
    assert!(rt; is_line(rt.alloc(), 1, ITEMS, line)?);
    Ok(())
}

// The value of the item of a key.
fn value(key: u64) -> u64 {
    key.wrapping_mul(7).wrapping_add(1) % 1000
}

// Appends the frames of an item: 30 bytes.
fn append_item(key: u64, frames: &mut Vec<u8>) -> Result<(), Fail> {
    frames.extend_from_slice(b"\0\x15\x02\x03\x03\x11")?;
    frames.extend_from_slice(&key.to_be_bytes())?;
    frames.extend_from_slice(b"\x01\x03\x14\x01\x03\x11")?;
    frames.extend_from_slice(&value(key).to_be_bytes())?;
    frames.extend_from_slice(b"\0\x14")?;
    Ok(())
}

// Appends the frames that answer an item: 15 bytes where its value is above 500.
fn append_answer(key: u64, frames: &mut Vec<u8>) -> Result<(), Fail> {
    if value(key) > 500 {
        frames.extend_from_slice(b"\0\x15\x01\x03\x11")?;
        frames.extend_from_slice(&key.to_be_bytes())?;
        frames.extend_from_slice(b"\0\x14")?;
    }
    Ok(())
}

// The frames of the load.
fn feed(alloc: Global) -> Result<Vec<u8>, Fail> {
    let mut frames = b"DEV1".to_vec(alloc)?;
    for key in 0..ITEMS {
        append_item(key, &mut frames)?;
    }
    frames.extend_from_slice(b"\0\x16")?;
    Ok(frames)
}

// The frames that answer it.
fn answer(alloc: Global) -> Result<Vec<u8>, Fail> {
    let mut frames = b"DEV1".to_vec(alloc)?;
    for key in 0..ITEMS {
        append_answer(key, &mut frames)?;
    }
    frames.extend_from_slice(b"\0\x16")?;
    Ok(frames)
}

// The words of a run of the file `program`, and a shelf on which the load's program is that file.
fn given(alloc: Global) -> Result<(Vec<String>, MemShelf), Fail> {
    let mut words = Vec::new(alloc);
    words.push(String::from_str(alloc, "run")?)?;
    words.push(String::from_str(alloc, "program")?)?;
    let mut files = Vec::new(alloc);
    files.push((
        String::from_str(alloc, "program")?,
        LOAD_TEXT.to_vec(alloc)?,
    ))?;
    Ok((words, MemShelf::new(alloc, files, Vec::new(alloc))))
}

// What the load's program writes on these frames in pieces of 30 bytes, and the status.
fn run(alloc: Global, frames: &[u8]) -> Result<(u8, Vec<u8>), Fail> {
    let mut pieces = Vec::new(alloc);
    for piece in frames.chunks(30) {
        pieces.push(piece.to_vec(alloc)?)?;
    }
    let mut link = MemLink::new(alloc, pieces, Vec::new(alloc), Vec::new(alloc), 4096);
    let (words, mut shelf) = given(alloc)?;
    let mut notes = MemSink::new(alloc, Vec::new(alloc));
    let status = delta::<Learner, Coded, Coded, _, _, _>(
        alloc, &words, &mut shelf, &mut link, &mut notes,
    );
    let mut bytes = Vec::new(alloc);
    for step in link.log() {
        if let Move::Out(piece) = step {
            bytes.extend_from_slice(piece.as_slice())?;
        }
    }
    Ok((status, bytes))
}

// Whether the load is answered whole.
fn is_answered(alloc: Global) -> Result<bool, Fail> {
    let (status, bytes) = run(alloc, &feed(alloc)?)?;
    let due = answer(alloc)?;
    Ok(status == 0 && bytes.len() == 748_506 && bytes.as_slice() == due.as_slice())
}

#[test]
fn long_load_is_answered(rt: HostRuntime) -> Result<(), Fail> {
    assert!(rt; is_answered(rt.alloc())?);
    Ok(())
}
