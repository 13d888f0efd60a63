//! Rows of bytes, and each call on frames that can want memory.

use event_frame::{FrameFault, Reader, Version, encode, encode_in, encode2};
use event_word::{Event, Leaf, Step};
use std::alloc::Global;
use std::test::Fail;

const END: &[u8] = &[0x44, 0x45, 0x56, 0x31, 0x00, 0x16];

// Whether the event of an end is written as its frame, behind the header of version 1.
fn is_end_written(alloc: Global) -> Result<bool, Fail> {
    let mut out = Vec::new(alloc);
    out.extend_from_slice(Version::V1.header())?;
    encode(&Event::new(Leaf::End), &mut out)?;
    Ok(out.as_slice() == END)
}

// The same, with the version said.
fn is_end_written_in(alloc: Global) -> Result<bool, Fail> {
    let mut out = Vec::new(alloc);
    out.extend_from_slice(Version::V1.header())?;
    encode_in(Version::V1, &Event::new(Leaf::End), &mut out)?;
    Ok(out.as_slice() == END)
}

#[test]
fn end_is_written(rt: HostRuntime) -> Result<(), Fail> {
    assert!(rt; is_end_written(rt.alloc())?);
    assert!(rt; is_end_written_in(rt.alloc())?);
    Ok(())
}

#[test]
fn end_is_read(rt: HostRuntime) -> Result<(), Fail> {
    let mut reader = Reader::new(rt.alloc());
    reader.push(END)?;
    let event = reader.next()?.ok_or("no event")?;
    let end = event.path().len() == 0 && event.leaf() == Leaf::End;
    let none = reader.next()?.is_none();
    let finished = reader.finish() == Ok(()) && reader.version() == 1;
    assert!(rt; end && none && finished);
    Ok(())
}

// The frame of version 2 of the number 7 behind two steps.
fn number_written(alloc: Global) -> Result<Vec<u8>, Fail> {
    let first = Event::new(Leaf::Int(7)).under(Step::First);
    let event = first.ok_or("full")?.under(Step::Left).ok_or("full")?;
    let mut out = Vec::new(alloc);
    encode2(&event, &mut out)?;
    Ok(out)
}

#[test]
fn number_is_written(rt: HostRuntime) -> Result<(), Fail> {
    let out = number_written(rt.alloc())?;
    let frame = [0x02, 0x70, 0x11, 0, 0, 0, 0, 0, 0, 0, 7];
    let written = out.as_slice() == frame.as_slice();
    assert!(rt; written);
    Ok(())
}

#[test]
fn room_is_reserved(rt: HostRuntime) -> Result<(), Fail> {
    let mut reader = Reader::new(rt.alloc());
    reader.reserve(4137)?;
    reader.push(&[0x44, 0x45, 0x56, 0x31, 0x01, 0x03])?;
    let none = reader.next()?.is_none();
    let stands = reader.left() == 2 && reader.taken() == 4;
    let cut = reader.finish() == Err(FrameFault::Truncated(6));
    assert!(rt; none && stands && cut);
    Ok(())
}

// The fault that the first `next` answers, of at most six bytes.
fn fault_in(alloc: Global, bytes: &[u8]) -> Result<Option<FrameFault>, Fail> {
    let mut reader = Reader::new(alloc);
    if bytes.len() <= 6 {
        reader.push(bytes)?;
    }
    Ok(reader.next().err())
}

// Whether each of these bytes has its fault.
fn have_faults(alloc: Global, rows: &[(&[u8], FrameFault)]) -> Result<bool, Fail> {
    let mut all = true;
    for (bytes, fault) in rows {
        all = all && fault_in(alloc, bytes)? == Some(*fault);
    }
    Ok(all)
}

#[test]
fn faults_of_version_1(rt: HostRuntime) -> Result<(), Fail> {
    let rows: [(&[u8], FrameFault); 4] = [
        (&[0x44, 0x45, 0x56, 0x31, 0x20], FrameFault::LongPath(4, 32)),
        (
            &[0x44, 0x45, 0x56, 0x31, 0x01, 0x07],
            FrameFault::BadStep(5, 7),
        ),
        (
            &[0x44, 0x45, 0x56, 0x31, 0x00, 0x20],
            FrameFault::BadLeaf(5, 0x20),
        ),
        (&[0x44, 0x45, 0x56, 0x33], FrameFault::BadMagic(3)),
    ];
    assert!(rt; have_faults(rt.alloc(), &rows)?);
    Ok(())
}

#[test]
fn faults_of_version_2(rt: HostRuntime) -> Result<(), Fail> {
    let rows: [(&[u8], FrameFault); 3] = [
        (
            &[0x44, 0x45, 0x56, 0x32, 0x01, 0xC1],
            FrameFault::BadStep(5, 0xC1),
        ),
        (
            &[0x44, 0x45, 0x56, 0x32, 0x01, 0x00],
            FrameFault::BadStep(5, 0),
        ),
        (&[0x44, 0x45, 0x56, 0x32, 0x40], FrameFault::LongPath(4, 64)),
    ];
    assert!(rt; have_faults(rt.alloc(), &rows)?);
    Ok(())
}
