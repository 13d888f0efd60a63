//! Lines and the frames that they become.

use command_text::{End, InputFault, write_frames, write_lines};
use event_frame::{FrameFault, Version};
use event_text::LineFault;
use port::{Link, MemLink, Move};
use std::alloc::Global;
use std::test::Fail;

// A link whose input comes in pieces of at most `most` bytes, and whose writes take as many.
fn link_of(alloc: Global, input: &[u8], most: usize) -> Result<MemLink, Fail> {
    let most = most.max(1);
    let mut pieces = Vec::new(alloc);
    for piece in input.chunks(most) {
        pieces.push(piece.to_vec(alloc)?)?;
    }
    Ok(MemLink::new(alloc, pieces, Vec::new(alloc), Vec::new(alloc), most as u64))
}

// Whether these bytes were written.
fn are_written(alloc: Global, link: &MemLink, output: &[u8]) -> Result<bool, Fail> {
    let mut bytes = Vec::new(alloc);
    for step in link.log() {
        if let Move::Out(piece) = step {
            bytes.extend_from_slice(piece.as_slice())?;
        }
    }
    Ok(bytes.as_slice() == output)
}

// Whether lines in pieces of at most `most` bytes end so, with these frames.
fn become_frames(
    alloc: Global,
    version: Version,
    (lines, most): (&[u8], usize),
    end: End,
    frames: &[u8],
) -> Result<bool, Fail> {
    let mut link = link_of(alloc, lines, most)?;
    let found = write_frames(alloc, version, &mut link);
    Ok(found == end && are_written(alloc, &link, frames)?)
}

const FRAMES: &[u8] = b"DEV1\x00\x15\x01\x03\x11\x00\x00\x00\x00\x00\x00\x00\x03";

#[test]
fn two_lines_become_frames(rt: HostRuntime) -> Result<(), Fail> {
    for most in [1, 3, 100] {
        let lines = (b"item\nF int 3\n".as_slice(), most);
        assert!(rt; become_frames(rt.alloc(), Version::V1, lines, End::Done, FRAMES)?);
    }
    Ok(())
}

#[test]
fn last_line_end_may_be_missing(rt: HostRuntime) -> Result<(), Fail> {
    let (line, frame) = ((b"L R end".as_slice(), 2), b"DEV2\x02\x60\x16");
    assert!(rt; become_frames(rt.alloc(), Version::V2, line, End::Done, frame)?);
    Ok(())
}

// Whether a line that is too long is refused at its place.
fn is_long_refused(alloc: Global) -> Result<bool, Fail> {
    let mut letters = vec![in alloc; b'L'; 257]?;
    letters.push(b'\n')?;
    let mut link = link_of(alloc, &letters, 100)?;
    let end = write_frames(alloc, Version::V1, &mut link);
    Ok(end == End::Input(InputFault::LongLine(0)))
}

#[test]
fn refused_lines(rt: HostRuntime) -> Result<(), Fail> {
    let end = End::Input(InputFault::Line(LineFault::BadWord(0), 4));
    let (lines, frames) = ((b"end\ncat".as_slice(), 4), b"DEV1\x00\x16");
    assert!(rt; become_frames(rt.alloc(), Version::V1, lines, end, frames)?);
    assert!(rt; is_long_refused(rt.alloc())?);
    Ok(())
}

// How a line of 32 steps ends.
fn end_of_long_path(alloc: Global, version: Version) -> Result<End, Fail> {
    let mut line = Vec::new(alloc);
    for _ in 0..32 {
        line.extend_from_slice(b"L ")?;
    }
    line.extend_from_slice(b"one\n")?;
    let mut link = link_of(alloc, &line, 10)?;
    Ok(write_frames(alloc, version, &mut link))
}

#[test]
fn steps_of_each_version(rt: HostRuntime) -> Result<(), Fail> {
    let long = End::Input(InputFault::Line(LineFault::LongPath, 0));
    assert!(rt; end_of_long_path(rt.alloc(), Version::V1)? == long);
    assert!(rt; end_of_long_path(rt.alloc(), Version::V2)? == End::Done);
    Ok(())
}

// Whether frames in pieces of at most `most` bytes end so, with these lines.
fn become_lines(
    alloc: Global,
    (frames, most): (&[u8], usize),
    end: End,
    lines: &[u8],
) -> Result<bool, Fail> {
    let mut link = link_of(alloc, frames, most)?;
    let found = write_lines(alloc, &mut link);
    Ok(found == end && are_written(alloc, &link, lines)?)
}

#[test]
fn frames_become_lines(rt: HostRuntime) -> Result<(), Fail> {
    for most in [1, 5, 100] {
        assert!(rt; become_lines(rt.alloc(), (FRAMES, most), End::Done, b"item\nF int 3\n")?);
    }
    Ok(())
}

#[test]
fn cut_frame_is_refused_behind_the_lines_before(rt: HostRuntime) -> Result<(), Fail> {
    let end = End::Input(InputFault::Frame(FrameFault::Truncated(7)));
    let frames = (b"DEV1\x00\x15\x01".as_slice(), 3);
    assert!(rt; become_lines(rt.alloc(), frames, end, b"item\n")?);
    Ok(())
}
