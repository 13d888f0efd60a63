//! What stands at the front of some bytes.

ghost use Rattle.std.specs.Prelude.{◌≡◌, ◌+◌, ◌^◌, ◌<◌, ◌≤◌, length, is_some, IfSome};
ghost use Rattle.event_frame.specs.Frames.{longest};
ghost use Rattle.event_frame.specs.Reading.{step_of, leaf_of, steps_in};
ghost use Rattle.event_frame.specs.Front.{IsAtPath, IsTail, IsFront, IsHeader, IsBehind, behind};

use crate::fault::FrameFault;
use crate::version::Version;
use event_word::{Event, Leaf, Step};

/// What stands at the front of bytes.
#[derive(Clone, Copy)]
pub(crate) enum Front {
    /// A whole frame: its event, and how many bytes it has.
    Frame(Event, usize),
    /// A proper part of a frame, or nothing.
    Part,
    /// A byte that can't stand there.
    Fault(FrameFault),
}

/// The version of the header at the front of the bytes, of which these letters and the digit are
/// still to come, or none where only a part of it is there. `at` bytes came before.
pub(crate) fn header_of(
    letters: &[u8],
    bytes: &[u8],
    at: u64,
) -> Result<Option<Version>, FrameFault>
    requires { at + length letters.now < 2 ^ 64 }
    ensures { IsHeader letters.now at bytes.now result }
{
    let Some((byte, rest)) = bytes.split_first() else {
        return Ok(None);
    };
    match letters.split_first() {
        Some((letter, letters)) => {
            if *byte == *letter {
                header_of(letters, rest, at + 1)
            } else {
                Err(FrameFault::BadMagic(at))
            }
        }
        None => {
            if *byte == 0x31 {
                Ok(Some(Version::V1))
            } else if *byte == 0x32 {
                Ok(Some(Version::V2))
            } else {
                Err(FrameFault::BadMagic(at))
            }
        }
    }
}

/// What stands at the front of the bytes between frames. `at` bytes came before.
pub(crate) fn front_of(version: Version, bytes: &[u8], at: u64) -> Front
    requires { at + length bytes.now < 2 ^ 64 }
    ensures { IsFront version at bytes.now result }
{
    let Some((count, rest)) = bytes.split_first() else {
        return Front::Part;
    };
    if *count > version.longest() {
        return Front::Fault(FrameFault::LongPath(at, *count));
    }
    if let Some((event, used)) = read_plain(version, *count as usize, rest) {
        return Front::Frame(event, used + 1);
    }
    match read_path(version, *count as usize, rest, at + 1) {
        Front::Frame(event, used) => Front::Frame(event, used + 1),
        Front::Part => Front::Part,
        Front::Fault(fault) => Front::Fault(fault),
    }
}

// The event of a frame of version 1 that is whole, behind its number of steps, and how many bytes it has: it is read
// from its leaf back. Where there is none, `read_path` tells what is there instead.
fn read_plain(version: Version, count: usize, bytes: &[u8]) -> Option<(Event, usize)>
    requires { count ≤ 63 }
    ensures { IfSome result (λ r. IsTail version count bytes.now r.0 r.1) }
{
    let Version::V1 = version else {
        return None;
    };
    if bytes.len() <= count {
        return None;
    }
    match read_leaf(version, &bytes[count..], 0) {
        Front::Frame(event, used) => match behind_bytes(&bytes[..count], event) {
            Some(longer) => Some((longer, count + used)),
            None => None,
        },
        _ => None,
    }
}

// The event behind steps that have a byte each, where all of these are steps.
fn behind_bytes(steps: &[u8], event: Event) -> Option<Event>
    requires { length event.path + length steps.now ≤ 63 }
    ensures { IfSome result (IsBehind steps.now event) }
{
    let mut longer = event;
    let mut i = steps.len();
    while i > 0 {
        i -= 1;
        let Some(step) = step_of(steps[i]) else {
            return None;
        };
        let Some(one_more) = longer.under(step) else {
            return None;
        };
        longer = one_more;
    }
    Some(longer)
}

// The end of a frame: `left` steps and the leaf.
fn read_path(version: Version, left: usize, bytes: &[u8], at: u64) -> Front
    requires steps { left ≤ 63 }
    requires place { at + length bytes.now < 2 ^ 64 }
    ensures { IsAtPath version left at bytes.now result }
{
    if left == 0 {
        return read_leaf(version, bytes, at);
    }
    let Some((byte, rest)) = bytes.split_first() else {
        return Front::Part;
    };
    let whole = [*byte];
    let quarters = [byte / 64, byte / 16 % 4, byte / 4 % 4, byte % 4];
    let parts: &[u8] = match version {
        Version::V1 => &whole,
        Version::V2 => &quarters,
    };
    if !holds_steps(left, parts) {
        return Front::Fault(FrameFault::BadStep(at, *byte));
    }
    match read_path(version, left.saturating_sub(parts.len()), rest, at + 1) {
        Front::Frame(event, used) => match with_steps(left, parts, event) {
            Some(longer) => Front::Frame(longer, used + 1),
            None => Front::Fault(FrameFault::BadStep(at, *byte)),
        },
        Front::Part => Front::Part,
        Front::Fault(fault) => Front::Fault(fault),
    }
}

// Whether the parts of a byte are steps where `left` are to come.
fn holds_steps(left: usize, parts: &[u8]) -> bool
    ensures { result ≡ is_some (steps_in left parts.now) }
{
    match parts.split_first() {
        None => true,
        Some((part, rest)) => {
            if left == 0 {
                *part == 0 && holds_steps(left, rest)
            } else {
                step_of(*part).is_some() && holds_steps(left - 1, rest)
            }
        }
    }
}

// The event behind the steps in the parts of a byte.
fn with_steps(left: usize, parts: &[u8], event: Event) -> Option<Event>
    requires { length event.path + length parts.now ≤ 63 }
    ensures { result ≡ behind (steps_in left parts.now) event }
{
    match parts.split_first() {
        None => Some(event),
        Some((part, rest)) => {
            if left == 0 {
                if *part == 0 {
                    with_steps(left, rest, event)
                } else {
                    None
                }
            } else {
                match step_of(*part) {
                    None => None,
                    Some(step) => match with_steps(left - 1, rest, event) {
                        None => None,
                        Some(longer) => longer.under(step),
                    },
                }
            }
        }
    }
}

fn step_of(part: u8) -> Option<Step>
    ensures { result ≡ step_of part }
{
    match part {
        1 => Some(Step::Left),
        2 => Some(Step::Right),
        3 => Some(Step::First),
        _ => None,
    }
}

// The leaf of a frame.
fn read_leaf(version: Version, bytes: &[u8], at: u64) -> Front
    ensures { IsAtPath version 0 at bytes.now result }
{
    let Some((byte, rest)) = bytes.split_first() else {
        return Front::Part;
    };
    if *byte == 0x11 {
        if rest.len() < 8 {
            return Front::Part;
        }
        let number = i64::from_be_bytes([
            rest[0], rest[1], rest[2], rest[3], rest[4], rest[5], rest[6], rest[7],
        ]);
        return Front::Frame(Event::new(Leaf::Int(number)), 9);
    }
    match leaf_of(*byte) {
        Some(leaf) => Front::Frame(Event::new(leaf), 1),
        None => Front::Fault(FrameFault::BadLeaf(at, *byte)),
    }
}

// The leaf that has no number.
fn leaf_of(byte: u8) -> Option<Leaf>
    ensures { result ≡ leaf_of byte }
{
    match byte {
        0x10 => Some(Leaf::One),
        0x12 => Some(Leaf::Inl),
        0x13 => Some(Leaf::Inr),
        0x14 => Some(Leaf::Cut),
        0x15 => Some(Leaf::Item),
        0x16 => Some(Leaf::End),
        _ => None,
    }
}
