//! A reader of frames from pieces of any size.

ghost use Rattle.std.specs.Prelude.{◌≡◌, ℕ, ◌+◌, ◌^◌, ◌<◌, ◌≤◌, List, [], ◌++◌, length, drop, IfOk, IfErr, IfSome, IfNone, OnOk, OnErr, IsOk, MatchResult, vec_len, vec_capacity};
ghost use Rattle.event_frame.specs.Frames.{header};
ghost use Rattle.event_frame.specs.Reading.{Between, reading_from, ending};
ghost use Rattle.event_frame.specs.Reads.{Reads, Stays, Gets, Takes, HoldsNoMore, HoldsFault, IsFaultOf, SameBytes, version_number};
ghost use Rattle.event_frame.specs.declared.version.Version.{Version};
ghost use Rattle.event_word.specs.StreamEvent.{StreamEvent};

use crate::fault::FrameFault;
use crate::front::{Front, front_of, header_of};
use crate::version::Version;
use event_word::Event;
use std::alloc::Global;
use std::marker::Model;
use stream_type::Memory;

/// A reader of frames from pieces of any size. It keeps the bytes that it was given and has not
/// taken, and no history: `Reads` of `specs/Reads.antt` says which bytes and events it stands for.
/// Places count the bytes from the first that was given.
#[derive(Drop)]
pub struct Reader {
    bytes: Vec<u8>,
    at: usize,
    taken: u64,
    version: Option<Version>,
}

impl Model for Reader {
    ghost use Rattle.event_frame.specs.FrameReader.{FrameReader};

    ghost Value = { FrameReader };

    ghost use Rattle.event_frame.specs.Inside.{reader_of, IsSound};

    ghost view = { reader_of };

    ghost invariant = { IsSound };
}

impl Reader {
    /// A reader that was given nothing. It keeps the allocator and takes no memory.
    pub fn new(alloc: Global) -> Reader
        ensures reads { Reads result [] [] }
        ensures version { result.version ≡ None }
        ensures kept { result.kept ≡ [] }
        ensures spare { result.spare ≡ 0 }
    {
        Reader {
            bytes: Vec::new(alloc),
            at: 0,
            taken: 0,
            version: None,
        }
    }

    /// Gives the reader more bytes, at most 2^41 in all. A piece of at most `spare` bytes can't be
    /// refused. After `Memory` all is unchanged.
    pub fn push(&mut self, bytes: &[u8]) -> Result<(), Memory>
        requires { self.old.taken + length self.old.kept + length bytes.now ≤ 2 ^ 41 }
        ensures reads { OnOk result (Gets self.old self.new bytes.now) }
        ensures version { self.new.version ≡ self.old.version }
        ensures taken { self.new.taken ≡ self.old.taken }
        ensures kept { OnOk result (self.new.kept ≡ self.old.kept ++ bytes.now) }
        ensures err { OnErr result (self.new ≡ self.old) }

        ensures fits { length bytes.now ≤ self.old.spare → IsOk result }
        ensures room { length self.old.kept + self.old.spare ≤ length self.new.kept + self.new.spare }
    {
        drop_front(&mut self.bytes, self.at);
        self.at = 0;
        self.bytes.reserve(bytes.len())?;
        self.bytes.extend_from_slice(bytes)?;
        Ok(())
    }

    /// The next whole frame's event, or none where no whole frame and no fault is left. A fault is
    /// answered once the frames before it are taken, and again at each later call. The header is
    /// taken by the first call that finds it whole. It takes no memory.
    pub fn next(&mut self) -> Result<Option<Event>, FrameFault>
        ensures event { IfOk result (λ found. IfSome found (λ x. Takes self.old self.new x)) }
        ensures stays { MatchResult result
            (λ found. IfNone found (Stays self.old self.new))
            (λ _. Stays self.old self.new) }
        ensures none { result ≡ Ok None → HoldsNoMore self.new }
        ensures bad { IfErr result (λ fault. HoldsFault self.new fault) }

        ensures header { (v : Version) (more : List ℕ)
            → self.old.version ≡ None → self.old.kept ≡ header v ++ more → self.new.version ≡ Some v }
        ensures version { (v : Version) → self.old.version ≡ Some v → self.new.version ≡ Some v }
        ensures pushed { self.new.taken + length self.new.kept ≡ self.old.taken + length self.old.kept }
        ensures shorter { IfOk result (λ found. IfSome found (λ _. length self.new.kept < length self.old.kept)) }
        ensures little { result ≡ Ok None → length self.new.kept ≤ 40 }
        ensures room { length self.new.kept + self.new.spare ≡ length self.old.kept + self.old.spare }
    {
        match self.take_header() {
            Err(fault) => Err(fault),
            Ok(None) => Ok(None),
            Ok(Some(version)) => self.take_frame(version),
        }
    }

    // The version of the header, which is taken where it is whole and not taken yet.
    fn take_header(&mut self) -> Result<Option<Version>, FrameFault>
        ensures found { IfOk result (λ found. IfSome found (λ v. self.new.version ≡ Some v)) }
        ensures stays { Stays self.old self.new }
        ensures none { result ≡ Ok None → HoldsNoMore self.new }
        ensures bad { IfErr result (λ fault. HoldsFault self.new fault) }
        ensures header { (v : Version) (more : List ℕ)
            → self.old.version ≡ None → self.old.kept ≡ header v ++ more → self.new.version ≡ Some v }
        ensures version { (v : Version) → self.old.version ≡ Some v → self.new.version ≡ Some v }
        ensures pushed { self.new.taken + length self.new.kept ≡ self.old.taken + length self.old.kept }
        ensures shorter { length self.new.kept ≤ length self.old.kept }
        ensures little { result ≡ Ok None → length self.new.kept ≤ 40 }
        ensures room { length self.new.kept + self.new.spare ≡ length self.old.kept + self.old.spare }
    {
        if let Some(version) = self.version {
            return Ok(Some(version));
        }
        match header_of(b"DEV", self.kept(), 0) {
            Err(fault) => Err(fault),
            Ok(None) => Ok(None),
            Ok(Some(version)) => {
                self.at += 4;
                self.taken += 4;
                self.version = Some(version);
                Ok(Some(version))
            }
        }
    }

    // The event of the frame at the front of the kept bytes.
    fn take_frame(&mut self, version: Version) -> Result<Option<Event>, FrameFault>
        requires { self.old.version ≡ Some version }
        ensures event { IfOk result (λ found. IfSome found (λ x. Takes self.old self.new x)) }
        ensures stays { MatchResult result
            (λ found. IfNone found (self.new ≡ self.old))
            (λ _. self.new ≡ self.old) }
        ensures none { result ≡ Ok None → HoldsNoMore self.old }
        ensures bad { IfErr result (λ fault. HoldsFault self.old fault) }
        ensures version { self.new.version ≡ self.old.version }
        ensures pushed { self.new.taken + length self.new.kept ≡ self.old.taken + length self.old.kept }
        ensures shorter { IfOk result (λ found. IfSome found (λ _. length self.new.kept < length self.old.kept)) }
        ensures little { result ≡ Ok None → length self.old.kept ≤ 40 }
        ensures room { length self.new.kept + self.new.spare ≡ length self.old.kept + self.old.spare }
    {
        match front_of(version, self.kept(), self.taken) {
            Front::Frame(event, count) => {
                self.at += count;
                self.taken += count as u64;
                Ok(Some(event))
            }
            Front::Part => Ok(None),
            Front::Fault(fault) => Err(fault),
        }
    }

    /// Whether all the bytes pushed are a header and whole frames, or else the fault that stands in
    /// them. `Truncated` has the number of bytes pushed.
    pub fn finish(&self) -> Result<(), FrameFault>
        ensures { (all : List ℕ) (word : List StreamEvent) → Reads self.now all word
            → IsFaultOf (ending all) (length all) result }
    {
        let kept = self.kept();
        match self.version {
            Some(version) => finish_frames(version, kept, self.taken),
            None => match header_of(b"DEV", kept, 0) {
                Err(fault) => Err(fault),
                Ok(None) => Err(FrameFault::Truncated(kept.len() as u64)),
                Ok(Some(version)) => finish_frames(version, &kept[4..], 4),
            },
        }
    }

    /// The number of bytes of the header and of whole frames that were taken, which is the place of
    /// the next frame once the header is taken.
    pub fn taken(&self) -> u64
        ensures { result ≡ self.now.taken }
    {
        self.taken
    }

    /// 0 until the header is taken, and then the header's version, 1 or 2.
    pub fn version(&self) -> u8
        ensures { result ≡ version_number self.now.version }
    {
        match self.version {
            None => 0,
            Some(Version::V1) => 1,
            Some(Version::V2) => 2,
        }
    }

    /// Makes `spare` at least `n`. After `Memory` all is unchanged.
    pub fn reserve(&mut self, n: u64) -> Result<(), Memory>
        requires { n ≤ 1048576 }
        ensures same { SameBytes self.old self.new }
        ensures ok { OnOk result (n ≤ self.new.spare) }
        ensures fits { n ≤ self.old.spare → IsOk result }
        ensures err { OnErr result (self.new ≡ self.old) }
        ensures room { length self.old.kept + self.old.spare ≤ length self.new.kept + self.new.spare }
    {
        drop_front(&mut self.bytes, self.at);
        self.at = 0;
        self.bytes.reserve(n as usize)?;
        Ok(())
    }

    /// The number of bytes pushed and not taken.
    pub fn left(&self) -> u64
        ensures { result ≡ length self.now.kept }
    {
        (self.bytes.len() - self.at) as u64
    }

    // The bytes pushed and not taken.
    fn kept(&self) -> &[u8]
        ensures { result.now ≡ self.now.kept }
    {
        &self.bytes[self.at..]
    }

    /// How many more bytes there is room for.
    pub fn spare(&self) -> u64
        ensures { result ≡ self.now.spare }
    {
        (self.bytes.capacity() - (self.bytes.len() - self.at)) as u64
    }
}

// Drops the first bytes of a buffer, which keeps its room.
fn drop_front(bytes: &mut Vec<u8>, count: usize)
    requires { count ≤ vec_len bytes.old }
    ensures items { bytes.new.items ≡ drop count bytes.old.items }
    ensures len { vec_len bytes.new + count ≡ vec_len bytes.old }
    ensures room { vec_capacity bytes.new ≡ vec_capacity bytes.old }
{
    if count == 0 {
        return;
    }
    let left = bytes.len() - count;
    bytes.copy_within(count.., 0);
    bytes.truncate(left);
}

// The fault of bytes between frames, behind `at` others.
fn finish_frames(version: Version, bytes: &[u8], at: u64) -> Result<(), FrameFault>
    requires { at + length bytes.now < 2 ^ 64 }
    ensures { IsFaultOf (reading_from (Between version) at bytes.now).ending (at + length bytes.now) result }
{
    let mut rest = bytes;
    let mut place = at;
    'frames: loop {
        match front_of(version, rest, place) {
            Front::Frame(_, count) => {
                rest = &rest[count..];
                place += count as u64;
            }
            Front::Part => {
                return if rest.is_empty() {
                    Ok(())
                } else {
                    Err(FrameFault::Truncated(place + rest.len() as u64))
                };
            }
            Front::Fault(fault) => return Err(fault),
        }
    }
}
