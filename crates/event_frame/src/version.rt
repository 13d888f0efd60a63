//! The two versions of frames.

ghost use Rattle.std.specs.Prelude.{◌≡◌, ◌≤◌};
ghost use Rattle.event_frame.specs.Frames.{header, longest};

/// A version of frames.
#[derive(Clone, Copy, PartialEq, Eq, Debug)]
pub enum Version {
    /// A step in each byte, at most 31 steps.
    V1,
    /// Four steps in each byte, at most 63 steps.
    V2,
}

impl Version {
    /// The bytes at which a stream begins (`header` of `specs/Frames.antt`).
    pub fn header(self) -> &'static [u8]
        ensures { result.now ≡ header self }
    {
        match self {
            Version::V1 => b"DEV1",
            Version::V2 => b"DEV2",
        }
    }

    /// The most steps that a path has (`longest` of `specs/Frames.antt`).
    pub fn longest(self) -> u8
        ensures longest { result ≡ longest self }
        ensures small { result ≤ 63 }
    {
        match self {
            Version::V1 => 31,
            Version::V2 => 63,
        }
    }
}
