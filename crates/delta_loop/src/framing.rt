//! The frames of what a program says.

ghost use Rattle.std.specs.Prelude.{◌≡◌, ◌≤◌, IfOk};
ghost use Rattle.stream_type.specs.StreamType.{type_of, reach_of};
ghost use Rattle.stream_prefix.specs.StreamPrefix.{IsPrefix};
ghost use Rattle.stream_prefix.specs.Tree.{prefix_of};
ghost use Rattle.event_word.specs.Canon.{canon};
ghost use Rattle.event_frame.specs.Frames.{frames, longest};

use event_frame::{Version, encode_in};
use std::alloc::Global;
use stream_prefix::Prefix;
use stream_type::{Memory, Ty};

/// The frames of the canonical word of a prefix of the type, in a version whose paths are long enough for
/// it. Its only error is want of memory.
pub fn canonical_frames(
    alloc: Global,
    version: Version,
    t: &Ty,
    p: &Prefix,
) -> Result<Vec<u8>, Memory>
    requires typed { IsPrefix (type_of t.now) (prefix_of p.now) }
    requires short { reach_of (type_of t.now) ≤ longest version }
    ensures { IfOk result (λ bytes. bytes.items ≡ frames version (canon (prefix_of p.now))) }
{
    let word = event_word::canon(alloc, t, p)?;
    let mut bytes = Vec::new(alloc);
    for event in &word {
        encode_in(version, event, &mut bytes)?;
    }
    Ok(bytes)
}
