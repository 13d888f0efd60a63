//! The frames of events.

ghost use Rattle.std.specs.Prelude.{◌≡◌, ◌+◌, ◌<◌, ◌≤◌, ◌++◌, length, map, slice_get, vec_len, vec_capacity, OnOk, OnErr};
ghost use Rattle.std.specs.Option.{option_map_or};
ghost use Rattle.event_frame.specs.declared.version.Version.TheVariants.{V1, V2};
ghost use Rattle.event_frame.specs.Frames.{step_code, packed, leaf_bytes, frame, longest};

use crate::version::Version;
use event_word::{Event, Leaf, Step};
use stream_type::Memory;

/// Appends the one frame of version 1. After `Memory` all is unchanged.
pub fn encode(x: &Event, out: &mut Vec<u8>) -> Result<(), Memory>
    requires { length x.now.path ≤ 31 }
    ensures ok { OnOk result (out.new.items ≡ out.old.items ++ frame V1 x.now) }
    ensures err { OnErr result (out.new.items ≡ out.old.items) }
    ensures room { OnErr result (vec_capacity out.new ≡ vec_capacity out.old) }
{
    write_frame(Version::V1, x, out)
}

/// Appends the one frame of version 2. After `Memory` all is unchanged.
pub fn encode2(x: &Event, out: &mut Vec<u8>) -> Result<(), Memory>
    ensures ok { OnOk result (out.new.items ≡ out.old.items ++ frame V2 x.now) }
    ensures err { OnErr result (out.new.items ≡ out.old.items) }
    ensures room { OnErr result (vec_capacity out.new ≡ vec_capacity out.old) }
{
    write_frame(Version::V2, x, out)
}

/// Appends the one frame of a version. After `Memory` all is unchanged.
pub fn encode_in(version: Version, x: &Event, out: &mut Vec<u8>) -> Result<(), Memory>
    requires { length x.now.path ≤ longest version }
    ensures ok { OnOk result (out.new.items ≡ out.old.items ++ frame version x.now) }
    ensures err { OnErr result (out.new.items ≡ out.old.items) }
    ensures room { OnErr result (vec_capacity out.new ≡ vec_capacity out.old) }
{
    write_frame(version, x, out)
}

// The room is taken first, so that nothing after it can be refused.
fn write_frame(version: Version, x: &Event, out: &mut Vec<u8>) -> Result<(), Memory>
    ensures ok { OnOk result (out.new.items ≡ out.old.items ++ frame version x.now) }
    ensures err { OnErr result (out.new.items ≡ out.old.items) }
    ensures room { OnErr result (vec_capacity out.new ≡ vec_capacity out.old) }
{
    let path = x.path();
    out.reserve(path.len() + 10)?;
    out.push_reserved(path.len() as u8);
    match version {
        Version::V1 => write_path(path, out),
        Version::V2 => write_packed(path, out),
    }
    write_leaf(x.leaf(), out);
    Ok(())
}

fn write_path(path: &[Step], out: &mut Vec<u8>)
    requires { vec_len out.old + length path.now ≤ vec_capacity out.old }
    ensures items { out.new.items ≡ out.old.items ++ map step_code path.now }
    ensures len { vec_len out.new ≤ vec_len out.old + length path.now }
    ensures room { vec_capacity out.new ≡ vec_capacity out.old }
{
    if let Some((step, rest)) = path.split_first() {
        out.push_reserved(code_of(*step));
        write_path(rest, out);
    }
}

fn write_packed(path: &[Step], out: &mut Vec<u8>)
    requires { vec_len out.old + length path.now ≤ vec_capacity out.old }
    ensures items { out.new.items ≡ out.old.items ++ packed path.now }
    ensures len { vec_len out.new ≤ vec_len out.old + length path.now }
    ensures room { vec_capacity out.new ≡ vec_capacity out.old }
{
    if path.is_empty() {
        return;
    }
    let byte = 64 * code_at(path, 0)
        + 16 * code_at(path, 1)
        + 4 * code_at(path, 2)
        + code_at(path, 3);
    out.push_reserved(byte);
    write_packed(&path[path.len().min(4)..], out);
}

// The number of the step at an index, or 0 where the path has none.
fn code_at(path: &[Step], index: usize) -> u8
    ensures code { result ≡ option_map_or step_code (slice_get path.now index) 0 }
    ensures small { result < 4 }
{
    if index < path.len() {
        code_of(path[index])
    } else {
        0
    }
}

fn code_of(step: Step) -> u8
    ensures { result ≡ step_code step }
{
    match step {
        Step::Left => 1,
        Step::Right => 2,
        Step::First => 3,
    }
}

fn write_leaf(leaf: Leaf, out: &mut Vec<u8>)
    requires { vec_len out.old + 9 ≤ vec_capacity out.old }
    ensures items { out.new.items ≡ out.old.items ++ leaf_bytes leaf }
    ensures room { vec_capacity out.new ≡ vec_capacity out.old }
{
    match leaf {
        Leaf::One => out.push_reserved(0x10),
        Leaf::Int(n) => {
            out.push_reserved(0x11);
            for byte in n.to_be_bytes() {
                out.push_reserved(byte);
            }
        }
        Leaf::Inl => out.push_reserved(0x12),
        Leaf::Inr => out.push_reserved(0x13),
        Leaf::Cut => out.push_reserved(0x14),
        Leaf::Item => out.push_reserved(0x15),
        Leaf::End => out.push_reserved(0x16),
    }
}
