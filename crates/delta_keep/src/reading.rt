//! A kept state read from bytes.

ghost use Rattle.std.specs.Prelude.{◌≡◌, [], ◌∷◌, ⊤, Some, None, IfOk, IfSome, IfNone, drop};
ghost use Rattle.kept_state.specs.KeptBytes.{kept_bytes};
ghost use Rattle.kept_state.specs.KeptForm.{exactly, kept_parts, fault_from, version_fault, form_fault, bad_version};
ghost use Rattle.kept_state.specs.KeptSizes.{HasSizes};
ghost use Rattle.delta_keep.specs.KeptView.{kept_of, places_kept};
ghost use Rattle.delta_keep.specs.Reading.{Ends, TellsFault};
ghost use Rattle.delta_keep.specs.Reads.{Reads};
ghost use Rattle.delta_keep.specs.Written.{written_kept};

use crate::fault::ReadFault;
use crate::halt::Halt;
use crate::kept::Kept;
use crate::read_numbers::{read_exactly, read_long, unread};
use crate::read_states::read_state;
use crate::read_types::{read_marks, read_type, read_types};
use crate::saving::MOST_BYTES;
use std::alloc::Global;

/// How deep what is read may nest, its types, terms and values with the state that they stand in. Readers go
/// down a level for each, and so does whatever drops what was read. A level of reading takes at most 848 bytes
/// of stack as the gate builds its tests, so all of these fit into the usual 8 MB. Where bytes nest deeper, the
/// same is told as for want of memory.
const MOST_LEVELS: u32 = 4_000;

/// The kept state with these bytes. They are refused where their form is wrong, and for that alone: nothing
/// is asked of types. The numbers of what is read have their sizes.
#[tactic(auto, using(crate::proofs::PlacedBytes::written_kept_is, crate::proofs::Faults::many_told, crate::proofs::Faults::version_told, crate::proofs::Faults::fault_told))]
pub fn read_kept(alloc: Global, bytes: &[u8]) -> Result<Kept, ReadFault>
    ensures bytes { IfOk result (λ k. bytes.now ≡ kept_bytes (kept_of k) (places_kept k)) }
    ensures fault { TellsFault (form_fault bytes.now) result }
    ensures sizes { IfOk result (λ k. HasSizes (kept_of k)) }
{
    if bytes.len() > MOST_BYTES {
        return Err(ReadFault::Form(MOST_BYTES as u64));
    }
    if let Some(version) = other_version(bytes) {
        return Err(ReadFault::Version(version));
    }
    match read_whole(alloc, bytes) {
        Ok(k) => Ok(k),
        Err(Halt::At(left)) => Err(ReadFault::Form((bytes.len() - left) as u64)),
        Err(Halt::Memory) => Err(ReadFault::Memory),
    }
}

// The version behind the right letters, where it isn't 1.
fn other_version(bytes: &[u8]) -> Option<u8>
    ensures none { IfNone result (version_fault bytes.now ≡ None) }
    ensures some { IfSome result (λ n. version_fault bytes.now ≡ Some (bad_version n)) }
{
    match bytes {
        [0x44, 0x53, 0x54, version, ..] if *version != 1 => Some(*version),
        _ => None,
    }
}

// The kept state that all of these bytes spell.
fn read_whole(alloc: Global, bytes: &[u8]) -> Result<Kept, Halt>
    ensures spelled { IfOk result (λ k. bytes.now ≡ written_kept k) }
    ensures sizes { IfOk result (λ k. HasSizes (kept_of k)) }
    ensures ended { Ends bytes.now result (fault_from kept_parts 0 bytes.now) }
{
    let (k, next) = read_parts(alloc, bytes)?;
    match unread(bytes, next).len() {
        0 => Ok(k),
        left => Err(Halt::At(left)),
    }
}

// The letters and the version.
fn read_head(bytes: &[u8]) -> Result<&[u8], Halt>
    ensures reads { Reads (exactly 0x44 ∷ exactly 0x53 ∷ exactly 0x54 ∷ exactly 0x01 ∷ []) bytes.now (λ rest. 0x44 ∷ 0x53 ∷ 0x54 ∷ 0x01 ∷ []) (λ rest. rest.now) (λ rest. ⊤) result }
{
    let behind_d = read_exactly(0x44, bytes)?;
    let behind_s = read_exactly(0x53, behind_d)?;
    let behind_t = read_exactly(0x54, behind_s)?;
    read_exactly(0x01, behind_t)
}

// Where the letters and the version end.
fn behind_head(bytes: &[u8]) -> Result<usize, Halt>
    ensures reads { Reads (exactly 0x44 ∷ exactly 0x53 ∷ exactly 0x54 ∷ exactly 0x01 ∷ []) bytes.now (λ n. 0x44 ∷ 0x53 ∷ 0x54 ∷ 0x01 ∷ []) (λ n. drop n bytes.now) (λ n. ⊤) result }
{
    match read_head(bytes) {
        Ok(_) => Ok(4),
        Err(halt) => Err(halt),
    }
}

// A kept state, and where what is behind it starts.
fn read_parts(alloc: Global, bytes: &[u8]) -> Result<(Kept, usize), Halt>
    ensures reads { Reads kept_parts bytes.now (λ x. written_kept x.0) (λ x. drop x.1 bytes.now) (λ x. HasSizes (kept_of x.0)) result }
{
    let body = behind_head(bytes)?;
    let (events, next) = read_long(bytes, body)?;
    let (ins, next) = read_types(alloc, bytes, next, MOST_LEVELS)?;
    let (cuts, next) = read_marks(alloc, bytes, next)?;
    let (out, next) = read_type(alloc, bytes, next, MOST_LEVELS)?;
    let (state, next) = read_state(alloc, bytes, next, MOST_LEVELS)?;
    Ok((
        Kept {
            events,
            ins,
            cuts,
            out,
            state,
        },
        next,
    ))
}
