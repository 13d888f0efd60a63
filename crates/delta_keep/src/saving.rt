//! A kept state written as bytes.

ghost use Rattle.std.specs.Prelude.{◌≡◌, ◌∷◌, [], IfOk, length};
ghost use Rattle.kept_state.specs.KeptBytes.{kept_bytes};
ghost use Rattle.kept_state.specs.KeptSizes.{FitsShort, HasSizes};
ghost use Rattle.delta_keep.specs.KeptView.{kept_of, places_kept};
ghost use Rattle.delta_keep.specs.Putting.{Puts, IsCounted};
ghost use Rattle.delta_keep.specs.Saving.{TellsLarge};
ghost use Rattle.delta_keep.specs.Written.{written_kept};

use crate::kept::Kept;
use crate::output::{Output, put_bytes};
use crate::put_numbers::put_long;
use crate::put_parts::{put_marks, put_type, put_types};
use crate::put_states::put_state;
use crate::refusal::SaveRefusal;
use std::alloc::Global;
use stream_type::Memory;

/// The most bytes that a kept state may have.
pub const MOST_BYTES: usize = 1_048_576;

/// The bytes of a kept state. They are refused exactly where they are more than 1,048,576. Where they are answered, its
/// numbers have the sizes with which they are written.
pub fn save(alloc: Global, k: &Kept) -> Result<Vec<u8>, SaveRefusal>
    ensures bytes { IfOk result (λ v. v.items ≡ kept_bytes (kept_of k.now) (places_kept k.now)) }
    ensures sizes { IfOk result (λ v. HasSizes (kept_of k.now)) }
    ensures large { TellsLarge (kept_bytes (kept_of k.now) (places_kept k.now)) result }
{
    match bytes_of(alloc, k) {
        Err(Memory) => Err(SaveRefusal::Memory),
        Ok(out) if out.len() > MOST_BYTES => Err(SaveRefusal::Large(out.len() as u64)),
        Ok(out) => Ok(out),
    }
}

// The bytes of a kept state, however many they are.
fn bytes_of(alloc: Global, k: &Kept) -> Result<Vec<u8>, Memory>
    ensures bytes { IfOk result (λ v. v.items ≡ kept_bytes (kept_of k.now) (places_kept k.now)) }
    ensures sizes { IfOk result (λ v. FitsShort (length v.items) → HasSizes (kept_of k.now)) }
{
    let mut out = Output::new(alloc);
    put_kept(&mut out, k);
    out.finish()
}

// Appends the letters and the version.
fn put_head(out: &mut Output)
    ensures { Puts out.old out.new (0x44 ∷ 0x53 ∷ 0x54 ∷ 0x01 ∷ []) }
{
    put_bytes(out, &[0x44, 0x53, 0x54, 0x01]);
}

// Appends a kept state.
fn put_kept(out: &mut Output, k: &Kept)
    ensures puts { Puts out.old out.new (written_kept k.now) }
    ensures sizes { IsCounted out.new → HasSizes (kept_of k.now) }
{
    put_head(out);
    put_long(out, k.events);
    put_types(out, &k.ins);
    put_marks(out, &k.cuts);
    put_type(out, &k.out);
    put_state(out, &k.state);
}
