//! Types and marks of semicolons read from bytes.

ghost use Rattle.std.specs.Prelude.{[], ◌∷◌, ◌++◌, ⊤, map, length, drop};
ghost use Rattle.stream_type.specs.StreamType.{type_of};
ghost use Rattle.kept_state.specs.KeptBytes.{short_bytes, list_bytes, bool_bytes, type_bytes};
ghost use Rattle.kept_state.specs.KeptForm.{bool_kind, type_kind, bool_item, type_item, any, form, list_part};
ghost use Rattle.kept_state.specs.KeptSizes.{FitsShort};
ghost use Rattle.delta_keep.specs.Reads.{Reads};

use crate::halt::Halt;
use crate::pushing::{added, pushed};
use crate::read_numbers::{boxed, misplaced, read_byte, read_form, read_name, read_short};
use crate::types_done::{one_done, two_done};
use bunch::Name;
use std::alloc::Global;
use stream_type::Ty;

/// A type.
#[cycle(read_types)]
pub(crate) fn read_type(
    alloc: Global,
    bytes: &[u8],
    start: usize,
    left: u32,
) -> Result<(Box<Ty>, usize), Halt>
    ensures reads { Reads (form type_kind ∷ []) (drop start bytes.now) (λ x. type_bytes (type_of x.0.value)) (λ x. drop x.1 bytes.now) (λ x. ⊤) result }
{
    let (form, next, left) = read_form(bytes, start, left)?;
    match form {
        0 => boxed(alloc, Ty::Eps, next),
        1 => boxed(alloc, Ty::One, next),
        2 => boxed(alloc, Ty::Int, next),
        3 => two_done(alloc, 3, two_types(alloc, bytes, next, left)),
        4 => two_done(alloc, 4, two_types(alloc, bytes, next, left)),
        5 => two_done(alloc, 5, two_types(alloc, bytes, next, left)),
        6 => one_done(alloc, read_type(alloc, bytes, next, left)),
        _ => Err(misplaced(bytes, start)),
    }
}

#[cycle(read_types)]
fn two_types(
    alloc: Global,
    bytes: &[u8],
    start: usize,
    left: u32,
) -> Result<(Box<Ty>, Box<Ty>, usize), Halt>
    ensures reads { Reads (form type_kind ∷ form type_kind ∷ []) (drop start bytes.now) (λ x. type_bytes (type_of x.0.value) ++ type_bytes (type_of x.1.value)) (λ x. drop x.2 bytes.now) (λ x. ⊤) result }
{
    let (first, next) = read_type(alloc, bytes, start, left)?;
    let (second, next) = read_type(alloc, bytes, next, left)?;
    Ok((first, second, next))
}

/// A name, and the type beside it.
pub(crate) fn read_name_type(
    alloc: Global,
    bytes: &[u8],
    start: usize,
    left: u32,
) -> Result<(Name, Box<Ty>, usize), Halt>
    ensures reads { Reads (any 4 ∷ form type_kind ∷ []) (drop start bytes.now) (λ x. short_bytes x.0.0 ++ type_bytes (type_of x.1.value)) (λ x. drop x.2 bytes.now) (λ x. FitsShort x.0.0) result }
{
    let (x, next) = read_name(bytes, start)?;
    let (t, next) = read_type(alloc, bytes, next, left)?;
    Ok((x, t, next))
}

/// A list of types.
pub(crate) fn read_types(
    alloc: Global,
    bytes: &[u8],
    start: usize,
    left: u32,
) -> Result<(Vec<Ty>, usize), Halt>
    ensures reads { Reads (list_part type_item ∷ []) (drop start bytes.now) (λ x. list_bytes type_bytes (map type_of x.0.items)) (λ x. drop x.1 bytes.now) (λ x. FitsShort (length (map type_of x.0.items))) result }
{
    let (count, mut next) = read_short(bytes, start)?;
    let mut items = Vec::new(alloc);
    'items: for _ in 0..count {
        match pushed(&mut items, read_type(alloc, bytes, next, left)) {
            Ok(behind) => next = behind,
            Err(halt) => {
                drop(items);
                return Err(halt);
            }
        }
    }
    Ok((items, next))
}

// Whether a mark has come.
fn read_mark(bytes: &[u8], start: usize) -> Result<(bool, usize), Halt>
    ensures reads { Reads (form bool_kind ∷ []) (drop start bytes.now) (λ x. bool_bytes x.0) (λ x. drop x.1 bytes.now) (λ x. ⊤) result }
{
    let (form, next) = read_byte(bytes, start)?;
    match form {
        0 => Ok((false, next)),
        1 => Ok((true, next)),
        _ => Err(misplaced(bytes, start)),
    }
}

/// A list of marks.
pub(crate) fn read_marks(
    alloc: Global,
    bytes: &[u8],
    start: usize,
) -> Result<(Vec<bool>, usize), Halt>
    ensures reads { Reads (list_part bool_item ∷ []) (drop start bytes.now) (λ x. list_bytes bool_bytes x.0.items) (λ x. drop x.1 bytes.now) (λ x. FitsShort (length x.0.items)) result }
{
    let (count, mut next) = read_short(bytes, start)?;
    let mut items = Vec::new(alloc);
    'items: for _ in 0..count {
        match added(&mut items, read_mark(bytes, next)) {
            Ok(behind) => next = behind,
            Err(halt) => {
                drop(items);
                return Err(halt);
            }
        }
    }
    Ok((items, next))
}
