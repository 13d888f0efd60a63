//! Prefixes read from bytes, and what a form holds.

ghost use Rattle.std.specs.Prelude.{[], ◌∷◌, ◌++◌, map, drop};
ghost use Rattle.stream_prefix.specs.Tree.{prefix_of, end_of};
ghost use Rattle.kept_state.specs.KeptBytes.{list_bytes, prefix_bytes, rest_bytes, held_name_bytes};
ghost use Rattle.kept_state.specs.KeptForm.{type_kind, prefix_kind, end_kind, prefix_item, held_item, any, form, list_part};
ghost use Rattle.delta_keep.specs.KeptView.{held_of};
ghost use Rattle.kept_state.specs.KeptSizes.{FitsPrefix, FitsHeldName, FitsHeld};
ghost use Rattle.delta_keep.specs.Reads.{Reads, FitsList};

use crate::halt::Halt;
use crate::kept::HeldName;
use crate::prefixes_done::{one_done, read_number, two_done};
use crate::pushing::{added, pushed};
use crate::read_numbers::{boxed, misplaced, read_form, read_short};
use crate::read_types::read_name_type;
use std::alloc::Global;
use stream_prefix::{Prefix, StarEnd};

/// A prefix.
#[cycle(read_prefixes)]
pub(crate) fn read_prefix(
    alloc: Global,
    bytes: &[u8],
    start: usize,
    left: u32,
) -> Result<(Box<Prefix>, usize), Halt>
    ensures reads { Reads (form prefix_kind ∷ []) (drop start bytes.now) (λ x. prefix_bytes (prefix_of x.0.value)) (λ x. drop x.1 bytes.now) (λ x. FitsPrefix (prefix_of x.0.value)) result }
{
    let (form, next, left) = read_form(bytes, start, left)?;
    match form {
        0 => boxed(alloc, Prefix::EpsEmp, next),
        1 => boxed(alloc, Prefix::OneEmp, next),
        2 => boxed(alloc, Prefix::OneFull, next),
        3 => boxed(alloc, Prefix::IntEmp, next),
        4 => read_number(alloc, bytes, next),
        5 => two_done(alloc, 5, two_prefixes(alloc, bytes, next, left)),
        6 => one_done(alloc, 6, read_prefix(alloc, bytes, next, left)),
        7 => two_done(alloc, 7, two_prefixes(alloc, bytes, next, left)),
        8 => boxed(alloc, Prefix::SumEmp, next),
        9 => one_done(alloc, 9, read_prefix(alloc, bytes, next, left)),
        10 => one_done(alloc, 10, read_prefix(alloc, bytes, next, left)),
        11 => read_star(alloc, bytes, next, left),
        _ => Err(misplaced(bytes, start)),
    }
}

#[cycle(read_prefixes)]
fn two_prefixes(
    alloc: Global,
    bytes: &[u8],
    start: usize,
    left: u32,
) -> Result<(Box<Prefix>, Box<Prefix>, usize), Halt>
    ensures reads { Reads (form prefix_kind ∷ form prefix_kind ∷ []) (drop start bytes.now) (λ x. prefix_bytes (prefix_of x.0.value) ++ prefix_bytes (prefix_of x.1.value)) (λ x. drop x.2 bytes.now) (λ x. FitsPrefix (prefix_of x.0.value) × FitsPrefix (prefix_of x.1.value)) result }
{
    let (first, next) = read_prefix(alloc, bytes, start, left)?;
    let (second, next) = read_prefix(alloc, bytes, next, left)?;
    Ok((first, second, next))
}

// A prefix of a star, behind its form.
#[cycle(read_prefixes)]
fn read_star(
    alloc: Global,
    bytes: &[u8],
    start: usize,
    left: u32,
) -> Result<(Box<Prefix>, usize), Halt>
    ensures reads { Reads (form prefix_kind ∷ []) (11 ∷ drop start bytes.now) (λ x. prefix_bytes (prefix_of x.0.value)) (λ x. drop x.1 bytes.now) (λ x. FitsPrefix (prefix_of x.0.value)) result }
{
    let (items, next) = read_items(alloc, bytes, start, left)?;
    let (end, next) = read_end(alloc, bytes, next, left)?;
    let end = Box::into_inner(end);
    boxed(alloc, Prefix::Star(items, end), next)
}

// The whole items of a star.
#[cycle(read_prefixes)]
fn read_items(
    alloc: Global,
    bytes: &[u8],
    start: usize,
    left: u32,
) -> Result<(Vec<Prefix>, usize), Halt>
    ensures reads { Reads (list_part prefix_item ∷ []) (drop start bytes.now) (λ x. list_bytes prefix_bytes (map prefix_of x.0.items)) (λ x. drop x.1 bytes.now) (λ x. FitsList FitsPrefix (map prefix_of x.0.items)) result }
{
    let (count, mut next) = read_short(bytes, start)?;
    let mut items = Vec::new(alloc);
    'items: for _ in 0..count {
        match pushed(&mut items, read_prefix(alloc, bytes, next, left)) {
            Ok(behind) => next = behind,
            Err(halt) => {
                drop(items);
                return Err(halt);
            }
        }
    }
    Ok((items, next))
}

// What stands after the whole items of a star.
#[cycle(read_prefixes)]
fn read_end(
    alloc: Global,
    bytes: &[u8],
    start: usize,
    left: u32,
) -> Result<(Box<StarEnd>, usize), Halt>
    ensures reads { Reads (form end_kind ∷ []) (drop start bytes.now) (λ x. rest_bytes (end_of x.0.value)) (λ x. drop x.1 bytes.now) (λ x. FitsPrefix (end_of x.0.value)) result }
{
    let (form, next, left) = read_form(bytes, start, left)?;
    match form {
        0 => boxed(alloc, StarEnd::Emp, next),
        1 => boxed(alloc, StarEnd::Done, next),
        2 => {
            let (p, next) = read_prefix(alloc, bytes, next, left)?;
            boxed(alloc, StarEnd::First(p), next)
        }
        _ => Err(misplaced(bytes, start)),
    }
}

fn read_held_name(
    alloc: Global,
    bytes: &[u8],
    start: usize,
    left: u32,
) -> Result<(HeldName, usize), Halt>
    ensures reads { Reads (any 4 ∷ form type_kind ∷ form prefix_kind ∷ []) (drop start bytes.now) (λ x. held_name_bytes (held_of x.0)) (λ x. drop x.1 bytes.now) (λ x. FitsHeldName (held_of x.0)) result }
{
    let (name, ty, next) = read_name_type(alloc, bytes, start, left)?;
    let (prefix, next) = read_prefix(alloc, bytes, next, left)?;
    Ok((HeldName { name, ty, prefix }, next))
}

/// What a form holds.
pub(crate) fn read_held(
    alloc: Global,
    bytes: &[u8],
    start: usize,
    left: u32,
) -> Result<(Vec<HeldName>, usize), Halt>
    ensures reads { Reads (list_part held_item ∷ []) (drop start bytes.now) (λ x. list_bytes held_name_bytes (map held_of x.0.items)) (λ x. drop x.1 bytes.now) (λ x. FitsHeld (map held_of x.0.items)) result }
{
    let (count, mut next) = read_short(bytes, start)?;
    let mut items = Vec::new(alloc);
    'items: for _ in 0..count {
        match added(&mut items, read_held_name(alloc, bytes, next, left)) {
            Ok(behind) => next = behind,
            Err(halt) => {
                drop(items);
                return Err(halt);
            }
        }
    }
    Ok((items, next))
}
