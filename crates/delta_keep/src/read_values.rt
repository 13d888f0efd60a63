//! Values read from bytes, and what code sees of the past.

ghost use Rattle.std.specs.Prelude.{[], ◌∷◌, ◌++◌, map, drop};
ghost use Rattle.hist_value.specs.HistValue.{hist_value_of};
ghost use Rattle.kept_state.specs.KeptBytes.{list_bytes, value_bytes, known_bytes};
ghost use Rattle.kept_state.specs.KeptForm.{type_kind, value_kind, value_item, known_item, any, form, list_part};
ghost use Rattle.delta_keep.specs.KeptView.{known_of};
ghost use Rattle.kept_state.specs.KeptSizes.{FitsValue, FitsKnown};
ghost use Rattle.delta_keep.specs.Reads.{Reads, FitsList};

use crate::halt::Halt;
use crate::kept::Known;
use crate::pushing::{added, pushed};
use crate::read_numbers::{boxed, misplaced, read_form, read_short};
use crate::read_types::read_name_type;
use crate::values_done::{one_done, read_number, two_done};
use hist_value::Value;
use std::alloc::Global;

/// A value.
#[cycle(read_values)]
pub(crate) fn read_value(
    alloc: Global,
    bytes: &[u8],
    start: usize,
    left: u32,
) -> Result<(Box<Value>, usize), Halt>
    ensures reads { Reads (form value_kind ∷ []) (drop start bytes.now) (λ x. value_bytes (hist_value_of x.0.value)) (λ x. drop x.1 bytes.now) (λ x. FitsValue (hist_value_of x.0.value)) result }
{
    let (form, next, left) = read_form(bytes, start, left)?;
    match form {
        0 => boxed(alloc, Value::Unit, next),
        1 => read_number(alloc, bytes, next),
        2 => two_done(alloc, two_values(alloc, bytes, next, left)),
        3 => one_done(alloc, 3, read_value(alloc, bytes, next, left)),
        4 => one_done(alloc, 4, read_value(alloc, bytes, next, left)),
        5 => read_list(alloc, bytes, next, left),
        _ => Err(misplaced(bytes, start)),
    }
}

#[cycle(read_values)]
fn two_values(
    alloc: Global,
    bytes: &[u8],
    start: usize,
    left: u32,
) -> Result<(Box<Value>, Box<Value>, usize), Halt>
    ensures reads { Reads (form value_kind ∷ form value_kind ∷ []) (drop start bytes.now) (λ x. value_bytes (hist_value_of x.0.value) ++ value_bytes (hist_value_of x.1.value)) (λ x. drop x.2 bytes.now) (λ x. FitsValue (hist_value_of x.0.value) × FitsValue (hist_value_of x.1.value)) result }
{
    let (first, next) = read_value(alloc, bytes, start, left)?;
    let (second, next) = read_value(alloc, bytes, next, left)?;
    Ok((first, second, next))
}

// A list, behind its form.
#[cycle(read_values)]
fn read_list(
    alloc: Global,
    bytes: &[u8],
    start: usize,
    left: u32,
) -> Result<(Box<Value>, usize), Halt>
    ensures reads { Reads (form value_kind ∷ []) (5 ∷ drop start bytes.now) (λ x. value_bytes (hist_value_of x.0.value)) (λ x. drop x.1 bytes.now) (λ x. FitsValue (hist_value_of x.0.value)) result }
{
    let (items, next) = read_values(alloc, bytes, start, left)?;
    boxed(alloc, Value::List(items), next)
}

#[cycle(read_values)]
fn read_values(
    alloc: Global,
    bytes: &[u8],
    start: usize,
    left: u32,
) -> Result<(Vec<Value>, usize), Halt>
    ensures reads { Reads (list_part value_item ∷ []) (drop start bytes.now) (λ x. list_bytes value_bytes (map hist_value_of x.0.items)) (λ x. drop x.1 bytes.now) (λ x. FitsList FitsValue (map hist_value_of x.0.items)) result }
{
    let (count, mut next) = read_short(bytes, start)?;
    let mut items = Vec::new(alloc);
    'items: for _ in 0..count {
        match pushed(&mut items, read_value(alloc, bytes, next, left)) {
            Ok(behind) => next = behind,
            Err(halt) => {
                drop(items);
                return Err(halt);
            }
        }
    }
    Ok((items, next))
}

fn read_known(alloc: Global, bytes: &[u8], start: usize, left: u32) -> Result<(Known, usize), Halt>
    ensures reads { Reads (any 4 ∷ form type_kind ∷ form value_kind ∷ []) (drop start bytes.now) (λ x. known_bytes (known_of x.0)) (λ x. drop x.1 bytes.now) (λ x. FitsKnown (known_of x.0)) result }
{
    let (name, ty, next) = read_name_type(alloc, bytes, start, left)?;
    let (value, next) = read_value(alloc, bytes, next, left)?;
    Ok((Known { name, ty, value }, next))
}

/// What code sees of the past.
pub(crate) fn read_past(
    alloc: Global,
    bytes: &[u8],
    start: usize,
    left: u32,
) -> Result<(Vec<Known>, usize), Halt>
    ensures reads { Reads (list_part known_item ∷ []) (drop start bytes.now) (λ x. list_bytes known_bytes (map known_of x.0.items)) (λ x. drop x.1 bytes.now) (λ x. FitsList FitsKnown (map known_of x.0.items)) result }
{
    let (count, mut next) = read_short(bytes, start)?;
    let mut items = Vec::new(alloc);
    'items: for _ in 0..count {
        match added(&mut items, read_known(alloc, bytes, next, left)) {
            Ok(behind) => next = behind,
            Err(halt) => {
                drop(items);
                return Err(halt);
            }
        }
    }
    Ok((items, next))
}
