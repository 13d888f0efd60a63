//! States read from bytes.

ghost use Rattle.std.specs.Prelude.{[], ◌∷◌, ◌++◌, map, drop};
ghost use Rattle.stream_type.specs.StreamType.{type_of};
ghost use Rattle.kept_state.specs.KeptBytes.{short_bytes, list_bytes, type_bytes, held_name_bytes};
ghost use Rattle.kept_state.specs.KeptForm.{type_kind, state_kind, held_item, argument_item, any, form, list_part, later_parts};
ghost use Rattle.delta_keep.specs.KeptView.{held_of, later_of, state_of};
ghost use Rattle.delta_keep.specs.Written.{written_later, written_state, written_argument};
ghost use Rattle.kept_state.specs.KeptSizes.{FitsShort, FitsHeld, FitsLater, FitsState};
ghost use Rattle.delta_keep.specs.Reads.{Reads, FitsList, FitsArgument};

use crate::halt::Halt;
use crate::kept::{Argument, HeldName, KeptState, Waiting};
use crate::pushing::added;
use crate::read_numbers::{
    boxed, misplaced, read_form, read_long, read_name, read_names, read_short,
};
use crate::read_prefixes::read_held;
use crate::read_terms::read_node;
use crate::read_types::read_name_type;
use crate::read_values::read_past;
use crate::states_done::{names_done, par_done, read_sink, read_variable};
use bunch::Name;
use std::alloc::Global;
use stream_type::Ty;

// Code that isn't reached.
fn read_later(
    alloc: Global,
    bytes: &[u8],
    start: usize,
    left: u32,
) -> Result<(Box<Waiting>, usize), Halt>
    ensures reads { Reads later_parts (drop start bytes.now) (λ x. written_later x.0.value) (λ x. drop x.1 bytes.now) (λ x. FitsLater (later_of x.0.value)) result }
{
    let (code, next) = read_node(alloc, bytes, start, left)?;
    let (past, next) = read_past(alloc, bytes, next, left)?;
    let (depth, next) = read_long(bytes, next)?;
    boxed(alloc, Waiting { code, past, depth }, next)
}

/// A state.
#[cycle(read_states)]
pub(crate) fn read_state(
    alloc: Global,
    bytes: &[u8],
    start: usize,
    left: u32,
) -> Result<(Box<KeptState>, usize), Halt>
    ensures reads { Reads (form state_kind ∷ []) (drop start bytes.now) (λ x. written_state x.0.value) (λ x. drop x.1 bytes.now) (λ x. FitsState (state_of x.0.value)) result }
{
    let (form, next, left) = read_form(bytes, start, left)?;
    match form {
        0 => read_sink(alloc, bytes, next, left),
        1 => read_variable(alloc, bytes, next),
        2 => par_done(alloc, two_states(alloc, bytes, next, left)),
        3 => read_cat(alloc, bytes, next, left),
        4 => read_let(alloc, bytes, next, left),
        5 => names_done(alloc, 5, names_and_state(alloc, bytes, next, left)),
        6 => names_done(alloc, 6, names_and_state(alloc, bytes, next, left)),
        7 => read_case_sum(alloc, bytes, next, left),
        8 => read_case_star(alloc, bytes, next, left),
        9 => read_wait(alloc, bytes, next, left),
        10 => read_frame(alloc, bytes, next, left),
        _ => Err(misplaced(bytes, start)),
    }
}

#[cycle(read_states)]
fn two_states(
    alloc: Global,
    bytes: &[u8],
    start: usize,
    left: u32,
) -> Result<(Box<KeptState>, Box<KeptState>, usize), Halt>
    ensures reads { Reads (form state_kind ∷ form state_kind ∷ []) (drop start bytes.now) (λ x. written_state x.0.value ++ written_state x.1.value) (λ x. drop x.2 bytes.now) (λ x. FitsState (state_of x.0.value) × FitsState (state_of x.1.value)) result }
{
    let (first, next) = read_state(alloc, bytes, start, left)?;
    let (second, next) = read_state(alloc, bytes, next, left)?;
    Ok((first, second, next))
}

// `(s; t)`, behind its form.
#[cycle(read_states)]
fn read_cat(
    alloc: Global,
    bytes: &[u8],
    start: usize,
    left: u32,
) -> Result<(Box<KeptState>, usize), Halt>
    ensures reads { Reads (form state_kind ∷ []) (3 ∷ drop start bytes.now) (λ x. written_state x.0.value) (λ x. drop x.1 bytes.now) (λ x. FitsState (state_of x.0.value)) result }
{
    let (a, next) = read_state(alloc, bytes, start, left)?;
    let (l, next) = read_later(alloc, bytes, next, left)?;
    let state = KeptState::Cat(a, l);
    boxed(alloc, state, next)
}

// A let, behind its form.
#[cycle(read_states)]
fn read_let(
    alloc: Global,
    bytes: &[u8],
    start: usize,
    left: u32,
) -> Result<(Box<KeptState>, usize), Halt>
    ensures reads { Reads (form state_kind ∷ []) (4 ∷ drop start bytes.now) (λ x. written_state x.0.value) (λ x. drop x.1 bytes.now) (λ x. FitsState (state_of x.0.value)) result }
{
    let (x, t, next) = read_name_type(alloc, bytes, start, left)?;
    let (a, b, next) = two_states(alloc, bytes, next, left)?;
    let state = KeptState::Let(x, t, a, b);
    boxed(alloc, state, next)
}

// The names of a destructuring, and what follows it.
#[cycle(read_states)]
fn names_and_state(
    alloc: Global,
    bytes: &[u8],
    start: usize,
    left: u32,
) -> Result<(Name, Name, Name, Box<KeptState>, usize), Halt>
    ensures reads { Reads (any 4 ∷ any 4 ∷ any 4 ∷ form state_kind ∷ []) (drop start bytes.now) (λ x. short_bytes x.0.0 ++ (short_bytes x.1.0 ++ (short_bytes x.2.0 ++ written_state x.3.value))) (λ x. drop x.4 bytes.now) (λ x. (FitsShort x.0.0 × FitsShort x.1.0 × FitsShort x.2.0) × FitsState (state_of x.3.value)) result }
{
    let (x, y, z, next) = read_names(bytes, start)?;
    let (a, next) = read_state(alloc, bytes, next, left)?;
    Ok((x, y, z, a, next))
}

// A subject, the type of the result, and what is held.
fn read_holding(
    alloc: Global,
    bytes: &[u8],
    start: usize,
    left: u32,
) -> Result<(Name, Box<Ty>, Vec<HeldName>, usize), Halt>
    ensures reads { Reads (any 4 ∷ form type_kind ∷ list_part held_item ∷ []) (drop start bytes.now) (λ x. short_bytes x.0.0 ++ (type_bytes (type_of x.1.value) ++ list_bytes held_name_bytes (map held_of x.2.items))) (λ x. drop x.3 bytes.now) (λ x. FitsShort x.0.0 × FitsHeld (map held_of x.2.items)) result }
{
    let (z, t, next) = read_name_type(alloc, bytes, start, left)?;
    let (held, next) = read_held(alloc, bytes, next, left)?;
    Ok((z, t, held, next))
}

// A case on a sum, behind its form.
fn read_case_sum(
    alloc: Global,
    bytes: &[u8],
    start: usize,
    left: u32,
) -> Result<(Box<KeptState>, usize), Halt>
    ensures reads { Reads (form state_kind ∷ []) (7 ∷ drop start bytes.now) (λ x. written_state x.0.value) (λ x. drop x.1 bytes.now) (λ x. FitsState (state_of x.0.value)) result }
{
    let (z, t, held, next) = read_holding(alloc, bytes, start, left)?;
    let (x, next) = read_name(bytes, next)?;
    let (l, next) = read_later(alloc, bytes, next, left)?;
    let (y, next) = read_name(bytes, next)?;
    let (m, next) = read_later(alloc, bytes, next, left)?;
    let state = KeptState::CaseSum(z, t, held, x, l, y, m);
    boxed(alloc, state, next)
}

// A case on a star, behind its form.
fn read_case_star(
    alloc: Global,
    bytes: &[u8],
    start: usize,
    left: u32,
) -> Result<(Box<KeptState>, usize), Halt>
    ensures reads { Reads (form state_kind ∷ []) (8 ∷ drop start bytes.now) (λ x. written_state x.0.value) (λ x. drop x.1 bytes.now) (λ x. FitsState (state_of x.0.value)) result }
{
    let (z, t, held, next) = read_holding(alloc, bytes, start, left)?;
    let (l, next) = read_later(alloc, bytes, next, left)?;
    let (y, next) = read_name(bytes, next)?;
    let (ys, next) = read_name(bytes, next)?;
    let (m, next) = read_later(alloc, bytes, next, left)?;
    let state = KeptState::CaseStar(z, t, held, l, y, ys, m);
    boxed(alloc, state, next)
}

// A wait, behind its form.
fn read_wait(
    alloc: Global,
    bytes: &[u8],
    start: usize,
    left: u32,
) -> Result<(Box<KeptState>, usize), Halt>
    ensures reads { Reads (form state_kind ∷ []) (9 ∷ drop start bytes.now) (λ x. written_state x.0.value) (λ x. drop x.1 bytes.now) (λ x. FitsState (state_of x.0.value)) result }
{
    let (x, t, held, next) = read_holding(alloc, bytes, start, left)?;
    let (l, next) = read_later(alloc, bytes, next, left)?;
    let state = KeptState::Wait(x, t, held, l);
    boxed(alloc, state, next)
}

// A called body, behind its form.
#[cycle(read_states)]
fn read_frame(
    alloc: Global,
    bytes: &[u8],
    start: usize,
    left: u32,
) -> Result<(Box<KeptState>, usize), Halt>
    ensures reads { Reads (form state_kind ∷ []) (10 ∷ drop start bytes.now) (λ x. written_state x.0.value) (λ x. drop x.1 bytes.now) (λ x. FitsState (state_of x.0.value)) result }
{
    let (args, next) = read_arguments(alloc, bytes, start, left)?;
    let (s, next) = read_state(alloc, bytes, next, left)?;
    let state = KeptState::Frame(args, s);
    boxed(alloc, state, next)
}

// The arguments of a called body.
#[cycle(read_states)]
fn read_arguments(
    alloc: Global,
    bytes: &[u8],
    start: usize,
    left: u32,
) -> Result<(Vec<Argument>, usize), Halt>
    ensures reads { Reads (list_part argument_item ∷ []) (drop start bytes.now) (λ x. list_bytes written_argument x.0.items) (λ x. drop x.1 bytes.now) (λ x. FitsList FitsArgument x.0.items) result }
{
    let (count, mut next) = read_short(bytes, start)?;
    let mut items = Vec::new(alloc);
    'items: for _ in 0..count {
        match added(&mut items, read_argument(alloc, bytes, next, left)) {
            Ok(behind) => next = behind,
            Err(halt) => {
                drop(items);
                return Err(halt);
            }
        }
    }
    Ok((items, next))
}

#[cycle(read_states)]
fn read_argument(
    alloc: Global,
    bytes: &[u8],
    start: usize,
    left: u32,
) -> Result<(Argument, usize), Halt>
    ensures reads { Reads (any 4 ∷ form type_kind ∷ form state_kind ∷ []) (drop start bytes.now) (λ x. written_argument x.0) (λ x. drop x.1 bytes.now) (λ x. FitsArgument x.0) result }
{
    let (name, ty, next) = read_name_type(alloc, bytes, start, left)?;
    let (state, next) = read_state(alloc, bytes, next, left)?;
    Ok((Argument { name, ty, state }, next))
}
