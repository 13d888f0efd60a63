//! States on which shapes are laid: numbers and depths are found for the keys of the shape.

ghost use Rattle.std.specs.Prelude.{◌≡◌, true, Ok, map};
ghost use Rattle.stream_type.specs.StreamType.{type_of};
ghost use Rattle.machine_parts.specs.Entry.{entry_in};
ghost use Rattle.template_state.specs.Readers.{known_in, later_in, held_in, state_in, arguments_in};
ghost use Rattle.filled_states.specs.Filled.{filled_state};
ghost use Rattle.state_shapes.specs.RegisterLists.{RegisterLists, IsParallel, Longer, lists_in};
ghost use Rattle.state_shapes.specs.From.{known_from, held_from, later_from, state_from, arguments_from};
ghost use Rattle.state_shapes.specs.Goes.{Goes};

use crate::found::{Found, depth_goes, goes_on};
use crate::matching_values::{prefix_goes, value_goes};
use crate::same_code::same_op;
use bunch::Name;
use machine_parts::entry::Entry;
use stream_type::{Memory, Ty, same};
use template_state::{Arguments, Later, Live, Past};

/// Whether the state is the shape with numbers and depths in the place of its keys, those that were found before among
/// them. What stands beside further keys is found. It is false where names, types, code or forms differ, or where a key
/// has another number or depth already. Its only error is want of memory.
pub fn match_state(shape: &Live, s: &Live, found: &mut Found) -> Result<bool, Memory>
    ensures grown { Longer (lists_in found.old) (lists_in found.new) }
    ensures holds { IsParallel (lists_in found.old) → result ≡ Ok true → (l : RegisterLists) → Longer (lists_in found.new) l
        → state_in s.now ≡ filled_state l.keys l.numbers l.depth_keys l.depths (state_in shape.now) }
{
    state_goes(Ok(true), shape, s, found)
}

// A state, behind what was matched before.
#[cycle(state_goes)]
#[tactic(auto, using(crate::proofs::Growing::refusals))]
fn state_goes(
    before: Result<bool, Memory>,
    shape: &Live,
    s: &Live,
    found: &mut Found,
) -> Result<bool, Memory>
    ensures { Goes before (lists_in found.old) (lists_in found.new) result (λ l. state_in s.now ≡ state_from l (state_in shape.now)) }
{
    if !goes_on(&before) {
        return before;
    }
    match (shape, s) {
        (Live::Par(a, b), Live::Par(c, d)) => {
            state_goes(state_goes(Ok(true), a, c, found), b, d, found)
        }
        (Live::Cat(a, l), Live::Cat(b, m)) => {
            state_goes(later_goes(Ok(true), l, m, found), a, b, found)
        }
        (Live::Let(x, t, a, b), Live::Let(y, u, c, d)) => {
            let first = state_goes(Ok(same_typed(*x, t, *y, u)), a, c, found);
            state_goes(first, b, d, found)
        }
        (Live::LetPar(x, y, z, a), Live::LetPar(u, v, w, b)) => {
            state_goes(Ok(same_three(*x, *y, *z, *u, *v, *w)), a, b, found)
        }
        (Live::LetCat(x, y, z, a), Live::LetCat(u, v, w, b)) => {
            state_goes(Ok(same_three(*x, *y, *z, *u, *v, *w)), a, b, found)
        }
        (Live::Frame(args, a), Live::Frame(others, b)) => {
            state_goes(arguments_go(Ok(true), args, others, found), a, b, found)
        }
        _ => leaf_goes(shape, s, found),
    }
}

// The arguments of a frame.
#[cycle(state_goes)]
#[tactic(auto, using(crate::proofs::Growing::refusals))]
fn arguments_go(
    before: Result<bool, Memory>,
    shape: &Arguments,
    args: &Arguments,
    found: &mut Found,
) -> Result<bool, Memory>
    ensures { Goes before (lists_in found.old) (lists_in found.new) result (λ l. arguments_in args.now ≡ arguments_from l (arguments_in shape.now)) }
{
    if !goes_on(&before) {
        return before;
    }
    match (shape, args) {
        (Arguments::None, Arguments::None) => Ok(true),
        (Arguments::Before(x, t, a, rest), Arguments::Before(y, u, b, others)) => {
            let first = state_goes(Ok(same_typed(*x, t, *y, u)), a, b, found);
            arguments_go(first, rest, others, found)
        }
        _ => Ok(false),
    }
}

// A form with no state inside.
#[tactic(auto, using(crate::proofs::Growing::refusals))]
fn leaf_goes(shape: &Live, s: &Live, found: &mut Found) -> Result<bool, Memory>
    ensures { Goes (Ok true) (lists_in found.old) (lists_in found.new) result (λ l. state_in s.now ≡ state_from l (state_in shape.now)) }
{
    match (shape, s) {
        (Live::Sink(t), Live::Sink(u)) => Ok(same(t, u)),
        (Live::Var(x), Live::Var(y)) => Ok(same_name(*x, *y)),
        (Live::CaseSum(z, t, held, x, l, y, m), Live::CaseSum(w, u, other, a, k, b, n)) => {
            let named = Ok(same_case(*z, t, *x, *y, *w, u, *a, *b));
            let first = later_goes(held_goes(named, held, other, found), l, k, found);
            later_goes(first, m, n, found)
        }
        (Live::CaseStar(z, t, held, l, x, y, m), Live::CaseStar(w, u, other, k, a, b, n)) => {
            let named = Ok(same_case(*z, t, *x, *y, *w, u, *a, *b));
            let first = later_goes(held_goes(named, held, other, found), l, k, found);
            later_goes(first, m, n, found)
        }
        (Live::Wait(x, t, held, l), Live::Wait(y, u, other, m)) => {
            let named = Ok(same_typed(*x, t, *y, u));
            later_goes(held_goes(named, held, other, found), l, m, found)
        }
        _ => Ok(false),
    }
}

// What is held.
fn held_goes(
    before: Result<bool, Memory>,
    shapes: &[Entry],
    held: &[Entry],
    found: &mut Found,
) -> Result<bool, Memory>
    ensures { Goes before (lists_in found.old) (lists_in found.new) result (λ l. held_in held.now ≡ map (held_from l) (held_in shapes.now)) }
{
    if goes_on(&before) {
        entries_go(shapes, held, found)
    } else {
        before
    }
}

fn entries_go(shapes: &[Entry], held: &[Entry], found: &mut Found) -> Result<bool, Memory>
    ensures { Goes (Ok true) (lists_in found.old) (lists_in found.new) result (λ l. held_in held.now ≡ map (held_from l) (held_in shapes.now)) }
{
    let mut others = held;
    for shape in shapes {
        let Some((entry, rest)) = others.split_first() else {
            return Ok(false);
        };
        let so_far = entry_goes(shape, entry, found);
        if !goes_on(&so_far) {
            return so_far;
        }
        others = rest;
    }
    Ok(others.is_empty())
}

fn entry_goes(shape: &Entry, entry: &Entry, found: &mut Found) -> Result<bool, Memory>
    ensures { Goes (Ok true) (lists_in found.old) (lists_in found.new) result (λ l. entry_in entry.now ≡ held_from l (entry_in shape.now)) }
{
    let named = Ok(same_typed(shape.name, &shape.ty, entry.name, &entry.ty));
    prefix_goes(named, &shape.prefix, &entry.prefix, found)
}

// Code that isn't reached.
fn later_goes(
    before: Result<bool, Memory>,
    shape: &Later,
    l: &Later,
    found: &mut Found,
) -> Result<bool, Memory>
    ensures { Goes before (lists_in found.old) (lists_in found.new) result (λ x. later_in l.now ≡ later_from x (later_in shape.now)) }
{
    if !goes_on(&before) {
        return before;
    }
    let coded = Ok(same_op(&shape.code, &l.code));
    let first = depth_goes(coded, shape.depth, l.depth, found);
    past_goes(first, &shape.past, &l.past, found)
}

// Historical names with their values.
#[tactic(auto, using(crate::proofs::Growing::refusals))]
fn past_goes(
    before: Result<bool, Memory>,
    shape: &Past,
    past: &Past,
    found: &mut Found,
) -> Result<bool, Memory>
    ensures { Goes before (lists_in found.old) (lists_in found.new) result (λ l. known_in past.now ≡ map (known_from l) (known_in shape.now)) }
{
    if !goes_on(&before) {
        return before;
    }
    match (shape, past) {
        (Past::None, Past::None) => Ok(true),
        (Past::Known(x, t, v, older), Past::Known(y, u, w, others)) => {
            let first = value_goes(Ok(same_typed(*x, t, *y, u)), v, w, found);
            past_goes(first, older, others, found)
        }
        _ => Ok(false),
    }
}

fn same_name(x: Name, y: Name) -> bool
    ensures { result ≡ true → x.0 ≡ y.0 }
{
    x == y
}

fn same_three(x: Name, y: Name, z: Name, u: Name, v: Name, w: Name) -> bool
    ensures { result ≡ true → (x.0 ≡ u.0) × (y.0 ≡ v.0) × (z.0 ≡ w.0) }
{
    x == u && y == v && z == w
}

// A name and its type.
fn same_typed(x: Name, t: &Ty, y: Name, u: &Ty) -> bool
    ensures { result ≡ true → (x.0 ≡ y.0) × (type_of t.now ≡ type_of u.now) }
{
    x == y && same(t, u)
}

// The name of a case and its type, and two names that it binds.
fn same_case(z: Name, t: &Ty, x: Name, y: Name, w: Name, u: &Ty, a: Name, b: Name) -> bool
    ensures { result ≡ true → (z.0 ≡ w.0) × (type_of t.now ≡ type_of u.now) × (x.0 ≡ a.0) × (y.0 ≡ b.0) }
{
    x == a && y == b && same_typed(z, t, w, u)
}
