//! States kept: with their marks, and with their code as trees of their own.

ghost use Rattle.std.specs.Prelude.{◌≡◌, ◌++◌, map, IfOk};
ghost use Rattle.stream_type.specs.StreamType.{type_of};
ghost use Rattle.hist_value.specs.HistValue.{hist_value_of};
ghost use Rattle.delta_state.specs.StateTree.{StateTree, ArgumentTrees, sink, par_state, cat_state, let_state, let_par_state, let_cat_state, sum_state, star_state, wait_state, frame_state, argument_before};
ghost use Rattle.machine_parts.specs.Entry.{entry_in};
ghost use Rattle.template_state.specs.Readers.{known_in, later_in, held_in, state_in, arguments_in};
ghost use Rattle.delta_keep.specs.KeptView.{known_of, held_of, later_of, state_of, arguments_from};
ghost use Rattle.machine_kept.specs.Makes.{Makes, kept_in};

use bunch::Name;
use delta_keep::{Argument, HeldName, KeptState, Known, Waiting};
use hist_value::{Value, copy_value};
use machine_parts::boxes::copy_boxed;
use machine_parts::entry::Entry;
use machine_parts::results::{added, boxed, in_front, pair};
use std::alloc::Global;
use stream_type::{Memory, Ty};
use template_state::{Arguments, Later, Live, Past, node};

/// The state as it is kept, with its marks. A template has no places, so those of the nodes of its code are 0.
/// Its only error is want of memory.
#[cycle(keep)]
pub fn keep(alloc: Global, s: &Live) -> Result<Box<KeptState>, Memory>
    ensures { IfOk result (λ r. state_of r.value ≡ state_in s.now) }
{
    match s {
        Live::Sink(t) => finished(alloc, t),
        Live::Var(x) => made(alloc, KeptState::Var(*x)),
        Live::Par(a, b) => par_of(alloc, keep(alloc, a), keep(alloc, b)),
        Live::Cat(a, l) => row(alloc, keep(alloc, a), l),
        Live::Let(x, t, a, b) => bound(alloc, *x, t, keep(alloc, a), keep(alloc, b)),
        Live::LetPar(x, y, z, a) => let_par_of(alloc, *x, *y, *z, keep(alloc, a)),
        Live::LetCat(x, y, z, a) => let_cat_of(alloc, *x, *y, *z, keep(alloc, a)),
        Live::CaseSum(z, t, held, x, l, y, m) => on_sum(alloc, *z, t, held, *x, l, *y, m),
        Live::CaseStar(z, t, held, l, y, ys, m) => on_star(alloc, *z, t, held, l, *y, *ys, m),
        Live::Wait(x, t, held, l) => waiting(alloc, *x, t, held, l),
        Live::Frame(args, a) => framed(alloc, keep_all(alloc, args), keep(alloc, a)),
    }
}

// The arguments of a frame.
#[cycle(keep)]
fn keep_all(alloc: Global, args: &Arguments) -> Result<Vec<Argument>, Memory>
    ensures { IfOk result (λ v. arguments_from v.items ≡ arguments_in args.now) }
{
    match args {
        Arguments::None => Ok(Vec::new(alloc)),
        Arguments::Before(name, t, a, others) => {
            before(alloc, *name, t, keep(alloc, a), keep_all(alloc, others))
        }
    }
}

// A state of its own.
fn made(alloc: Global, form: KeptState) -> Result<Box<KeptState>, Memory>
    ensures { Makes kept_in result (state_of form) }
{
    Ok(Box::new(alloc, form)?)
}

// One argument before others.
fn before(
    alloc: Global,
    name: Name,
    t: &Ty,
    state: Result<Box<KeptState>, Memory>,
    others: Result<Vec<Argument>, Memory>,
) -> Result<Vec<Argument>, Memory>
    ensures { (a : StateTree) (args : ArgumentTrees) → Makes kept_in state a → IfOk others (λ v. arguments_from v.items ≡ args)
        → IfOk result (λ v. arguments_from v.items ≡ argument_before name.0 (type_of t.now) a args) }
{
    match pair(pair(copy_boxed(alloc, t), state), others) {
        Ok(((ty, state), others)) => in_front(Argument { name, ty, state }, others),
        Err(Memory) => Err(Memory),
    }
}

// A frame of these.
fn framed(
    alloc: Global,
    arguments: Result<Vec<Argument>, Memory>,
    part: Result<Box<KeptState>, Memory>,
) -> Result<Box<KeptState>, Memory>
    ensures { (args : ArgumentTrees) (a : StateTree) → IfOk arguments (λ v. arguments_from v.items ≡ args) → Makes kept_in part a
        → Makes kept_in result (frame_state args a) }
{
    match pair(arguments, part) {
        Ok((arguments, a)) => made(alloc, KeptState::Frame(arguments, a)),
        Err(Memory) => Err(Memory),
    }
}

// Nothing more of a type.
fn finished(alloc: Global, t: &Ty) -> Result<Box<KeptState>, Memory>
    ensures { Makes kept_in result (sink (type_of t.now)) }
{
    match copy_boxed(alloc, t) {
        Ok(ty) => made(alloc, KeptState::Sink(ty)),
        Err(Memory) => Err(Memory),
    }
}

// Both at once.
fn par_of(
    alloc: Global,
    first: Result<Box<KeptState>, Memory>,
    second: Result<Box<KeptState>, Memory>,
) -> Result<Box<KeptState>, Memory>
    ensures { (a b : StateTree) → Makes kept_in first a → Makes kept_in second b → Makes kept_in result (par_state a b) }
{
    match pair(first, second) {
        Ok((a, b)) => made(alloc, KeptState::Par(a, b)),
        Err(Memory) => Err(Memory),
    }
}

// The rest of the first part, and the code of the second.
fn row(
    alloc: Global,
    part: Result<Box<KeptState>, Memory>,
    l: &Later,
) -> Result<Box<KeptState>, Memory>
    ensures { (a : StateTree) → Makes kept_in part a → Makes kept_in result (cat_state a (later_in l.now)) }
{
    match pair(part, keep_code(alloc, l)) {
        Ok((a, code)) => made(alloc, KeptState::Cat(a, code)),
        Err(Memory) => Err(Memory),
    }
}

// A let of these.
fn bound(
    alloc: Global,
    x: Name,
    t: &Ty,
    first: Result<Box<KeptState>, Memory>,
    second: Result<Box<KeptState>, Memory>,
) -> Result<Box<KeptState>, Memory>
    ensures { (a b : StateTree) → Makes kept_in first a → Makes kept_in second b → Makes kept_in result (let_state x.0 (type_of t.now) a b) }
{
    match pair(copy_boxed(alloc, t), pair(first, second)) {
        Ok((ty, (a, b))) => made(alloc, KeptState::Let(x, ty, a, b)),
        Err(Memory) => Err(Memory),
    }
}

// The two destructurings of what this one gives.
fn let_par_of(
    alloc: Global,
    x: Name,
    y: Name,
    z: Name,
    part: Result<Box<KeptState>, Memory>,
) -> Result<Box<KeptState>, Memory>
    ensures { (a : StateTree) → Makes kept_in part a → Makes kept_in result (let_par_state x.0 y.0 z.0 a) }
{
    match part {
        Ok(a) => made(alloc, KeptState::LetPar(x, y, z, a)),
        Err(Memory) => Err(Memory),
    }
}

fn let_cat_of(
    alloc: Global,
    x: Name,
    y: Name,
    z: Name,
    part: Result<Box<KeptState>, Memory>,
) -> Result<Box<KeptState>, Memory>
    ensures { (a : StateTree) → Makes kept_in part a → Makes kept_in result (let_cat_state x.0 y.0 z.0 a) }
{
    match part {
        Ok(a) => made(alloc, KeptState::LetCat(x, y, z, a)),
        Err(Memory) => Err(Memory),
    }
}

// A case on a sum.
fn on_sum(
    alloc: Global,
    z: Name,
    t: &Ty,
    held: &[Entry],
    x: Name,
    l: &Later,
    y: Name,
    m: &Later,
) -> Result<Box<KeptState>, Memory>
    ensures { Makes kept_in result (sum_state z.0 (type_of t.now) (held_in held.now) x.0 (later_in l.now) y.0 (later_in m.now)) }
{
    let before = pair(copy_boxed(alloc, t), keep_entries(alloc, held));
    match pair(before, pair(keep_code(alloc, l), keep_code(alloc, m))) {
        Ok(((ty, held), (first, second))) => made(
            alloc,
            KeptState::CaseSum(z, ty, held, x, first, y, second),
        ),
        Err(Memory) => Err(Memory),
    }
}

// A case on a star.
fn on_star(
    alloc: Global,
    z: Name,
    t: &Ty,
    held: &[Entry],
    l: &Later,
    y: Name,
    ys: Name,
    m: &Later,
) -> Result<Box<KeptState>, Memory>
    ensures { Makes kept_in result (star_state z.0 (type_of t.now) (held_in held.now) (later_in l.now) y.0 ys.0 (later_in m.now)) }
{
    let before = pair(copy_boxed(alloc, t), keep_entries(alloc, held));
    match pair(before, pair(keep_code(alloc, l), keep_code(alloc, m))) {
        Ok(((ty, held), (first, second))) => made(
            alloc,
            KeptState::CaseStar(z, ty, held, first, y, ys, second),
        ),
        Err(Memory) => Err(Memory),
    }
}

// A wait.
fn waiting(
    alloc: Global,
    x: Name,
    t: &Ty,
    held: &[Entry],
    l: &Later,
) -> Result<Box<KeptState>, Memory>
    ensures { Makes kept_in result (wait_state x.0 (type_of t.now) (held_in held.now) (later_in l.now)) }
{
    let before = pair(copy_boxed(alloc, t), keep_entries(alloc, held));
    match pair(before, keep_code(alloc, l)) {
        Ok(((ty, held), code)) => made(alloc, KeptState::Wait(x, ty, held, code)),
        Err(Memory) => Err(Memory),
    }
}

// Code that isn't reached, with its term as a tree of its own.
fn keep_code(alloc: Global, l: &Later) -> Result<Box<Waiting>, Memory>
    ensures { IfOk result (λ r. later_of r.value ≡ later_in l.now) }
{
    let depth = l.depth;
    match pair(
        node(alloc, &l.code),
        keep_past(alloc, &l.past, Vec::new(alloc)),
    ) {
        Ok((code, past)) => boxed(alloc, Ok(Waiting { code, past, depth })),
        Err(Memory) => Err(Memory),
    }
}

// Known names behind these, the last one first.
fn keep_past(alloc: Global, past: &Past, found: Vec<Known>) -> Result<Vec<Known>, Memory>
    ensures { IfOk result (λ v. map known_of v.items ≡ map known_of found.items ++ known_in past.now) }
{
    match past {
        Past::None => Ok(found),
        Past::Known(x, t, value, older) => match added(found, known(alloc, *x, t, value)) {
            Ok(found) => keep_past(alloc, older, found),
            Err(Memory) => Err(Memory),
        },
    }
}

fn known(alloc: Global, name: Name, t: &Ty, value: &Value) -> Result<Known, Memory>
    ensures { IfOk result (λ k. known_of k ≡ record { name = name.0; type = type_of t.now; value = hist_value_of value.now }) }
{
    match pair(copy_boxed(alloc, t), boxed(alloc, copy_value(alloc, value))) {
        Ok((ty, value)) => Ok(Known { name, ty, value }),
        Err(Memory) => Err(Memory),
    }
}

// What is held.
fn keep_entries(alloc: Global, held: &[Entry]) -> Result<Vec<HeldName>, Memory>
    ensures { IfOk result (λ v. map held_of v.items ≡ held_in held.now) }
{
    let mut found = Vec::new(alloc);
    for entry in held {
        found = added(found, keep_entry(alloc, entry))?;
    }
    Ok(found)
}

fn keep_entry(alloc: Global, entry: &Entry) -> Result<HeldName, Memory>
    ensures { IfOk result (λ h. held_of h ≡ entry_in entry.now) }
{
    let name = entry.name;
    let ty = copy_boxed(alloc, &entry.ty);
    let prefix = boxed(alloc, stream_prefix::copy(alloc, &entry.prefix));
    match pair(ty, prefix) {
        Ok((ty, prefix)) => Ok(HeldName { name, ty, prefix }),
        Err(Memory) => Err(Memory),
    }
}
