//! Kept states over templates: what they hold is copied, and their code is made into templates.

ghost use Rattle.std.specs.Prelude.{◌≡◌, ◌∷◌, List, map, IfOk};
ghost use Rattle.stream_type.specs.StreamType.{type_of};
ghost use Rattle.delta_state.specs.StateTree.{Known as KnownName, StateTree, ArgumentTrees, sink, par_state, cat_state, let_state, let_par_state, let_cat_state, sum_state, star_state, wait_state, frame_state, argument_before};
ghost use Rattle.machine_parts.specs.Entry.{entry_in};
ghost use Rattle.template_state.specs.Readers.{known_in, later_in, held_in, state_in, arguments_in};
ghost use Rattle.delta_keep.specs.KeptView.{known_of, held_of, later_of, state_of, arguments_from};
ghost use Rattle.machine_kept.specs.Makes.{Makes, live_in};

use bunch::Name;
use delta_keep::{Argument, HeldName, KeptState, Known, Waiting};
use hist_value::copy_value;
use machine_parts::entry::Entry;
use machine_parts::results::{added, boxed, pair, shared};
use std::alloc::Global;
use std::rc::Rc;
use stream_type::{Memory, Ty};
use template_state::{Arguments, Later, Live, Past, op};

/// The state of which this one was kept, over templates of its own. Its only error is want of memory.
#[cycle(wake)]
#[tactic(auto, using(delta_keep::proofs::ArgumentRows::rows))]
pub fn wake(alloc: Global, s: &KeptState) -> Result<Box<Live>, Memory>
    ensures { IfOk result (λ r. state_in r.value ≡ state_of s.now) }
{
    match s {
        KeptState::Sink(t) => finished(alloc, t),
        KeptState::Var(x) => made(alloc, Live::Var(*x)),
        KeptState::Par(a, b) => par_of(alloc, wake(alloc, a), wake(alloc, b)),
        KeptState::Cat(a, l) => row(alloc, wake(alloc, a), l),
        KeptState::Let(x, t, a, b) => bound(alloc, *x, t, wake(alloc, a), wake(alloc, b)),
        KeptState::LetPar(x, y, z, a) => let_par_of(alloc, *x, *y, *z, wake(alloc, a)),
        KeptState::LetCat(x, y, z, a) => let_cat_of(alloc, *x, *y, *z, wake(alloc, a)),
        KeptState::CaseSum(z, t, held, x, l, y, m) => on_sum(alloc, *z, t, held, *x, l, *y, m),
        KeptState::CaseStar(z, t, held, l, y, ys, m) => on_star(alloc, *z, t, held, l, *y, *ys, m),
        KeptState::Wait(x, t, held, l) => waiting(alloc, *x, t, held, l),
        KeptState::Frame(args, a) => framed(alloc, wake_all(alloc, args), wake(alloc, a)),
    }
}

// The arguments of a frame.
#[cycle(wake)]
fn wake_all(alloc: Global, args: &[Argument]) -> Result<Box<Arguments>, Memory>
    ensures { IfOk result (λ r. arguments_in r.value ≡ arguments_from args.now) }
{
    match args.split_first() {
        None => boxed(alloc, Ok(Arguments::None)),
        Some((arg, others)) => {
            let state = wake(alloc, &arg.state);
            before(alloc, arg.name, &arg.ty, state, wake_all(alloc, others))
        }
    }
}

// A state of its own.
fn made(alloc: Global, form: Live) -> Result<Box<Live>, Memory>
    ensures { Makes live_in result (state_in form) }
{
    Ok(Box::new(alloc, form)?)
}

// One argument before others.
fn before(
    alloc: Global,
    name: Name,
    t: &Ty,
    state: Result<Box<Live>, Memory>,
    others: Result<Box<Arguments>, Memory>,
) -> Result<Box<Arguments>, Memory>
    ensures { (a : StateTree) (args : ArgumentTrees) → Makes live_in state a → IfOk others (λ r. arguments_in r.value ≡ args)
        → IfOk result (λ r. arguments_in r.value ≡ argument_before name.0 (type_of t.now) a args) }
{
    match pair(stream_type::copy(alloc, t), pair(state, others)) {
        Ok((ty, (state, others))) => boxed(alloc, Ok(Arguments::Before(name, ty, state, others))),
        Err(Memory) => Err(Memory),
    }
}

// A frame of these.
fn framed(
    alloc: Global,
    arguments: Result<Box<Arguments>, Memory>,
    part: Result<Box<Live>, Memory>,
) -> Result<Box<Live>, Memory>
    ensures { (args : ArgumentTrees) (a : StateTree) → IfOk arguments (λ r. arguments_in r.value ≡ args) → Makes live_in part a
        → Makes live_in result (frame_state args a) }
{
    match pair(arguments, part) {
        Ok((arguments, a)) => made(alloc, Live::Frame(arguments, a)),
        Err(Memory) => Err(Memory),
    }
}

// Nothing more of a type.
fn finished(alloc: Global, t: &Ty) -> Result<Box<Live>, Memory>
    ensures { Makes live_in result (sink (type_of t.now)) }
{
    match stream_type::copy(alloc, t) {
        Ok(ty) => made(alloc, Live::Sink(ty)),
        Err(Memory) => Err(Memory),
    }
}

// Both at once.
fn par_of(
    alloc: Global,
    first: Result<Box<Live>, Memory>,
    second: Result<Box<Live>, Memory>,
) -> Result<Box<Live>, Memory>
    ensures { (a b : StateTree) → Makes live_in first a → Makes live_in second b → Makes live_in result (par_state a b) }
{
    match pair(first, second) {
        Ok((a, b)) => made(alloc, Live::Par(a, b)),
        Err(Memory) => Err(Memory),
    }
}

// The rest of the first part, and the code of the second.
fn row(alloc: Global, part: Result<Box<Live>, Memory>, l: &Waiting) -> Result<Box<Live>, Memory>
    ensures { (a : StateTree) → Makes live_in part a → Makes live_in result (cat_state a (later_of l.now)) }
{
    match pair(part, wake_code(alloc, l)) {
        Ok((a, code)) => made(alloc, Live::Cat(a, code)),
        Err(Memory) => Err(Memory),
    }
}

// A let of these.
fn bound(
    alloc: Global,
    x: Name,
    t: &Ty,
    first: Result<Box<Live>, Memory>,
    second: Result<Box<Live>, Memory>,
) -> Result<Box<Live>, Memory>
    ensures { (a b : StateTree) → Makes live_in first a → Makes live_in second b → Makes live_in result (let_state x.0 (type_of t.now) a b) }
{
    match pair(stream_type::copy(alloc, t), pair(first, second)) {
        Ok((ty, (a, b))) => made(alloc, Live::Let(x, ty, a, b)),
        Err(Memory) => Err(Memory),
    }
}

// The two destructurings of what this one gives.
fn let_par_of(
    alloc: Global,
    x: Name,
    y: Name,
    z: Name,
    part: Result<Box<Live>, Memory>,
) -> Result<Box<Live>, Memory>
    ensures { (a : StateTree) → Makes live_in part a → Makes live_in result (let_par_state x.0 y.0 z.0 a) }
{
    match part {
        Ok(a) => made(alloc, Live::LetPar(x, y, z, a)),
        Err(Memory) => Err(Memory),
    }
}

fn let_cat_of(
    alloc: Global,
    x: Name,
    y: Name,
    z: Name,
    part: Result<Box<Live>, Memory>,
) -> Result<Box<Live>, Memory>
    ensures { (a : StateTree) → Makes live_in part a → Makes live_in result (let_cat_state x.0 y.0 z.0 a) }
{
    match part {
        Ok(a) => made(alloc, Live::LetCat(x, y, z, a)),
        Err(Memory) => Err(Memory),
    }
}

// A case on a sum.
fn on_sum(
    alloc: Global,
    z: Name,
    t: &Ty,
    held: &[HeldName],
    x: Name,
    l: &Waiting,
    y: Name,
    m: &Waiting,
) -> Result<Box<Live>, Memory>
    ensures { Makes live_in result (sum_state z.0 (type_of t.now) (map held_of held.now) x.0 (later_of l.now) y.0 (later_of m.now)) }
{
    let before = pair(stream_type::copy(alloc, t), wake_entries(alloc, held));
    match pair(before, pair(wake_code(alloc, l), wake_code(alloc, m))) {
        Ok(((ty, held), (first, second))) => made(
            alloc,
            Live::CaseSum(z, ty, held, x, first, y, second),
        ),
        Err(Memory) => Err(Memory),
    }
}

// A case on a star.
fn on_star(
    alloc: Global,
    z: Name,
    t: &Ty,
    held: &[HeldName],
    l: &Waiting,
    y: Name,
    ys: Name,
    m: &Waiting,
) -> Result<Box<Live>, Memory>
    ensures { Makes live_in result (star_state z.0 (type_of t.now) (map held_of held.now) (later_of l.now) y.0 ys.0 (later_of m.now)) }
{
    let before = pair(stream_type::copy(alloc, t), wake_entries(alloc, held));
    match pair(before, pair(wake_code(alloc, l), wake_code(alloc, m))) {
        Ok(((ty, held), (first, second))) => made(
            alloc,
            Live::CaseStar(z, ty, held, first, y, ys, second),
        ),
        Err(Memory) => Err(Memory),
    }
}

// A wait.
fn waiting(
    alloc: Global,
    x: Name,
    t: &Ty,
    held: &[HeldName],
    l: &Waiting,
) -> Result<Box<Live>, Memory>
    ensures { Makes live_in result (wait_state x.0 (type_of t.now) (map held_of held.now) (later_of l.now)) }
{
    let before = pair(stream_type::copy(alloc, t), wake_entries(alloc, held));
    match pair(before, wake_code(alloc, l)) {
        Ok(((ty, held), code)) => made(alloc, Live::Wait(x, ty, held, code)),
        Err(Memory) => Err(Memory),
    }
}

// Code that isn't reached, with its term as a template.
fn wake_code(alloc: Global, l: &Waiting) -> Result<Later, Memory>
    ensures { IfOk result (λ r. later_in r ≡ later_of l.now) }
{
    let depth = l.depth;
    match pair(op(alloc, &l.code), linked(alloc, &l.past)) {
        Ok((code, past)) => Ok(Later { code, past, depth }),
        Err(Memory) => Err(Memory),
    }
}

// Known names in a row.
fn linked(alloc: Global, past: &[Known]) -> Result<Rc<Past>, Memory>
    ensures { IfOk result (λ r. known_in r.value ≡ map known_of past.now) }
{
    match past.split_first() {
        None => shared(alloc, Ok(Past::None)),
        Some((known, older)) => behind(alloc, known, linked(alloc, older)),
    }
}

// A known name, with those that are older.
fn behind(
    alloc: Global,
    known: &Known,
    others: Result<Rc<Past>, Memory>,
) -> Result<Rc<Past>, Memory>
    ensures { (past : List KnownName) → IfOk others (λ r. known_in r.value ≡ past) → IfOk result (λ r. known_in r.value ≡ known_of known.now ∷ past) }
{
    let value = shared(alloc, copy_value(alloc, &known.value));
    match pair(stream_type::copy(alloc, &known.ty), pair(value, others)) {
        Ok((ty, (value, others))) => shared(alloc, Ok(Past::Known(known.name, ty, value, others))),
        Err(Memory) => Err(Memory),
    }
}

// What is held.
fn wake_entries(alloc: Global, held: &[HeldName]) -> Result<Vec<Entry>, Memory>
    ensures { IfOk result (λ v. held_in v.items ≡ map held_of held.now) }
{
    let mut found = Vec::new(alloc);
    for entry in held {
        found = added(found, wake_entry(alloc, entry))?;
    }
    Ok(found)
}

fn wake_entry(alloc: Global, entry: &HeldName) -> Result<Entry, Memory>
    ensures { IfOk result (λ e. entry_in e ≡ held_of entry.now) }
{
    let name = entry.name;
    let prefix = stream_prefix::copy(alloc, &entry.prefix);
    match pair(stream_type::copy(alloc, &entry.ty), prefix) {
        Ok((ty, prefix)) => Ok(Entry { name, ty, prefix }),
        Err(Memory) => Err(Memory),
    }
}
