//! States without their marks.

ghost use Rattle.std.specs.Prelude.{◌≡◌, ◌++◌, map, IfOk};
ghost use Rattle.stream_type.specs.StreamType.{type_of};
ghost use Rattle.stream_prefix.specs.Tree.{prefix_of};
ghost use Rattle.hist_value.specs.HistValue.{hist_value_of};
ghost use Rattle.delta_state.specs.PlainState.{PlainState, PlainArguments, state_of, later_of, held_of, past_of, argument_of, arguments_from as plain_arguments, without_marks, arguments_without_marks, plain_later, plain_held, plain_sink, plain_par, plain_cat, plain_let, plain_let_par, plain_let_cat, plain_sum, plain_star, plain_wait, plain_frame, plain_argument_before};
ghost use Rattle.template_state.specs.Readers.{known_in, later_in, held_in, state_in, arguments_in};
ghost use Rattle.template_state.specs.Makes.{Makes, boxed_state};

use crate::live::{Arguments, Later, Live, Past};
use crate::terms::node;
use bunch::Name;
use delta_state::{Argument as PlainArgument, Held, Later as PlainLater, State};
use hist_value::{Value, copy_value};
use machine_parts::entry::Entry;
use machine_parts::results::{added, boxed, in_front, pair};
use std::alloc::Global;
use stream_prefix::Prefix;
use stream_type::{Memory, Ty};

/// The state without its marks, with its code as trees of its own: `without_marks` in `delta_state`. Its only
/// error is want of memory.
#[cycle(plain)]
pub fn plain(alloc: Global, s: &Live) -> Result<Box<State>, Memory>
    ensures { IfOk result (λ r. state_of r.value ≡ without_marks (state_in s.now)) }
{
    match s {
        Live::Sink(t) => finished(alloc, t),
        Live::Var(x) => made(alloc, State::Var(*x)),
        Live::Par(a, b) => par_of(alloc, plain(alloc, a), plain(alloc, b)),
        Live::Cat(a, l) => row(alloc, plain(alloc, a), l),
        Live::Let(x, _, a, b) => bound(alloc, *x, plain(alloc, a), plain(alloc, b)),
        Live::LetPar(x, y, z, a) => let_par_of(alloc, *x, *y, *z, plain(alloc, a)),
        Live::LetCat(x, y, z, a) => let_cat_of(alloc, *x, *y, *z, plain(alloc, a)),
        Live::CaseSum(z, t, held, x, l, y, m) => on_sum(alloc, *z, t, held, *x, l, *y, m),
        Live::CaseStar(z, t, held, l, y, ys, m) => on_star(alloc, *z, t, held, l, *y, *ys, m),
        Live::Wait(x, t, held, l) => waiting(alloc, *x, t, held, l),
        Live::Frame(args, a) => framed(alloc, plain_all(alloc, args), plain(alloc, a)),
    }
}

// The arguments of a frame.
#[cycle(plain)]
fn plain_all(alloc: Global, args: &Arguments) -> Result<Vec<PlainArgument>, Memory>
    ensures { IfOk result (λ v. plain_arguments (map argument_of v.items) ≡ arguments_without_marks (arguments_in args.now)) }
{
    match args {
        Arguments::None => Ok(Vec::new(alloc)),
        Arguments::Before(name, _, a, others) => {
            one_more(*name, plain(alloc, a), plain_all(alloc, others))
        }
    }
}

// A state of its own.
fn made(alloc: Global, form: State) -> Result<Box<State>, Memory>
    ensures { Makes boxed_state result (state_of form) }
{
    Ok(Box::new(alloc, form)?)
}

// One argument before others.
fn one_more(
    name: Name,
    state: Result<Box<State>, Memory>,
    others: Result<Vec<PlainArgument>, Memory>,
) -> Result<Vec<PlainArgument>, Memory>
    ensures { (a : PlainState) (args : PlainArguments) → Makes boxed_state state a → IfOk others (λ v. plain_arguments (map argument_of v.items) ≡ args)
        → IfOk result (λ v. plain_arguments (map argument_of v.items) ≡ plain_argument_before name.0 a args) }
{
    match pair(state, others) {
        Ok((state, others)) => in_front(argument(name, state), others),
        Err(Memory) => Err(Memory),
    }
}

// An argument.
fn argument(name: Name, state: Box<State>) -> PlainArgument
    ensures { argument_of result ≡ (name.0, state_of state.value) }
{
    PlainArgument {
        name,
        state: Box::into_inner(state),
    }
}

// A frame of these.
fn framed(
    alloc: Global,
    arguments: Result<Vec<PlainArgument>, Memory>,
    part: Result<Box<State>, Memory>,
) -> Result<Box<State>, Memory>
    ensures { (args : PlainArguments) (a : PlainState) → IfOk arguments (λ v. plain_arguments (map argument_of v.items) ≡ args) → Makes boxed_state part a
        → Makes boxed_state result (plain_frame args a) }
{
    match pair(arguments, part) {
        Ok((arguments, a)) => made(alloc, State::Frame(arguments, a)),
        Err(Memory) => Err(Memory),
    }
}

// Nothing more of a type.
fn finished(alloc: Global, t: &Ty) -> Result<Box<State>, Memory>
    ensures { Makes boxed_state result (plain_sink (type_of t.now)) }
{
    match stream_type::copy(alloc, t) {
        Ok(ty) => made(alloc, State::Sink(ty)),
        Err(Memory) => Err(Memory),
    }
}

// Both at once.
fn par_of(
    alloc: Global,
    first: Result<Box<State>, Memory>,
    second: Result<Box<State>, Memory>,
) -> Result<Box<State>, Memory>
    ensures { (a b : PlainState) → Makes boxed_state first a → Makes boxed_state second b → Makes boxed_state result (plain_par a b) }
{
    match pair(first, second) {
        Ok((a, b)) => made(alloc, State::Par(a, b)),
        Err(Memory) => Err(Memory),
    }
}

// The rest of the first part, and the code of the second.
fn row(alloc: Global, part: Result<Box<State>, Memory>, l: &Later) -> Result<Box<State>, Memory>
    ensures { (a : PlainState) → Makes boxed_state part a → Makes boxed_state result (plain_cat a (plain_later (later_in l.now))) }
{
    match pair(part, plain_code(alloc, l)) {
        Ok((a, code)) => made(alloc, State::Cat(a, Box::into_inner(code))),
        Err(Memory) => Err(Memory),
    }
}

// A let of these.
fn bound(
    alloc: Global,
    x: Name,
    first: Result<Box<State>, Memory>,
    second: Result<Box<State>, Memory>,
) -> Result<Box<State>, Memory>
    ensures { (a b : PlainState) → Makes boxed_state first a → Makes boxed_state second b → Makes boxed_state result (plain_let x.0 a b) }
{
    match pair(first, second) {
        Ok((a, b)) => made(alloc, State::Let(x, a, b)),
        Err(Memory) => Err(Memory),
    }
}

// The two destructurings of what this one gives.
fn let_par_of(
    alloc: Global,
    x: Name,
    y: Name,
    z: Name,
    part: Result<Box<State>, Memory>,
) -> Result<Box<State>, Memory>
    ensures { (a : PlainState) → Makes boxed_state part a → Makes boxed_state result (plain_let_par x.0 y.0 z.0 a) }
{
    match part {
        Ok(a) => made(alloc, State::LetPar(x, y, z, a)),
        Err(Memory) => Err(Memory),
    }
}

fn let_cat_of(
    alloc: Global,
    x: Name,
    y: Name,
    z: Name,
    part: Result<Box<State>, Memory>,
) -> Result<Box<State>, Memory>
    ensures { (a : PlainState) → Makes boxed_state part a → Makes boxed_state result (plain_let_cat x.0 y.0 z.0 a) }
{
    match part {
        Ok(a) => made(alloc, State::LetCat(x, y, z, a)),
        Err(Memory) => Err(Memory),
    }
}

// A case on a sum.
fn on_sum(
    alloc: Global,
    z: Name,
    t: &Ty,
    held: &[Entry],
    x: Name,
    l: &Later,
    y: Name,
    m: &Later,
) -> Result<Box<State>, Memory>
    ensures { Makes boxed_state result (plain_sum z.0 (type_of t.now) (plain_held (held_in held.now)) x.0 (plain_later (later_in l.now)) y.0 (plain_later (later_in m.now))) }
{
    let before = pair(stream_type::copy(alloc, t), plain_entries(alloc, held));
    match pair(before, pair(plain_code(alloc, l), plain_code(alloc, m))) {
        Ok(((ty, held), (first, second))) => {
            let (first, second) = (Box::into_inner(first), Box::into_inner(second));
            made(alloc, State::CaseSum(z, ty, held, x, first, y, second))
        }
        Err(Memory) => Err(Memory),
    }
}

// A case on a star.
fn on_star(
    alloc: Global,
    z: Name,
    t: &Ty,
    held: &[Entry],
    l: &Later,
    y: Name,
    ys: Name,
    m: &Later,
) -> Result<Box<State>, Memory>
    ensures { Makes boxed_state result (plain_star z.0 (type_of t.now) (plain_held (held_in held.now)) (plain_later (later_in l.now)) y.0 ys.0 (plain_later (later_in m.now))) }
{
    let before = pair(stream_type::copy(alloc, t), plain_entries(alloc, held));
    match pair(before, pair(plain_code(alloc, l), plain_code(alloc, m))) {
        Ok(((ty, held), (first, second))) => {
            let (first, second) = (Box::into_inner(first), Box::into_inner(second));
            made(alloc, State::CaseStar(z, ty, held, first, y, ys, second))
        }
        Err(Memory) => Err(Memory),
    }
}

// A wait.
fn waiting(alloc: Global, x: Name, t: &Ty, held: &[Entry], l: &Later) -> Result<Box<State>, Memory>
    ensures { Makes boxed_state result (plain_wait x.0 (type_of t.now) (plain_held (held_in held.now)) (plain_later (later_in l.now))) }
{
    let before = pair(stream_type::copy(alloc, t), plain_entries(alloc, held));
    match pair(before, plain_code(alloc, l)) {
        Ok(((ty, held), code)) => made(alloc, State::Wait(x, ty, held, Box::into_inner(code))),
        Err(Memory) => Err(Memory),
    }
}

// Code that isn't reached, with its term as a tree of its own.
fn plain_code(alloc: Global, l: &Later) -> Result<Box<PlainLater>, Memory>
    ensures { IfOk result (λ r. later_of r.value ≡ plain_later (later_in l.now)) }
{
    let depth = l.depth;
    match pair(
        node(alloc, &l.code),
        plain_past(alloc, &l.past, Vec::new(alloc)),
    ) {
        Ok((term, past)) => boxed(
            alloc,
            Ok(PlainLater {
                term: Box::into_inner(term),
                past,
                depth,
            }),
        ),
        Err(Memory) => Err(Memory),
    }
}

// Known names behind these, the last one first.
fn plain_past(
    alloc: Global,
    past: &Past,
    found: Vec<(Name, Value)>,
) -> Result<Vec<(Name, Value)>, Memory>
    ensures { IfOk result (λ v. past_of v.items ≡ past_of found.items ++ map (λ e. (e.name, e.value)) (known_in past.now)) }
{
    match past {
        Past::None => Ok(found),
        Past::Known(x, _, value, older) => match added(found, known(alloc, *x, value)) {
            Ok(found) => plain_past(alloc, older, found),
            Err(Memory) => Err(Memory),
        },
    }
}

fn known(alloc: Global, name: Name, value: &Value) -> Result<(Name, Value), Memory>
    ensures { IfOk result (λ e. (e.0.0 ≡ name.0) × (hist_value_of e.1 ≡ hist_value_of value.now)) }
{
    match copy_value(alloc, value) {
        Ok(value) => Ok((name, value)),
        Err(Memory) => Err(Memory),
    }
}

// What is held.
fn plain_entries(alloc: Global, held: &[Entry]) -> Result<Held, Memory>
    ensures { IfOk result (λ v. held_of v.items ≡ plain_held (held_in held.now)) }
{
    let mut found = Vec::new(alloc);
    for entry in held {
        found = added(found, plain_entry(alloc, entry))?;
    }
    Ok(found)
}

fn plain_entry(alloc: Global, entry: &Entry) -> Result<(Name, Prefix), Memory>
    ensures { IfOk result (λ h. (h.0.0 ≡ entry.now.name.0) × (prefix_of h.1 ≡ prefix_of entry.now.prefix)) }
{
    let name = entry.name;
    match stream_prefix::copy(alloc, &entry.prefix) {
        Ok(prefix) => Ok((name, prefix)),
        Err(Memory) => Err(Memory),
    }
}
