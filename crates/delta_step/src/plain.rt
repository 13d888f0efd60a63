//! States without their marks.

ghost use Rattle.std.specs.Prelude.{◌≡◌, map, IfOk};
ghost use Rattle.stream_type.specs.StreamType.{type_of};
ghost use Rattle.delta_state.specs.PlainState.{PlainState, PlainArguments, state_of, later_of, held_of, past_of, argument_of, arguments_from as plain_arguments, without_marks, arguments_without_marks, plain_later, plain_held, plain_sink, plain_par, plain_cat, plain_let, plain_let_par, plain_let_cat, plain_sum, plain_star, plain_wait, plain_frame, plain_argument_before};
ghost use Rattle.delta_step.specs.Marked.{state_in, code_in, known_in, arguments_from};
ghost use Rattle.delta_step.specs.Makes.{Makes, MakesAll};
ghost use Rattle.machine_parts.specs.Entry.{entry_in};

use crate::marked::{Argument, Code, Known, Marked};
use bunch::Name;
use delta_state::{Argument as PlainArgument, Held, Later, State};
use hist_value::{Value, copy_value};
use machine_parts::entry::Entry;
use machine_parts::results::{self, in_front, pair};
use std::alloc::Global;
use stream_type::{Memory, Ty};

/// The state without its marks: `without_marks` in `delta_state`. Its only error is want of memory.
#[cycle(plain)]
#[tactic(auto, using(crate::proofs::Rows::rows))]
pub fn plain(alloc: Global, s: &Marked) -> Result<Box<State>, Memory>
    ensures { IfOk result (λ r. state_of r.value ≡ without_marks (state_in s.now)) }
{
    match s {
        Marked::Sink(t) => sink(alloc, t),
        Marked::Var(x) => boxed(alloc, State::Var(*x)),
        Marked::Par(a, b) => par_of(alloc, plain(alloc, a), plain(alloc, b)),
        Marked::Cat(a, l) => cat(alloc, plain(alloc, a), l),
        Marked::Let(x, _, a, b) => let_of(alloc, *x, plain(alloc, a), plain(alloc, b)),
        Marked::LetPar(x, y, z, a) => let_par_of(alloc, *x, *y, *z, plain(alloc, a)),
        Marked::LetCat(x, y, z, a) => let_cat_of(alloc, *x, *y, *z, plain(alloc, a)),
        Marked::CaseSum(z, t, held, x, l, y, m) => sum(alloc, *z, t, held, *x, l, *y, m),
        Marked::CaseStar(z, t, held, l, y, ys, m) => star(alloc, *z, t, held, l, *y, *ys, m),
        Marked::Wait(x, t, held, l) => wait(alloc, *x, t, held, l),
        Marked::Frame(args, a) => frame(alloc, plain_all(alloc, args), plain(alloc, a)),
    }
}

// Arguments.
#[cycle(plain)]
fn plain_all(alloc: Global, args: &[Argument]) -> Result<Vec<PlainArgument>, Memory>
    ensures { IfOk result (λ v. plain_arguments (map argument_of v.items) ≡ arguments_without_marks (arguments_from args.now)) }
{
    match args.split_first() {
        None => Ok(Vec::new(alloc)),
        Some((arg, others)) => {
            let state = plain(alloc, &arg.state);
            one_more(arg.name, state, plain_all(alloc, others))
        }
    }
}

// A state in a box.
#[inline(never)]
fn boxed(alloc: Global, s: State) -> Result<Box<State>, Memory>
    ensures { Makes result (state_of s) }
{
    Ok(Box::new(alloc, s)?)
}

// One argument before others.
fn one_more(
    name: Name,
    state: Result<Box<State>, Memory>,
    others: Result<Vec<PlainArgument>, Memory>,
) -> Result<Vec<PlainArgument>, Memory>
    ensures { (a : PlainState) (args : PlainArguments) → Makes state a → MakesAll others args → MakesAll result (plain_argument_before name.0 a args) }
{
    match pair(state, others) {
        Ok((state, others)) => in_front(argument(name, state), others),
        Err(Memory) => Err(Memory),
    }
}

// An argument.
fn argument(name: Name, state: Box<State>) -> PlainArgument
    ensures { argument_of result ≡ (name.0, state_of state.value) }
{
    PlainArgument {
        name,
        state: Box::into_inner(state),
    }
}

// A frame of these.
fn frame(
    alloc: Global,
    arguments: Result<Vec<PlainArgument>, Memory>,
    part: Result<Box<State>, Memory>,
) -> Result<Box<State>, Memory>
    ensures { (args : PlainArguments) (a : PlainState) → MakesAll arguments args → Makes part a → Makes result (plain_frame args a) }
{
    match pair(arguments, part) {
        Ok((arguments, a)) => boxed(alloc, State::Frame(arguments, a)),
        Err(Memory) => Err(Memory),
    }
}

// Nothing more of a type.
fn sink(alloc: Global, t: &Ty) -> Result<Box<State>, Memory>
    ensures { Makes result (plain_sink (type_of t.now)) }
{
    match stream_type::copy(alloc, t) {
        Ok(t) => boxed(alloc, State::Sink(t)),
        Err(Memory) => Err(Memory),
    }
}

// Both at once.
fn par_of(
    alloc: Global,
    first: Result<Box<State>, Memory>,
    second: Result<Box<State>, Memory>,
) -> Result<Box<State>, Memory>
    ensures { (a b : PlainState) → Makes first a → Makes second b → Makes result (plain_par a b) }
{
    match pair(first, second) {
        Ok((a, b)) => boxed(alloc, State::Par(a, b)),
        Err(Memory) => Err(Memory),
    }
}

// The rest of the first part, and the code of the second.
fn cat(alloc: Global, part: Result<Box<State>, Memory>, l: &Code) -> Result<Box<State>, Memory>
    ensures { (a : PlainState) → Makes part a → Makes result (plain_cat a (plain_later (code_in l.now))) }
{
    match pair(part, plain_code(alloc, l)) {
        Ok((a, l)) => boxed(alloc, State::Cat(a, Box::into_inner(l))),
        Err(Memory) => Err(Memory),
    }
}

// A let of these.
fn let_of(
    alloc: Global,
    x: Name,
    first: Result<Box<State>, Memory>,
    second: Result<Box<State>, Memory>,
) -> Result<Box<State>, Memory>
    ensures { (a b : PlainState) → Makes first a → Makes second b → Makes result (plain_let x.0 a b) }
{
    match pair(first, second) {
        Ok((a, b)) => boxed(alloc, State::Let(x, a, b)),
        Err(Memory) => Err(Memory),
    }
}

// `let (x, y) = z` in this.
fn let_par_of(
    alloc: Global,
    x: Name,
    y: Name,
    z: Name,
    part: Result<Box<State>, Memory>,
) -> Result<Box<State>, Memory>
    ensures { (a : PlainState) → Makes part a → Makes result (plain_let_par x.0 y.0 z.0 a) }
{
    match part {
        Ok(a) => boxed(alloc, State::LetPar(x, y, z, a)),
        Err(Memory) => Err(Memory),
    }
}

// `let (x; y) = z` in this.
fn let_cat_of(
    alloc: Global,
    x: Name,
    y: Name,
    z: Name,
    part: Result<Box<State>, Memory>,
) -> Result<Box<State>, Memory>
    ensures { (a : PlainState) → Makes part a → Makes result (plain_let_cat x.0 y.0 z.0 a) }
{
    match part {
        Ok(a) => boxed(alloc, State::LetCat(x, y, z, a)),
        Err(Memory) => Err(Memory),
    }
}

// A case on a sum.
fn sum(
    alloc: Global,
    z: Name,
    t: &Ty,
    held: &[Entry],
    x: Name,
    l: &Code,
    y: Name,
    m: &Code,
) -> Result<Box<State>, Memory>
    ensures { Makes result (plain_sum z.0 (type_of t.now) (plain_held (map entry_in held.now)) x.0 (plain_later (code_in l.now)) y.0 (plain_later (code_in m.now))) }
{
    let before = pair(stream_type::copy(alloc, t), plain_entries(alloc, held));
    match pair(before, pair(plain_code(alloc, l), plain_code(alloc, m))) {
        Ok(((t, held), (one, two))) => {
            let (one, two) = (Box::into_inner(one), Box::into_inner(two));
            boxed(alloc, State::CaseSum(z, t, held, x, one, y, two))
        }
        Err(Memory) => Err(Memory),
    }
}

// A case on a star.
fn star(
    alloc: Global,
    z: Name,
    t: &Ty,
    held: &[Entry],
    l: &Code,
    y: Name,
    ys: Name,
    m: &Code,
) -> Result<Box<State>, Memory>
    ensures { Makes result (plain_star z.0 (type_of t.now) (plain_held (map entry_in held.now)) (plain_later (code_in l.now)) y.0 ys.0 (plain_later (code_in m.now))) }
{
    let before = pair(stream_type::copy(alloc, t), plain_entries(alloc, held));
    match pair(before, pair(plain_code(alloc, l), plain_code(alloc, m))) {
        Ok(((t, held), (one, two))) => {
            let (one, two) = (Box::into_inner(one), Box::into_inner(two));
            boxed(alloc, State::CaseStar(z, t, held, one, y, ys, two))
        }
        Err(Memory) => Err(Memory),
    }
}

// A wait.
fn wait(alloc: Global, x: Name, t: &Ty, held: &[Entry], l: &Code) -> Result<Box<State>, Memory>
    ensures { Makes result (plain_wait x.0 (type_of t.now) (plain_held (map entry_in held.now)) (plain_later (code_in l.now))) }
{
    let before = pair(stream_type::copy(alloc, t), plain_entries(alloc, held));
    match pair(before, plain_code(alloc, l)) {
        Ok(((t, held), one)) => boxed(alloc, State::Wait(x, t, held, Box::into_inner(one))),
        Err(Memory) => Err(Memory),
    }
}

// Code.
fn plain_code(alloc: Global, l: &Code) -> Result<Box<Later>, Memory>
    ensures { IfOk result (λ r. later_of r.value ≡ plain_later (code_in l.now)) }
{
    let depth = l.depth;
    match pair(core_term::copy(alloc, &l.term), plain_past(alloc, &l.past)) {
        Ok((term, past)) => results::boxed(alloc, Ok(Later { term, past, depth })),
        Err(Memory) => Err(Memory),
    }
}

// Known names.
fn plain_past(alloc: Global, past: &[Known]) -> Result<Vec<(Name, Value)>, Memory>
    ensures { IfOk result (λ v. past_of v.items ≡ map (λ e. (e.name, e.value)) (map known_in past.now)) }
{
    let mut found = Vec::new(alloc);
    for known in past {
        found.push((known.name, copy_value(alloc, &known.value)?))?;
    }
    Ok(found)
}

// What is held.
fn plain_entries(alloc: Global, held: &[Entry]) -> Result<Held, Memory>
    ensures { IfOk result (λ v. held_of v.items ≡ plain_held (map entry_in held.now)) }
{
    let mut found = Vec::new(alloc);
    for entry in held {
        found.push((entry.name, stream_prefix::copy(alloc, &entry.prefix)?))?;
    }
    Ok(found)
}
