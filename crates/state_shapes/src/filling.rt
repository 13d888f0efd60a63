//! States whose numbers and depths are keys, filled from registers.

ghost use Rattle.std.specs.Prelude.{◌≡◌, map, IfOk};
ghost use Rattle.stream_type.specs.StreamType.{type_of};
ghost use Rattle.delta_state.specs.StateTree.{StateTree, ArgumentTrees, sink, par_state, cat_state, let_state, let_par_state, let_cat_state, sum_state, star_state, wait_state, frame_state, argument_before};
ghost use Rattle.machine_parts.specs.Entry.{entry_in};
ghost use Rattle.template_state.specs.Readers.{later_in, held_in, state_in, arguments_in};
ghost use Rattle.filled_states.specs.Filled.{filled_state};
ghost use Rattle.state_shapes.specs.RegisterLists.{lists_of};
ghost use Rattle.state_shapes.specs.Makes.{Makes, boxed_state};
ghost use Rattle.state_shapes.specs.From.{state_from, arguments_from, later_from, held_from};

use crate::filling_values::{fill_past, fill_prefix};
use crate::registers::{Registers, depth_at};
use bunch::Name;
use machine_parts::entry::Entry;
use machine_parts::results::{added, again, boxed, pair};
use std::alloc::Global;
use stream_type::{Memory, Ty};
use template_state::{Arguments, Later, Live};

/// The state with what the registers have beside each of its keys: `filled_state` in `filled_states`. Its code is
/// shared with the shape. Its only error is want of memory.
pub fn fill(alloc: Global, shape: &Live, registers: &Registers<'_>) -> Result<Box<Live>, Memory>
    ensures { IfOk result (λ s. state_in s.value ≡ filled_state registers.now.keys.now registers.now.numbers.now registers.now.depth_keys.now registers.now.depths.now (state_in shape.now)) }
{
    fill_state(alloc, shape, registers)
}

/// An equal state, whose code is shared with this one. Its only error is want of memory.
pub fn copy(alloc: Global, s: &Live) -> Result<Box<Live>, Memory>
    ensures { IfOk result (λ r. state_in r.value ≡ state_in s.now) }
{
    let registers = Registers {
        keys: &[],
        numbers: &[],
        depth_keys: &[],
        depths: &[],
    };
    fill_state(alloc, s, &registers)
}

#[cycle(fill)]
fn fill_state(alloc: Global, s: &Live, r: &Registers<'_>) -> Result<Box<Live>, Memory>
    ensures { Makes boxed_state result (state_from (lists_of r.now) (state_in s.now)) }
{
    match s {
        Live::Sink(t) => finished(alloc, t),
        Live::Var(x) => made(alloc, Live::Var(*x)),
        Live::Par(a, b) => par_of(alloc, fill_state(alloc, a, r), fill_state(alloc, b, r)),
        Live::Cat(a, l) => row(alloc, fill_state(alloc, a, r), l, r),
        Live::Let(x, t, a, b) => bound(
            alloc,
            *x,
            t,
            fill_state(alloc, a, r),
            fill_state(alloc, b, r),
        ),
        Live::LetPar(x, y, z, a) => let_par_of(alloc, *x, *y, *z, fill_state(alloc, a, r)),
        Live::LetCat(x, y, z, a) => let_cat_of(alloc, *x, *y, *z, fill_state(alloc, a, r)),
        Live::CaseSum(z, t, held, x, l, y, m) => on_sum(alloc, *z, t, held, *x, l, *y, m, r),
        Live::CaseStar(z, t, held, l, y, ys, m) => on_star(alloc, *z, t, held, l, *y, *ys, m, r),
        Live::Wait(x, t, held, l) => waiting(alloc, *x, t, held, l, r),
        Live::Frame(args, a) => framed(
            alloc,
            fill_arguments(alloc, args, r),
            fill_state(alloc, a, r),
        ),
    }
}

// The arguments of a frame.
#[cycle(fill)]
fn fill_arguments(
    alloc: Global,
    args: &Arguments,
    r: &Registers<'_>,
) -> Result<Box<Arguments>, Memory>
    ensures { IfOk result (λ v. arguments_in v.value ≡ arguments_from (lists_of r.now) (arguments_in args.now)) }
{
    match args {
        Arguments::None => boxed(alloc, Ok(Arguments::None)),
        Arguments::Before(name, t, a, others) => {
            let state = fill_state(alloc, a, r);
            one_more(alloc, *name, t, state, fill_arguments(alloc, others, r))
        }
    }
}

// A state of its own.
fn made(alloc: Global, form: Live) -> Result<Box<Live>, Memory>
    ensures { Makes boxed_state result (state_in form) }
{
    Ok(Box::new(alloc, form)?)
}

// One argument before others.
fn one_more(
    alloc: Global,
    name: Name,
    t: &Ty,
    state: Result<Box<Live>, Memory>,
    others: Result<Box<Arguments>, Memory>,
) -> Result<Box<Arguments>, Memory>
    ensures { (a : StateTree) (args : ArgumentTrees) → Makes boxed_state state a → IfOk others (λ r. arguments_in r.value ≡ args)
        → IfOk result (λ r. arguments_in r.value ≡ argument_before name.0 (type_of t.now) a args) }
{
    match pair(stream_type::copy(alloc, t), pair(state, others)) {
        Ok((ty, (state, others))) => boxed(alloc, Ok(Arguments::Before(name, ty, state, others))),
        Err(Memory) => Err(Memory),
    }
}

// A frame of these.
fn framed(
    alloc: Global,
    arguments: Result<Box<Arguments>, Memory>,
    part: Result<Box<Live>, Memory>,
) -> Result<Box<Live>, Memory>
    ensures { (args : ArgumentTrees) (a : StateTree) → IfOk arguments (λ r. arguments_in r.value ≡ args) → Makes boxed_state part a
        → Makes boxed_state result (frame_state args a) }
{
    match pair(arguments, part) {
        Ok((arguments, a)) => made(alloc, Live::Frame(arguments, a)),
        Err(Memory) => Err(Memory),
    }
}

// Nothing more of a type.
fn finished(alloc: Global, t: &Ty) -> Result<Box<Live>, Memory>
    ensures { Makes boxed_state result (sink (type_of t.now)) }
{
    match stream_type::copy(alloc, t) {
        Ok(ty) => made(alloc, Live::Sink(ty)),
        Err(Memory) => Err(Memory),
    }
}

// Both at once.
fn par_of(
    alloc: Global,
    first: Result<Box<Live>, Memory>,
    second: Result<Box<Live>, Memory>,
) -> Result<Box<Live>, Memory>
    ensures { (a b : StateTree) → Makes boxed_state first a → Makes boxed_state second b → Makes boxed_state result (par_state a b) }
{
    match pair(first, second) {
        Ok((a, b)) => made(alloc, Live::Par(a, b)),
        Err(Memory) => Err(Memory),
    }
}

// The rest of the first part, and the code of the second.
fn row(
    alloc: Global,
    part: Result<Box<Live>, Memory>,
    l: &Later,
    r: &Registers<'_>,
) -> Result<Box<Live>, Memory>
    ensures { (a : StateTree) → Makes boxed_state part a → Makes boxed_state result (cat_state a (later_from (lists_of r.now) (later_in l.now))) }
{
    match pair(part, fill_later(alloc, l, r)) {
        Ok((a, code)) => made(alloc, Live::Cat(a, code)),
        Err(Memory) => Err(Memory),
    }
}

// A let of these.
fn bound(
    alloc: Global,
    x: Name,
    t: &Ty,
    first: Result<Box<Live>, Memory>,
    second: Result<Box<Live>, Memory>,
) -> Result<Box<Live>, Memory>
    ensures { (a b : StateTree) → Makes boxed_state first a → Makes boxed_state second b → Makes boxed_state result (let_state x.0 (type_of t.now) a b) }
{
    match pair(stream_type::copy(alloc, t), pair(first, second)) {
        Ok((ty, (a, b))) => made(alloc, Live::Let(x, ty, a, b)),
        Err(Memory) => Err(Memory),
    }
}

// The two destructurings of what this one gives.
fn let_par_of(
    alloc: Global,
    x: Name,
    y: Name,
    z: Name,
    part: Result<Box<Live>, Memory>,
) -> Result<Box<Live>, Memory>
    ensures { (a : StateTree) → Makes boxed_state part a → Makes boxed_state result (let_par_state x.0 y.0 z.0 a) }
{
    match part {
        Ok(a) => made(alloc, Live::LetPar(x, y, z, a)),
        Err(Memory) => Err(Memory),
    }
}

fn let_cat_of(
    alloc: Global,
    x: Name,
    y: Name,
    z: Name,
    part: Result<Box<Live>, Memory>,
) -> Result<Box<Live>, Memory>
    ensures { (a : StateTree) → Makes boxed_state part a → Makes boxed_state result (let_cat_state x.0 y.0 z.0 a) }
{
    match part {
        Ok(a) => made(alloc, Live::LetCat(x, y, z, a)),
        Err(Memory) => Err(Memory),
    }
}

// A case on a sum.
fn on_sum(
    alloc: Global,
    z: Name,
    t: &Ty,
    held: &[Entry],
    x: Name,
    l: &Later,
    y: Name,
    m: &Later,
    r: &Registers<'_>,
) -> Result<Box<Live>, Memory>
    ensures { Makes boxed_state result (sum_state z.0 (type_of t.now) (map (held_from (lists_of r.now)) (held_in held.now)) x.0 (later_from (lists_of r.now) (later_in l.now)) y.0 (later_from (lists_of r.now) (later_in m.now))) }
{
    let before = pair(stream_type::copy(alloc, t), fill_entries(alloc, held, r));
    match pair(
        before,
        pair(fill_later(alloc, l, r), fill_later(alloc, m, r)),
    ) {
        Ok(((ty, held), (first, second))) => made(
            alloc,
            Live::CaseSum(z, ty, held, x, first, y, second),
        ),
        Err(Memory) => Err(Memory),
    }
}

// A case on a star.
fn on_star(
    alloc: Global,
    z: Name,
    t: &Ty,
    held: &[Entry],
    l: &Later,
    y: Name,
    ys: Name,
    m: &Later,
    r: &Registers<'_>,
) -> Result<Box<Live>, Memory>
    ensures { Makes boxed_state result (star_state z.0 (type_of t.now) (map (held_from (lists_of r.now)) (held_in held.now)) (later_from (lists_of r.now) (later_in l.now)) y.0 ys.0 (later_from (lists_of r.now) (later_in m.now))) }
{
    let before = pair(stream_type::copy(alloc, t), fill_entries(alloc, held, r));
    match pair(
        before,
        pair(fill_later(alloc, l, r), fill_later(alloc, m, r)),
    ) {
        Ok(((ty, held), (first, second))) => made(
            alloc,
            Live::CaseStar(z, ty, held, first, y, ys, second),
        ),
        Err(Memory) => Err(Memory),
    }
}

// A wait.
fn waiting(
    alloc: Global,
    x: Name,
    t: &Ty,
    held: &[Entry],
    l: &Later,
    r: &Registers<'_>,
) -> Result<Box<Live>, Memory>
    ensures { Makes boxed_state result (wait_state x.0 (type_of t.now) (map (held_from (lists_of r.now)) (held_in held.now)) (later_from (lists_of r.now) (later_in l.now))) }
{
    let before = pair(stream_type::copy(alloc, t), fill_entries(alloc, held, r));
    match pair(before, fill_later(alloc, l, r)) {
        Ok(((ty, held), code)) => made(alloc, Live::Wait(x, ty, held, code)),
        Err(Memory) => Err(Memory),
    }
}

// Code that isn't reached: the same code.
fn fill_later(alloc: Global, l: &Later, r: &Registers<'_>) -> Result<Later, Memory>
    ensures { IfOk result (λ m. later_in m ≡ later_from (lists_of r.now) (later_in l.now)) }
{
    let depth = depth_at(r.depth_keys, r.depths, l.depth);
    match pair(again(&l.code), fill_past(alloc, &l.past, r.keys, r.numbers)) {
        Ok((code, past)) => Ok(Later { code, past, depth }),
        Err(Memory) => Err(Memory),
    }
}

// What is held.
fn fill_entries(alloc: Global, held: &[Entry], r: &Registers<'_>) -> Result<Vec<Entry>, Memory>
    ensures { IfOk result (λ v. held_in v.items ≡ map (held_from (lists_of r.now)) (held_in held.now)) }
{
    let mut found = Vec::new(alloc);
    for entry in held {
        found = added(found, fill_entry(alloc, entry, r))?;
    }
    Ok(found)
}

fn fill_entry(alloc: Global, entry: &Entry, r: &Registers<'_>) -> Result<Entry, Memory>
    ensures { IfOk result (λ e. entry_in e ≡ held_from (lists_of r.now) (entry_in entry.now)) }
{
    let name = entry.name;
    let prefix = fill_prefix(alloc, &entry.prefix, r.keys, r.numbers);
    match pair(stream_type::copy(alloc, &entry.ty), prefix) {
        Ok((ty, prefix)) => Ok(Entry { name, ty, prefix }),
        Err(Memory) => Err(Memory),
    }
}
