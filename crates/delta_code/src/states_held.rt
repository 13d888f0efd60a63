//! States without parts that go on: what is over, names, and cases and waits, on what was held and what comes.

ghost use Rattle.std.specs.Prelude.{◌≡◌, map, OnOk};
ghost use Rattle.stream_type.specs.StreamType.{type_of};
ghost use Rattle.stream_prefix.specs.StreamPrefix.{is_maximal};
ghost use Rattle.hist_value.specs.Wholes.{value_of};
ghost use Rattle.delta_state.specs.StateTree.{sum_state, star_state, wait_state};
ghost use Rattle.delta_state.specs.StateMeaning.{knowing, run_later, types_held, prefixes_held};
ghost use Rattle.delta_state.specs.Rest.{rest_later, held_more};
ghost use Rattle.machine_parts.specs.Entry.{entry_in};
ghost use Rattle.machine_parts.specs.Scope.{types_in, streams_in};
ghost use Rattle.template_state.specs.Readers.{state_in, later_in};
ghost use Rattle.delta_code.specs.Gives.{Gives};
ghost use Rattle.delta_code.specs.GoesOn.{GoesOn, GoesOnAs};
ghost use Rattle.delta_code.specs.Steps.{funs_of, live_run, live_rest};

use crate::begun::Begun;
use crate::parts_done::{alias_done, item_done, unmarked_done};
use crate::seeing::knowing;
use crate::starting::start_term;
use crate::states_done::{goes_done, put_done, quiet_done, stays_done};
use crate::told::{Gone, Told};
use bunch::Name;
use machine_parts::entry::Entry;
use machine_parts::holding;
use machine_parts::parts::{
    Sided, Taken, copied, items_after, nothing_yet, side_taken, star_begun, star_taken, star_types,
    sum_types,
};
use machine_parts::scope::{Scope, stream_at, type_at};
use machine_parts::stop::Stop;
use std::alloc::Global;
use stream_prefix::{Prefix, maximal};
use stream_type::{Memory, Ty};
use template_state::{Code, Later, Live};

/// A state without parts that go on: as `step`. As want of memory counts a state with parts that do.
#[inline(never)]
pub fn step_alone<'a>(
    alloc: Global,
    code: &Code,
    scope: &'a Scope<'a>,
    s: &mut Live,
    r: &Ty,
    left: u64,
    levels: u64,
) -> Result<Told, Stop>
    ensures { GoesOn result (live_run code.now scope.now (state_in s.old) (type_of r.now)) (live_rest code.now scope.now (state_in s.old) (type_of r.now)) (state_in s.new) left levels }
{
    match s {
        Live::Sink(t) => quiet_done(nothing_yet(alloc, t)),
        Live::Var(x) => quiet_done(copied(alloc, stream_at(scope, *x, &Prefix::EpsEmp))),
        Live::CaseSum(z, t, held, x, l, y, m) => {
            let gone = step_sum(
                alloc, code, scope, *z, t, held, *x, l, *y, m, r, left, levels,
            );
            put_done(s, gone)
        }
        Live::CaseStar(z, t, held, l, y, ys, m) => {
            let gone = step_star(
                alloc, code, scope, *z, t, held, l, *y, *ys, m, r, left, levels,
            );
            put_done(s, gone)
        }
        Live::Wait(x, t, held, l) => {
            let gone = step_wait(alloc, code, scope, *x, t, held, l, r, left, levels);
            put_done(s, gone)
        }
        _ => Err(Stop::Memory),
    }
}

/// Code, once it is reached. As want of memory counts a depth that doesn't do.
#[inline(never)]
pub fn open<'a>(
    alloc: Global,
    code: &Code,
    scope: &'a Scope<'a>,
    l: &Later,
    r: &Ty,
    left: u64,
    levels: u64,
) -> Result<Begun, Stop>
    ensures { Gives result (run_later (funs_of code.now) (later_in l.now) (types_in scope.now) (type_of r.now) (streams_in scope.now)) (rest_later (funs_of code.now) (later_in l.now) (types_in scope.now) (type_of r.now) (streams_in scope.now)) left levels }
{
    if left < l.depth {
        start_term(
            alloc, code, l.depth, scope, &l.past, &l.code, r, left, levels,
        )
    } else {
        Err(Stop::Memory)
    }
}

// A case on a sum, on what was held and what comes.
#[inline(never)]
fn step_sum<'a>(
    alloc: Global,
    code: &Code,
    scope: &'a Scope<'a>,
    z: Name,
    t: &Ty,
    held: &mut Vec<Entry>,
    x: Name,
    l: &Later,
    y: Name,
    m: &Later,
    r: &Ty,
    left: u64,
    levels: u64,
) -> Result<Gone, Stop>
    ensures { GoesOnAs result (live_run code.now scope.now (sum_state z.0 (type_of t.now) (map entry_in held.old.items) x.0 (later_in l.now) y.0 (later_in m.now)) (type_of r.now)) (live_rest code.now scope.now (sum_state z.0 (type_of t.now) (map entry_in held.old.items) x.0 (later_in l.now) y.0 (later_in m.now)) (type_of r.now)) (sum_state z.0 (type_of t.now) (map entry_in held.new.items) x.0 (later_in l.now) y.0 (later_in m.now)) left levels }
{
    let Ok(()) = hold(alloc, held, scope) else {
        return Err(Stop::Memory);
    };
    let all = Scope::Names(held);
    let (s, u) = sum_types(type_at(&all, z, &Ty::Eps), &Ty::Eps);
    match side_taken(stream_at(&all, z, &Prefix::EpsEmp)) {
        Sided::Left(q) => {
            let inner = Scope::Stream(x, s, q, &all);
            let inside = open(alloc, code, &inner, l, r, left, levels);
            goes_done(alias_done(alloc, x, s, q, z, inside))
        }
        Sided::Right(q) => {
            let inner = Scope::Stream(y, u, q, &all);
            let inside = open(alloc, code, &inner, m, r, left, levels);
            goes_done(alias_done(alloc, y, u, q, z, inside))
        }
        Sided::Nothing => stays_done(nothing_yet(alloc, r)),
    }
}

// A case on a star, on what was held and what comes.
#[inline(never)]
fn step_star<'a>(
    alloc: Global,
    code: &Code,
    scope: &'a Scope<'a>,
    z: Name,
    t: &Ty,
    held: &mut Vec<Entry>,
    l: &Later,
    y: Name,
    ys: Name,
    m: &Later,
    r: &Ty,
    left: u64,
    levels: u64,
) -> Result<Gone, Stop>
    ensures { GoesOnAs result (live_run code.now scope.now (star_state z.0 (type_of t.now) (map entry_in held.old.items) (later_in l.now) y.0 ys.0 (later_in m.now)) (type_of r.now)) (live_rest code.now scope.now (star_state z.0 (type_of t.now) (map entry_in held.old.items) (later_in l.now) y.0 ys.0 (later_in m.now)) (type_of r.now)) (star_state z.0 (type_of t.now) (map entry_in held.new.items) (later_in l.now) y.0 ys.0 (later_in m.now)) left levels }
{
    let Ok(()) = hold(alloc, held, scope) else {
        return Err(Stop::Memory);
    };
    let all = Scope::Names(held);
    let ty = type_at(&all, z, &Ty::Eps);
    let (s, u) = star_types(ty, &Ty::Eps);
    match star_taken(stream_at(&all, z, &Prefix::EpsEmp)) {
        Taken::Over => goes_done(open(alloc, code, &all, l, r, left, levels)),
        Taken::First(q) => {
            let Ok(qs) = star_begun(alloc) else {
                return Err(Stop::Memory);
            };
            let outer = Scope::Stream(y, s, q, &all);
            let inner = Scope::Stream(ys, u, &qs, &outer);
            let inside = open(alloc, code, &inner, m, r, left, levels);
            goes_done(unmarked_done(alloc, y, ys, z, inside))
        }
        Taken::Item(q, after, end) => {
            let Ok(qs) = items_after(alloc, after, end) else {
                return Err(Stop::Memory);
            };
            let outer = Scope::Stream(y, s, q, &all);
            let inner = Scope::Stream(ys, u, &qs, &outer);
            let inside = open(alloc, code, &inner, m, r, left, levels);
            goes_done(item_done(alloc, y, s, q, ys, ty, &qs, z, inside))
        }
        Taken::Nothing => stays_done(nothing_yet(alloc, r)),
    }
}

// A wait, on what was held and what comes.
#[inline(never)]
fn step_wait<'a>(
    alloc: Global,
    code: &Code,
    scope: &'a Scope<'a>,
    x: Name,
    t: &Ty,
    held: &mut Vec<Entry>,
    l: &Later,
    r: &Ty,
    left: u64,
    levels: u64,
) -> Result<Gone, Stop>
    ensures { GoesOnAs result (live_run code.now scope.now (wait_state x.0 (type_of t.now) (map entry_in held.old.items) (later_in l.now)) (type_of r.now)) (live_rest code.now scope.now (wait_state x.0 (type_of t.now) (map entry_in held.old.items) (later_in l.now)) (type_of r.now)) (wait_state x.0 (type_of t.now) (map entry_in held.new.items) (later_in l.now)) left levels }
{
    let Ok(()) = hold(alloc, held, scope) else {
        return Err(Stop::Memory);
    };
    if is_over(held, x) {
        return goes_done(open_known(alloc, code, held, x, l, r, left, levels));
    }
    stays_done(nothing_yet(alloc, r))
}

// Whether what came on a name is whole.
fn is_over(held: &[Entry], x: Name) -> bool
    ensures { result ≡ is_maximal (prefixes_held (map entry_in held.now) x.0) }
{
    let all = Scope::Names(held);
    maximal(stream_at(&all, x, &Prefix::EpsEmp))
}

// Code that waited for a name, on what was held of each name, once that is whole.
#[inline(never)]
fn open_known(
    alloc: Global,
    code: &Code,
    held: &[Entry],
    x: Name,
    l: &Later,
    r: &Ty,
    left: u64,
    levels: u64,
) -> Result<Begun, Stop>
    ensures { Gives result (run_later (funs_of code.now) (knowing x.0 (types_held (map entry_in held.now) x.0) (value_of (prefixes_held (map entry_in held.now) x.0)) (later_in l.now)) (types_held (map entry_in held.now)) (type_of r.now) (prefixes_held (map entry_in held.now))) (rest_later (funs_of code.now) (knowing x.0 (types_held (map entry_in held.now) x.0) (value_of (prefixes_held (map entry_in held.now) x.0)) (later_in l.now)) (types_held (map entry_in held.now)) (type_of r.now) (prefixes_held (map entry_in held.now))) left levels }
{
    if left >= l.depth {
        return Err(Stop::Memory);
    }
    let all = Scope::Names(held);
    let p = stream_at(&all, x, &Prefix::EpsEmp);
    let Ok(known) = knowing(alloc, x, type_at(&all, x, &Ty::Eps), p, &l.past) else {
        return Err(Stop::Memory);
    };
    start_term(alloc, code, l.depth, &all, &known, &l.code, r, left, levels)
}

// What comes is put behind what is held.
#[inline(never)]
fn hold<'a>(alloc: Global, held: &mut Vec<Entry>, scope: &'a Scope<'a>) -> Result<(), Memory>
    ensures { OnOk result (map entry_in held.new.items ≡ held_more (map entry_in held.old.items) (streams_in scope.now)) }
{
    holding::hold(alloc, held, &*scope)
}
