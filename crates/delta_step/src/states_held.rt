//! States without parts that run: what is over, names, and cases and waits, on what was held and what comes.

ghost use Rattle.std.specs.Prelude.{◌≡◌, ◌<◌, ◌≤◌, map, IfOk, IfErr};
ghost use Rattle.stream_type.specs.StreamType.{type_of};
ghost use Rattle.stream_prefix.specs.StreamPrefix.{is_maximal};
ghost use Rattle.delta_state.specs.StateTree.{sum_state, star_state, wait_state};
ghost use Rattle.delta_state.specs.StateMeaning.{knowing, run_later, types_held, prefixes_held};
ghost use Rattle.hist_value.specs.Wholes.{value_of};
ghost use Rattle.delta_state.specs.Rest.{rest_later};
ghost use Rattle.delta_step.specs.Marked.{state_in, code_in};
ghost use Rattle.machine_parts.specs.Entry.{entry_in};
ghost use Rattle.machine_parts.specs.Scope.{types_in, streams_in};
ghost use Rattle.delta_step.specs.Reached.{run_of, rest_of};
ghost use Rattle.delta_step.specs.Gives.{Gives};
ghost use Rattle.delta_step.specs.Steps.{funs_in, state_run, state_rest};

use crate::copying::knowing;
use crate::holding_back::{star_holds, sum_holds, wait_holds};
use crate::marked::{Code, Marked};
use crate::parts_done::{alias_done, item_done, made, unmarked_done};
use crate::reached::Reached;
use crate::reaching::reach;
use crate::without_calls::{named, sunk};
use bunch::Name;
use core_term::Core;
use machine_parts::entry::Entry;
use machine_parts::holding::more;
use machine_parts::parts::{
    Sided, Taken, items_after, side_taken, star_begun, star_taken, star_types, sum_types,
};
use machine_parts::scope::{Scope, stream_at, type_at};
use machine_parts::stop::Stop;
use std::alloc::Global;
use stream_prefix::{Prefix, maximal};
use stream_type::Ty;

/// What a state without parts that run gives in its scope, with what is left of its type, and what is left of it
/// then: as `step`. As want of memory counts a depth that doesn't do, and a state with parts that run.
#[tactic(auto, using(crate::proofs::Rows::rows))]
#[inline(never)]
pub fn step_alone<'a>(
    alloc: Global,
    core: &Core,
    scope: &'a Scope<'a>,
    s: &Marked,
    r: &Ty,
    left: u64,
    levels: u64,
) -> Result<Reached, Stop>
    ensures run { IfOk result (λ a. run_of a ≡ state_run core.now scope.now (state_in s.now) (type_of r.now)) }
    ensures rest { IfOk result (λ a. rest_of a ≡ state_rest core.now scope.now (state_in s.now) (type_of r.now)) }
    ensures counted { IfOk result (λ a. a.calls ≤ left) }
    ensures shallow { IfOk result (λ a. a.level ≤ levels) }
    ensures spent { IfErr result (λ e. e ≡ Stop.Spent → left < (state_run core.now scope.now (state_in s.now) (type_of r.now)).calls) }
    ensures deep { IfErr result (λ e. e ≡ Stop.Deep → levels < (state_run core.now scope.now (state_in s.now) (type_of r.now)).level) }
{
    match s {
        Marked::Sink(t) => made(sunk(alloc, t)),
        Marked::Var(x) => made(named(alloc, scope, *x)),
        Marked::CaseSum(z, t, held, x, l, y, m) => {
            step_sum(
                alloc, core, scope, *z, t, held, *x, l, *y, m, r, left, levels,
            )
        }
        Marked::CaseStar(z, t, held, l, y, ys, m) => {
            step_star(
                alloc, core, scope, *z, t, held, l, *y, *ys, m, r, left, levels,
            )
        }
        Marked::Wait(x, t, held, l) => step_wait(
            alloc, core, scope, *x, t, held, l, r, left, levels,
        ),
        _ => Err(Stop::Memory),
    }
}

/// Code, once it is reached. As want of memory counts a depth that doesn't do.
#[inline(never)]
pub fn open<'a>(
    alloc: Global,
    core: &Core,
    scope: &'a Scope<'a>,
    l: &Code,
    r: &Ty,
    left: u64,
    levels: u64,
) -> Result<Reached, Stop>
    ensures run { IfOk result (λ a. run_of a ≡ run_later (funs_in core.now) (code_in l.now) (types_in scope.now) (type_of r.now) (streams_in scope.now)) }
    ensures rest { IfOk result (λ a. rest_of a ≡ rest_later (funs_in core.now) (code_in l.now) (types_in scope.now) (type_of r.now) (streams_in scope.now)) }
    ensures counted { IfOk result (λ a. a.calls ≤ left) }
    ensures shallow { IfOk result (λ a. a.level ≤ levels) }
    ensures spent { IfErr result (λ e. e ≡ Stop.Spent → left < (run_later (funs_in core.now) (code_in l.now) (types_in scope.now) (type_of r.now) (streams_in scope.now)).calls) }
    ensures deep { IfErr result (λ e. e ≡ Stop.Deep → levels < (run_later (funs_in core.now) (code_in l.now) (types_in scope.now) (type_of r.now) (streams_in scope.now)).level) }
{
    if left < l.depth {
        reach(
            alloc, core, l.depth, scope, &l.past, &l.term, r, left, levels,
        )
    } else {
        Err(Stop::Memory)
    }
}

// A case on a sum, on what was held and what comes.
#[inline(never)]
fn step_sum<'a>(
    alloc: Global,
    core: &Core,
    scope: &'a Scope<'a>,
    z: Name,
    t: &Ty,
    held: &[Entry],
    x: Name,
    l: &Code,
    y: Name,
    m: &Code,
    r: &Ty,
    left: u64,
    levels: u64,
) -> Result<Reached, Stop>
    ensures { Gives result (state_run core.now scope.now (sum_state z.0 (type_of t.now) (map entry_in held.now) x.0 (code_in l.now) y.0 (code_in m.now)) (type_of r.now)) (state_rest core.now scope.now (sum_state z.0 (type_of t.now) (map entry_in held.now) x.0 (code_in l.now) y.0 (code_in m.now)) (type_of r.now)) left levels }
{
    let Ok(held) = more(alloc, held, scope) else {
        return Err(Stop::Memory);
    };
    let all = Scope::Names(&held);
    let (s, u) = sum_types(type_at(&all, z, &Ty::Eps), &Ty::Eps);
    match side_taken(stream_at(&all, z, &Prefix::EpsEmp)) {
        Sided::Left(q) => {
            let inner = Scope::Stream(x, s, q, &all);
            let inside = open(alloc, core, &inner, l, r, left, levels);
            alias_done(alloc, x, s, q, z, inside)
        }
        Sided::Right(q) => {
            let inner = Scope::Stream(y, u, q, &all);
            let inside = open(alloc, core, &inner, m, r, left, levels);
            alias_done(alloc, y, u, q, z, inside)
        }
        Sided::Nothing => made(sum_holds(alloc, z, t, held, x, l, y, m, r)),
    }
}

// A case on a star, on what was held and what comes.
#[inline(never)]
fn step_star<'a>(
    alloc: Global,
    core: &Core,
    scope: &'a Scope<'a>,
    z: Name,
    t: &Ty,
    held: &[Entry],
    l: &Code,
    y: Name,
    ys: Name,
    m: &Code,
    r: &Ty,
    left: u64,
    levels: u64,
) -> Result<Reached, Stop>
    ensures { Gives result (state_run core.now scope.now (star_state z.0 (type_of t.now) (map entry_in held.now) (code_in l.now) y.0 ys.0 (code_in m.now)) (type_of r.now)) (state_rest core.now scope.now (star_state z.0 (type_of t.now) (map entry_in held.now) (code_in l.now) y.0 ys.0 (code_in m.now)) (type_of r.now)) left levels }
{
    let Ok(held) = more(alloc, held, scope) else {
        return Err(Stop::Memory);
    };
    let all = Scope::Names(&held);
    let ty = type_at(&all, z, &Ty::Eps);
    let (s, u) = star_types(ty, &Ty::Eps);
    match star_taken(stream_at(&all, z, &Prefix::EpsEmp)) {
        Taken::Over => open(alloc, core, &all, l, r, left, levels),
        Taken::First(q) => {
            let Ok(qs) = star_begun(alloc) else {
                return Err(Stop::Memory);
            };
            let outer = Scope::Stream(y, s, q, &all);
            let inner = Scope::Stream(ys, u, &qs, &outer);
            let inside = open(alloc, core, &inner, m, r, left, levels);
            unmarked_done(alloc, y, ys, z, inside)
        }
        Taken::Item(q, after, end) => {
            let Ok(qs) = items_after(alloc, after, end) else {
                return Err(Stop::Memory);
            };
            let outer = Scope::Stream(y, s, q, &all);
            let inner = Scope::Stream(ys, u, &qs, &outer);
            let inside = open(alloc, core, &inner, m, r, left, levels);
            item_done(alloc, y, s, q, ys, ty, &qs, z, inside)
        }
        Taken::Nothing => made(star_holds(alloc, z, t, held, l, y, ys, m, r)),
    }
}

// A wait, on what was held and what comes.
#[inline(never)]
fn step_wait<'a>(
    alloc: Global,
    core: &Core,
    scope: &'a Scope<'a>,
    x: Name,
    t: &Ty,
    held: &[Entry],
    l: &Code,
    r: &Ty,
    left: u64,
    levels: u64,
) -> Result<Reached, Stop>
    ensures { Gives result (state_run core.now scope.now (wait_state x.0 (type_of t.now) (map entry_in held.now) (code_in l.now)) (type_of r.now)) (state_rest core.now scope.now (wait_state x.0 (type_of t.now) (map entry_in held.now) (code_in l.now)) (type_of r.now)) left levels }
{
    let Ok(held) = more(alloc, held, scope) else {
        return Err(Stop::Memory);
    };
    if is_over(&held, x) {
        return open_known(alloc, core, &held, x, l, r, left, levels);
    }
    made(wait_holds(alloc, x, t, held, l, r))
}

// Whether what came on a name is whole.
fn is_over(held: &[Entry], x: Name) -> bool
    ensures { result ≡ is_maximal (prefixes_held (map entry_in held.now) x.0) }
{
    let all = Scope::Names(held);
    maximal(stream_at(&all, x, &Prefix::EpsEmp))
}

// Code that waited for a name, on what was held of each name, once that is whole.
#[inline(never)]
fn open_known(
    alloc: Global,
    core: &Core,
    held: &[Entry],
    x: Name,
    l: &Code,
    r: &Ty,
    left: u64,
    levels: u64,
) -> Result<Reached, Stop>
    ensures { Gives result (run_later (funs_in core.now) (knowing x.0 (types_held (map entry_in held.now) x.0) (value_of (prefixes_held (map entry_in held.now) x.0)) (code_in l.now)) (types_held (map entry_in held.now)) (type_of r.now) (prefixes_held (map entry_in held.now))) (rest_later (funs_in core.now) (knowing x.0 (types_held (map entry_in held.now) x.0) (value_of (prefixes_held (map entry_in held.now) x.0)) (code_in l.now)) (types_held (map entry_in held.now)) (type_of r.now) (prefixes_held (map entry_in held.now))) left levels }
{
    if left >= l.depth {
        return Err(Stop::Memory);
    }
    let all = Scope::Names(held);
    let p = stream_at(&all, x, &Prefix::EpsEmp);
    let Ok(known) = knowing(alloc, x, type_at(&all, x, &Ty::Eps), p, &l.past) else {
        return Err(Stop::Memory);
    };
    reach(alloc, core, l.depth, &all, &known, &l.term, r, left, levels)
}
