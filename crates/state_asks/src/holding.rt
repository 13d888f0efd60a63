//! What states ask that hold what came until a mark or an end comes, and what code asks once it is reached.
//!
//! The type in a case or a wait plays no part in what is asked: `eps` stands for it.

ghost use Rattle.std.specs.Prelude.{map, OnOk};
ghost use Rattle.stream_type.specs.StreamType.{type_of, eps};
ghost use Rattle.stream_prefix.specs.StreamPrefix.{is_maximal};
ghost use Rattle.hist_value.specs.Wholes.{value_of};
ghost use Rattle.delta_state.specs.StateTree.{sum_state, star_state, wait_state};
ghost use Rattle.delta_state.specs.StateMeaning.{knowing, types_held, prefixes_held};
ghost use Rattle.machine_parts.specs.Entry.{entry_in};
ghost use Rattle.template_state.specs.Readers.{later_in};
ghost use Rattle.other_numbers.specs.Asked.{once_whole};
ghost use Rattle.other_numbers.specs.StateAsked.{asked_later};
ghost use Rattle.delta_code.specs.Steps.{funs_of};
ghost use Rattle.state_asks.specs.Asking.{Asks};
ghost use Rattle.state_asks.specs.Walks.{later_asks, live_asks};

use crate::ask::Ask;
use crate::asking::add_asks_of_code;
use crate::sides::{items_of, side_of};
use bunch::Name;
use delta_code::knowing;
use machine_parts::entry::Entry;
use machine_parts::holding::more;
use machine_parts::parts::{Sided, Taken, items_after, star_begun, star_types, sum_types};
use machine_parts::scope::{Scope, stream_at, type_at};
use machine_parts::stop::Stop;
use std::alloc::Global;
use stream_prefix::{Prefix, maximal};
use stream_type::Ty;
use template_state::{Code, Later};

/// Puts what code asks once it is reached behind what was found: `asked_later` of `other_numbers`. Its errors are
/// those of `add_asks_of_code`, and as many calls left as its depth count as want of memory.
#[inline(never)]
pub fn add_asks_of_later<'a>(
    alloc: Global,
    code: &Code,
    scope: &'a Scope<'a>,
    l: &Later,
    r: &Ty,
    left: u64,
    levels: u64,
    found: &mut Vec<Ask>,
) -> Result<(), Stop>
    ensures { OnOk result (Asks found.old.items found.new.items (later_asks code.now scope.now (later_in l.now) (type_of r.now))) }
{
    if left >= l.depth {
        return Err(Stop::Memory);
    }
    add_asks_of_code(
        alloc, code, l.depth, scope, &l.past, &l.code, r, left, levels, found,
    )
}

/// A case on a sum, on what was held and what comes. Its errors are those of `add_asks_of_later`.
#[tactic(auto, using(machine_parts::proofs::HeldAndComing::held_forms))]
#[inline(never)]
pub fn add_sum<'a>(
    alloc: Global,
    code: &Code,
    scope: &'a Scope<'a>,
    z: Name,
    held: &[Entry],
    x: Name,
    l: &Later,
    y: Name,
    m: &Later,
    r: &Ty,
    left: u64,
    levels: u64,
    found: &mut Vec<Ask>,
) -> Result<(), Stop>
    ensures { OnOk result (Asks found.old.items found.new.items (live_asks code.now scope.now (sum_state z.0 eps (map entry_in held.now) x.0 (later_in l.now) y.0 (later_in m.now)) (type_of r.now))) }
{
    let entries = more(alloc, held, scope)?;
    let all = Scope::Names(&entries);
    let (s, u) = sum_types(type_at(&all, z, &Ty::Eps), &Ty::Eps);
    match side_of(stream_at(&all, z, &Prefix::EpsEmp)) {
        Sided::Left(q) => {
            let inner = Scope::Stream(x, s, q, &all);
            add_asks_of_later(alloc, code, &inner, l, r, left, levels, found)
        }
        Sided::Right(q) => {
            let inner = Scope::Stream(y, u, q, &all);
            add_asks_of_later(alloc, code, &inner, m, r, left, levels, found)
        }
        Sided::Nothing => Ok(()),
    }
}

/// A case on a star, on what was held and what comes. Its errors are those of `add_asks_of_later`.
#[tactic(auto, using(machine_parts::proofs::HeldAndComing::held_forms))]
#[inline(never)]
pub fn add_star<'a>(
    alloc: Global,
    code: &Code,
    scope: &'a Scope<'a>,
    z: Name,
    held: &[Entry],
    l: &Later,
    y: Name,
    ys: Name,
    m: &Later,
    r: &Ty,
    left: u64,
    levels: u64,
    found: &mut Vec<Ask>,
) -> Result<(), Stop>
    ensures { OnOk result (Asks found.old.items found.new.items (live_asks code.now scope.now (star_state z.0 eps (map entry_in held.now) (later_in l.now) y.0 ys.0 (later_in m.now)) (type_of r.now))) }
{
    let entries = more(alloc, held, scope)?;
    let all = Scope::Names(&entries);
    let (s, u) = star_types(type_at(&all, z, &Ty::Eps), &Ty::Eps);
    match items_of(stream_at(&all, z, &Prefix::EpsEmp)) {
        Taken::Over => add_asks_of_later(alloc, code, &all, l, r, left, levels, found),
        Taken::First(q) => {
            let qs = star_begun(alloc)?;
            let outer = Scope::Stream(y, s, q, &all);
            let inner = Scope::Stream(ys, u, &qs, &outer);
            add_asks_of_later(alloc, code, &inner, m, r, left, levels, found)
        }
        Taken::Item(q, after, end) => {
            let qs = items_after(alloc, after, end)?;
            let outer = Scope::Stream(y, s, q, &all);
            let inner = Scope::Stream(ys, u, &qs, &outer);
            add_asks_of_later(alloc, code, &inner, m, r, left, levels, found)
        }
        Taken::Nothing => Ok(()),
    }
}

/// A wait, on what was held and what comes. Its errors are those of `add_asks_of_later`.
#[tactic(auto, using(machine_parts::proofs::HeldAndComing::held_forms))]
#[inline(never)]
pub fn add_wait<'a>(
    alloc: Global,
    code: &Code,
    scope: &'a Scope<'a>,
    x: Name,
    held: &[Entry],
    l: &Later,
    r: &Ty,
    left: u64,
    levels: u64,
    found: &mut Vec<Ask>,
) -> Result<(), Stop>
    ensures { OnOk result (Asks found.old.items found.new.items (live_asks code.now scope.now (wait_state x.0 eps (map entry_in held.now) (later_in l.now)) (type_of r.now))) }
{
    let entries = more(alloc, held, scope)?;
    add_known(alloc, code, x, &entries, l, r, left, levels, found)
}

// Code that waits for a name, on what came of each name, once that is whole.
#[inline(never)]
fn add_known(
    alloc: Global,
    code: &Code,
    x: Name,
    held: &[Entry],
    l: &Later,
    r: &Ty,
    left: u64,
    levels: u64,
    found: &mut Vec<Ask>,
) -> Result<(), Stop>
    ensures { OnOk result (Asks found.old.items found.new.items (once_whole (is_maximal (prefixes_held (map entry_in held.now) x.0)) (asked_later (funs_of code.now) (knowing x.0 (types_held (map entry_in held.now) x.0) (value_of (prefixes_held (map entry_in held.now) x.0)) (later_in l.now)) (types_held (map entry_in held.now)) (type_of r.now) (prefixes_held (map entry_in held.now))))) }
{
    let all = Scope::Names(held);
    let p = stream_at(&all, x, &Prefix::EpsEmp);
    if !maximal(p) {
        return Ok(());
    }
    if left >= l.depth {
        return Err(Stop::Memory);
    }
    let known = knowing(alloc, x, type_at(&all, x, &Ty::Eps), p, &l.past)?;
    add_asks_of_code(
        alloc, code, l.depth, &all, &known, &l.code, r, left, levels, found,
    )
}
