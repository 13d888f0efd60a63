//! What a case and a wait can hold at most, or the first name that they count without a size.

ghost use Rattle.std.specs.Prelude.{◌≡◌};
ghost use Rattle.bunch.specs.Names.{numbers_of};
ghost use Rattle.core_term.specs.CoreTerm.{term_of};
ghost use Rattle.core_term.specs.FreeNames.{free_names, without};
ghost use Rattle.core_term.specs.Typing.{types_of};
ghost use Rattle.state_bounds.specs.Bounds.{total};
ghost use Rattle.state_bounds.specs.TermBounds.{room_of, case_room, wait_room};
ghost use Rattle.state_bounds.specs.ProgramBound.{first_large};
ghost use Rattle.delta_check.specs.Scopes.{context_in};
ghost use Rattle.delta_bound.specs.Unsized.{placed, case_unsized, wait_unsized};
ghost use Rattle.delta_bound.specs.Measured.{Measures, Sums, at_place, with_name, with_room};

use crate::sizes::{both, size};
use crate::stop::{Stop, Unsized};
use bunch::Name;
use core_term::{Node, free};
use delta_check::{Scope, before, stream_type};
use std::alloc::Global;
use stream_type::Ty;

/// What the case `n` on z can hold at most itself: `case_room` in the specs of state_bounds; or the
/// first name without a size that it counts. Its other error is want of memory.
pub fn room_of_case(
    alloc: Global,
    n: &Node,
    z: Name,
    scope: &Scope<'_>,
) -> Result<Option<u64>, Stop>
    ensures { Measures result
        (case_room (types_of (context_in scope.now)) (context_in scope.now).order z.0 (free_names (term_of n.now)))
        (placed n.now.at (case_unsized (context_in scope.now) z.0 (free_names (term_of n.now)))) }
{
    match free(alloc, n) {
        Ok(names) => at_place(n.at, case_total(scope, z, &names)),
        Err(_) => Err(Stop::Memory),
    }
}

/// What the wait `n` for x can hold at most itself: `wait_room` there; or the first name without a size
/// that it counts. Its other error is want of memory.
pub fn room_of_wait(
    alloc: Global,
    n: &Node,
    x: Name,
    scope: &Scope<'_>,
) -> Result<Option<u64>, Stop>
    ensures { Measures result
        (wait_room (types_of (context_in scope.now)) (context_in scope.now).order x.0 (free_names (term_of n.now)))
        (placed n.now.at (wait_unsized (context_in scope.now) x.0 (free_names (term_of n.now)))) }
{
    match free(alloc, n) {
        Ok(names) => at_place(n.at, wait_total(scope, x, &names)),
        Err(_) => Err(Stop::Memory),
    }
}

// The same, where the names belong to the node at this place.
fn at_place(at: u32, sum: Result<Option<u64>, Name>) -> Result<Option<u64>, Stop>
    ensures { result ≡ at_place at sum }
{
    match sum {
        Ok(b) => Ok(b),
        Err(name) => Err(Stop::Found(Unsized { name, at })),
    }
}

// What can come on the names while z hasn't told, less z itself, or the first that has no size.
fn case_total(scope: &Scope<'_>, z: Name, names: &[Name]) -> Result<Option<u64>, Name>
    ensures { Sums result
        (total (room_of (types_of (context_in scope.now)) (context_in scope.now).order z.0) (without z.0 (numbers_of names.now)))
        (first_large (room_of (types_of (context_in scope.now)) (context_in scope.now).order z.0) (without z.0 (numbers_of names.now))) }
{
    let mut all = Some(0);
    for y in names {
        match with_name(scope, z, all, *y) {
            Ok(sum) => all = sum,
            Err(name) => return Err(name),
        }
    }
    Ok(all)
}

// The sum with one name more, which counts where it isn't z.
fn with_name(scope: &Scope<'_>, z: Name, all: Option<u64>, y: Name) -> Result<Option<u64>, Name>
    ensures { result ≡ with_name (room_of (types_of (context_in scope.now)) (context_in scope.now).order z.0) z.0 all y }
{
    if y.0 == z.0 {
        Ok(all)
    } else {
        with_room(all, y, room(scope, z, y))
    }
}

// What can come on the names while x isn't whole, or the first that has no size.
fn wait_total(scope: &Scope<'_>, x: Name, names: &[Name]) -> Result<Option<u64>, Name>
    ensures { Sums result
        (total (room_of (types_of (context_in scope.now)) (context_in scope.now).order x.0) (numbers_of names.now))
        (first_large (room_of (types_of (context_in scope.now)) (context_in scope.now).order x.0) (numbers_of names.now)) }
{
    let mut all = Some(0);
    for y in names {
        match with_room(all, *y, room(scope, x, *y)) {
            Ok(sum) => all = sum,
            Err(name) => return Err(name),
        }
    }
    Ok(all)
}

// The sum with the room of one name more, where it has a size.
fn with_room(all: Option<u64>, y: Name, room: Option<u64>) -> Result<Option<u64>, Name>
    ensures { result ≡ with_room all y room }
{
    match room {
        Some(n) => Ok(both(all, Some(n))),
        None => Err(y),
    }
}

// What can come on y while z hasn't told: nothing where z stands before it.
fn room(scope: &Scope<'_>, z: Name, y: Name) -> Option<u64>
    ensures { result ≡ room_of (types_of (context_in scope.now)) (context_in scope.now).order z.0 y.0 }
{
    if before(scope, z, y) {
        return Some(0);
    }
    match stream_type(scope, y) {
        Some(t) => size(t),
        None => Some(0),
    }
}
