//! What a term can hold at most, with a number for each function.

ghost use Rattle.std.specs.Prelude.{map};
ghost use Rattle.stream_type.specs.StreamType.{type_of};
ghost use Rattle.core_term.specs.CoreTerm.{term_of, terms_from, core_of};
ghost use Rattle.core_term.specs.FreeNames.{free_names};
ghost use Rattle.core_term.specs.Parts.{par_left, par_right, cat_first, cat_second, sum_left, sum_right, star_item, star_items};
ghost use Rattle.core_term.specs.TypeFaults.{first_some};
ghost use Rattle.core_term.specs.Typing.{type_at, types_of, with_name_like, with_parts, with_fact, with_let};
ghost use Rattle.delta_check.specs.Counting.{counts_in};
ghost use Rattle.delta_check.specs.Scopes.{context_in};
ghost use Rattle.state_bounds.specs.Bounds.{greater};
ghost use Rattle.state_bounds.specs.TermBounds.{case_room, wait_room};
ghost use Rattle.state_bounds.specs.ProgramBound.{number_at};
ghost use Rattle.delta_bound.specs.BoundIn.{bound_in, bounds_in};
ghost use Rattle.delta_bound.specs.Measured.{Measures, MeasuresTwo};
ghost use Rattle.delta_bound.specs.Unsized.{placed, case_unsized, wait_unsized, unsized_of, unsized_among};

use crate::measured::{beside, either, in_turn, of_let, together, with_number};
use crate::numbers::number_of;
use crate::rooms::{room_of_case, room_of_wait};
use crate::sizes::both;
use crate::stop::Stop;
use bunch::Name;
use core_term::parts::{cat_types, par_types, star_types, sum_types};
use core_term::{Core, Node, Term};
use delta_check::{Scope, let_placed, type_or};
use std::alloc::Global;
use stream_type::Ty;

/// What the term can hold at most in a scope, where the functions with a true mark count as inert, with
/// these numbers for the functions: `bound_in` in `specs/BoundIn.antt`. It stops at the first case or
/// wait that counts a name without a size: `unsized_of` in `specs/Unsized.antt`. Its other error is want
/// of memory.
#[cycle(bound)]
pub fn term_bound<'a>(
    alloc: Global,
    n: &Node,
    scope: &'a Scope<'a>,
    c: &Core,
    marks: &[bool],
    numbers: &[Option<u64>],
) -> Result<Option<u64>, Stop>
    ensures { Measures result
        (bound_in (core_of c.now).funs (counts_in (core_of c.now).funs marks.now) (number_at numbers.now) (term_of n.now) (context_in scope.now))
        (unsized_of (core_of c.now).funs (counts_in (core_of c.now).funs marks.now) n.now (context_in scope.now)) }
{
    match &n.term {
        Term::Var(_) | Term::Eps | Term::Unit | Term::Nil | Term::Past(_) => Ok(Some(0)),
        Term::Par(a, b) => together(two_bounds(alloc, a, scope, b, scope, c, marks, numbers)),
        Term::Cat(a, b) => either(two_bounds(alloc, a, scope, b, scope, c, marks, numbers)),
        Term::Cons(a, b) => either(two_bounds(alloc, a, scope, b, scope, c, marks, numbers)),
        Term::Inl(a) => term_bound(alloc, a, scope, c, marks, numbers),
        Term::Inr(a) => term_bound(alloc, a, scope, c, marks, numbers),
        Term::Let(x, s, a, b) => {
            of_let(let_bounds(alloc, *x, s, a, b, scope, c, marks, numbers))
        }
        Term::LetPar(x, y, z, a) => pair_bound(alloc, *x, *y, *z, a, scope, c, marks, numbers),
        Term::LetCat(x, y, z, a) => {
            sequence_bound(alloc, *x, *y, *z, a, scope, c, marks, numbers)
        }
        Term::CaseSum(z, _, x, a, y, b) => {
            sum_bound(alloc, n, *z, *x, a, *y, b, scope, c, marks, numbers)
        }
        Term::CaseStar(z, _, a, y, ys, b) => {
            star_bound(alloc, n, *z, a, *y, *ys, b, scope, c, marks, numbers)
        }
        Term::Wait(x, _, a) => wait_bound(alloc, n, *x, a, scope, c, marks, numbers),
        Term::Call(f, _, arguments) => with_number(
            arguments_bound(alloc, arguments, scope, c, marks, numbers),
            number_of(numbers, *f),
        ),
    }
}

// What two terms in turn can hold at most, each in its scope.
#[cycle(bound)]
fn two_bounds<'a>(
    alloc: Global,
    a: &Node,
    first: &'a Scope<'a>,
    b: &Node,
    second: &'a Scope<'a>,
    c: &Core,
    marks: &[bool],
    numbers: &[Option<u64>],
) -> Result<(Option<u64>, Option<u64>), Stop>
    ensures { MeasuresTwo result
        (bound_in (core_of c.now).funs (counts_in (core_of c.now).funs marks.now) (number_at numbers.now) (term_of a.now) (context_in first.now))
        (bound_in (core_of c.now).funs (counts_in (core_of c.now).funs marks.now) (number_at numbers.now) (term_of b.now) (context_in second.now))
        (first_some (unsized_of (core_of c.now).funs (counts_in (core_of c.now).funs marks.now) a.now (context_in first.now))
        (unsized_of (core_of c.now).funs (counts_in (core_of c.now).funs marks.now) b.now (context_in second.now))) }
{
    match term_bound(alloc, a, first, c, marks, numbers) {
        Ok(one) => in_turn(one, term_bound(alloc, b, second, c, marks, numbers)),
        Err(stop) => Err(stop),
    }
}

// The same of what a let binds to x, and of its body, in which x is known.
#[cycle(bound)]
fn let_bounds<'a>(
    alloc: Global,
    x: Name,
    s: &Ty,
    a: &Node,
    b: &Node,
    scope: &'a Scope<'a>,
    c: &Core,
    marks: &[bool],
    numbers: &[Option<u64>],
) -> Result<(Option<u64>, Option<u64>), Stop>
    ensures { MeasuresTwo result
        (bound_in (core_of c.now).funs (counts_in (core_of c.now).funs marks.now) (number_at numbers.now) (term_of a.now) (context_in scope.now))
        (bound_in (core_of c.now).funs (counts_in (core_of c.now).funs marks.now) (number_at numbers.now) (term_of b.now) (with_let (core_of c.now).funs (counts_in (core_of c.now).funs marks.now) x.0 (type_of s.now) (term_of a.now) (context_in scope.now)))
        (first_some (unsized_of (core_of c.now).funs (counts_in (core_of c.now).funs marks.now) a.now (context_in scope.now))
        (unsized_of (core_of c.now).funs (counts_in (core_of c.now).funs marks.now) b.now (with_let (core_of c.now).funs (counts_in (core_of c.now).funs marks.now) x.0 (type_of s.now) (term_of a.now) (context_in scope.now)))) }
{
    match let_placed(alloc, &*scope, a, s, b, c, marks) {
        Ok(place) => {
            let inner = Scope::Let(x, s, &place, &*scope);
            two_bounds(alloc, a, &*scope, b, &inner, c, marks, numbers)
        }
        Err(_) => Err(Stop::Memory),
    }
}

// The same of what is done with the two parts x and y of a pair z.
#[cycle(bound)]
fn pair_bound<'a>(
    alloc: Global,
    x: Name,
    y: Name,
    z: Name,
    a: &Node,
    scope: &'a Scope<'a>,
    c: &Core,
    marks: &[bool],
    numbers: &[Option<u64>],
) -> Result<Option<u64>, Stop>
    ensures { Measures result
        (bound_in (core_of c.now).funs (counts_in (core_of c.now).funs marks.now) (number_at numbers.now) (term_of a.now) (with_parts x.0 (par_left (type_at (context_in scope.now) z.0)) y.0 (par_right (type_at (context_in scope.now) z.0)) z.0 (context_in scope.now)))
        (unsized_of (core_of c.now).funs (counts_in (core_of c.now).funs marks.now) a.now (with_parts x.0 (par_left (type_at (context_in scope.now) z.0)) y.0 (par_right (type_at (context_in scope.now) z.0)) z.0 (context_in scope.now))) }
{
    let (s, t) = par_types(type_or(&*scope, z, &Ty::Eps), &Ty::Eps);
    let left = Scope::Like(x, s, z, &*scope);
    term_bound(alloc, a, &Scope::Like(y, t, z, &left), c, marks, numbers)
}

// The same of what is done with the two parts x and y of a sequence z.
#[cycle(bound)]
fn sequence_bound<'a>(
    alloc: Global,
    x: Name,
    y: Name,
    z: Name,
    a: &Node,
    scope: &'a Scope<'a>,
    c: &Core,
    marks: &[bool],
    numbers: &[Option<u64>],
) -> Result<Option<u64>, Stop>
    ensures { Measures result
        (bound_in (core_of c.now).funs (counts_in (core_of c.now).funs marks.now) (number_at numbers.now) (term_of a.now) (with_fact x.0 y.0 (with_parts x.0 (cat_first (type_at (context_in scope.now) z.0)) y.0 (cat_second (type_at (context_in scope.now) z.0)) z.0 (context_in scope.now))))
        (unsized_of (core_of c.now).funs (counts_in (core_of c.now).funs marks.now) a.now (with_fact x.0 y.0 (with_parts x.0 (cat_first (type_at (context_in scope.now) z.0)) y.0 (cat_second (type_at (context_in scope.now) z.0)) z.0 (context_in scope.now)))) }
{
    let (s, t) = cat_types(type_or(&*scope, z, &Ty::Eps), &Ty::Eps);
    let first = Scope::Like(x, s, z, &*scope);
    let pair = Scope::Like(y, t, z, &first);
    term_bound(alloc, a, &Scope::Fact(x, y, &pair), c, marks, numbers)
}

// The same of the case `n` on the sum z, with x in its left branch and y in its right one.
#[cycle(bound)]
fn sum_bound<'a>(
    alloc: Global,
    n: &Node,
    z: Name,
    x: Name,
    a: &Node,
    y: Name,
    b: &Node,
    scope: &'a Scope<'a>,
    c: &Core,
    marks: &[bool],
    numbers: &[Option<u64>],
) -> Result<Option<u64>, Stop>
    ensures { Measures result
        (greater (case_room (types_of (context_in scope.now)) (context_in scope.now).order z.0 (free_names (term_of n.now))) (greater (bound_in (core_of c.now).funs (counts_in (core_of c.now).funs marks.now) (number_at numbers.now) (term_of a.now) (with_name_like x.0 (sum_left (type_at (context_in scope.now) z.0)) z.0 (context_in scope.now))) (bound_in (core_of c.now).funs (counts_in (core_of c.now).funs marks.now) (number_at numbers.now) (term_of b.now) (with_name_like y.0 (sum_right (type_at (context_in scope.now) z.0)) z.0 (context_in scope.now)))))
        (first_some (first_some (placed n.now.at (case_unsized (context_in scope.now) z.0 (free_names (term_of n.now)))) (unsized_of (core_of c.now).funs (counts_in (core_of c.now).funs marks.now) a.now (with_name_like x.0 (sum_left (type_at (context_in scope.now) z.0)) z.0 (context_in scope.now)))) (unsized_of (core_of c.now).funs (counts_in (core_of c.now).funs marks.now) b.now (with_name_like y.0 (sum_right (type_at (context_in scope.now) z.0)) z.0 (context_in scope.now)))) }
{
    match room_of_case(alloc, n, z, &*scope) {
        Ok(room) => {
            let (s, t) = sum_types(type_or(&*scope, z, &Ty::Eps), &Ty::Eps);
            let left = Scope::Like(x, s, z, &*scope);
            let right = Scope::Like(y, t, z, &*scope);
            let sides = two_bounds(alloc, a, &left, b, &right, c, marks, numbers);
            beside(room, either(sides))
        }
        Err(stop) => Err(stop),
    }
}

// The same of the case `n` on the star z, with its first item y and the items ys after it.
#[cycle(bound)]
fn star_bound<'a>(
    alloc: Global,
    n: &Node,
    z: Name,
    a: &Node,
    y: Name,
    ys: Name,
    b: &Node,
    scope: &'a Scope<'a>,
    c: &Core,
    marks: &[bool],
    numbers: &[Option<u64>],
) -> Result<Option<u64>, Stop>
    ensures { Measures result
        (greater (case_room (types_of (context_in scope.now)) (context_in scope.now).order z.0 (free_names (term_of n.now))) (greater (bound_in (core_of c.now).funs (counts_in (core_of c.now).funs marks.now) (number_at numbers.now) (term_of a.now) (context_in scope.now)) (bound_in (core_of c.now).funs (counts_in (core_of c.now).funs marks.now) (number_at numbers.now) (term_of b.now) (with_fact y.0 ys.0 (with_parts y.0 (star_item (type_at (context_in scope.now) z.0)) ys.0 (star_items (type_at (context_in scope.now) z.0)) z.0 (context_in scope.now))))))
        (first_some (first_some (placed n.now.at (case_unsized (context_in scope.now) z.0 (free_names (term_of n.now)))) (unsized_of (core_of c.now).funs (counts_in (core_of c.now).funs marks.now) a.now (context_in scope.now))) (unsized_of (core_of c.now).funs (counts_in (core_of c.now).funs marks.now) b.now (with_fact y.0 ys.0 (with_parts y.0 (star_item (type_at (context_in scope.now) z.0)) ys.0 (star_items (type_at (context_in scope.now) z.0)) z.0 (context_in scope.now))))) }
{
    match room_of_case(alloc, n, z, &*scope) {
        Ok(room) => {
            let (item, rest) = star_types(type_or(&*scope, z, &Ty::Eps), &Ty::Eps);
            let front = Scope::Like(y, item, z, &*scope);
            let pair = Scope::Like(ys, rest, z, &front);
            let ordered = Scope::Fact(y, ys, &pair);
            let sides = two_bounds(alloc, a, &*scope, b, &ordered, c, marks, numbers);
            beside(room, either(sides))
        }
        Err(stop) => Err(stop),
    }
}

// The same of the wait `n` for x.
#[cycle(bound)]
fn wait_bound<'a>(
    alloc: Global,
    n: &Node,
    x: Name,
    a: &Node,
    scope: &'a Scope<'a>,
    c: &Core,
    marks: &[bool],
    numbers: &[Option<u64>],
) -> Result<Option<u64>, Stop>
    ensures { Measures result
        (greater (wait_room (types_of (context_in scope.now)) (context_in scope.now).order x.0 (free_names (term_of n.now))) (bound_in (core_of c.now).funs (counts_in (core_of c.now).funs marks.now) (number_at numbers.now) (term_of a.now) (context_in scope.now)))
        (first_some (placed n.now.at (wait_unsized (context_in scope.now) x.0 (free_names (term_of n.now)))) (unsized_of (core_of c.now).funs (counts_in (core_of c.now).funs marks.now) a.now (context_in scope.now))) }
{
    match room_of_wait(alloc, n, x, &*scope) {
        Ok(room) => beside(room, term_bound(alloc, a, scope, c, marks, numbers)),
        Err(stop) => Err(stop),
    }
}

// What arguments can hold at most.
#[cycle(bound)]
fn arguments_bound<'a>(
    alloc: Global,
    arguments: &[Node],
    scope: &'a Scope<'a>,
    c: &Core,
    marks: &[bool],
    numbers: &[Option<u64>],
) -> Result<Option<u64>, Stop>
    ensures { Measures result
        (bounds_in (core_of c.now).funs (counts_in (core_of c.now).funs marks.now) (number_at numbers.now) (terms_from (map term_of arguments.now)) (context_in scope.now))
        (unsized_among (core_of c.now).funs (counts_in (core_of c.now).funs marks.now) arguments.now (context_in scope.now)) }
{
    let mut all = Some(0);
    for argument in arguments {
        match term_bound(alloc, argument, scope, c, marks, numbers) {
            Ok(held) => all = both(all, held),
            Err(stop) => return Err(stop),
        }
    }
    Ok(all)
}
