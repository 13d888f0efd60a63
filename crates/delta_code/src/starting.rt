//! Templates that are reached: what they give, and the state that is left of them, form by form.
//!
//! Each function takes the number of calls that are left, and stops as soon as more are made; and the level
//! that they may have, and stops before one at a greater level. The depth stays above the number of calls, so
//! no call is met at which it is used up.

ghost use Rattle.std.specs.Prelude.{◌≡◌, ◌<◌, ◌≤◌, ◌-◌, ◌+◌, ◌^◌, [], ◌∷◌, max, map, IfOk, IfErr};
ghost use Rattle.stream_type.specs.StreamType.{StreamType, type_of};
ghost use Rattle.stream_prefix.specs.Tree.{prefix_of};
ghost use Rattle.hist_value.specs.HistValue.{hist_value_of};
ghost use Rattle.hist_value.specs.HistExpr.{expr_of};
ghost use Rattle.core_term.specs.CoreTerm.{par_term, cat_term, cons_term, inl_term, inr_term, let_term, let_par_term, let_cat_term, case_sum_term, case_star_term, wait_term, call_term, term_before};
ghost use Rattle.core_term.specs.Meaning.{call_at};
ghost use Rattle.delta_state.specs.StateTree.{no_arguments};
ghost use Rattle.delta_state.specs.Rest.{call_rest_at};
ghost use Rattle.machine_parts.specs.Parameters.{names_in, types_listed};
ghost use Rattle.template_state.specs.Readers.{op_term, operand_terms};
ghost use Rattle.delta_code.specs.Begun.{run_of, rest_of};
ghost use Rattle.delta_code.specs.Eased.{Eased};
ghost use Rattle.delta_code.specs.Gives.{Gives, GivesAll, Leads};
ghost use Rattle.delta_code.specs.Steps.{funs_of, op_run, op_rest, ops_run, ops_rest};
ghost use Rattle.delta_code.specs.Way.{within, after, reached_run, reached_rest, reached_calls, reached_level};

use crate::begun::{Begun, Passed, no_arguments};
use crate::entering::{body_at, entered, missing, params_of};
use crate::held::{before_items, before_term, hold_star, hold_sum, hold_wait};
use crate::inward::inward;
use crate::parts_done::{
    all_made, argument_done, at_place, both_done, call_done, given, left_done, let_done, made,
    right_done, turn_done, unnamed_done,
};
use crate::quiet::reach_quiet;
use crate::seeing::{is_var, knowing, values_in};
use crate::way::{
    Reached, Way, arrived, behind_item, into_alias, into_body, into_call, into_cut, into_let,
    into_pair, into_row, into_two, no_way,
};
use bunch::Name;
use hist_value::{Expr, Value};
use machine_parts::levels::inside;
use machine_parts::parts::{
    Sided, Taken, cat_types, first_part, items_after, par_parts, par_types, second_part,
    side_taken, star_begun, star_taken, star_types, sum_types,
};
use machine_parts::scope::{Scope, bind, stream_at, type_at};
use machine_parts::stop::Stop;
use std::alloc::Global;
use std::rc::Rc;
use stream_prefix::{Prefix, maximal};
use stream_type::Ty;
use template_state::{Code, Op, Operands, Past};

/// What a term gives in its scope, with its type, and what is left of it in a simpler form, where it makes at most
/// as many calls as are left, none of them at a greater level from below than `levels`: `run_at` in `core_term`
/// and, up to rewritings, `rest_at` in `delta_state`. It is `Spent` only where it makes more, and `Deep` only where
/// it makes one at a greater level. Its other error is want of memory.
pub fn start<'a>(
    alloc: Global,
    code: &Code,
    k: u64,
    scope: &'a Scope<'a>,
    past: &Rc<Past>,
    n: &Rc<Op>,
    r: &Ty,
    left: u64,
    levels: u64,
) -> Result<Begun, Stop>
    requires { left < k }
    ensures run { IfOk result (λ a. run_of a ≡ op_run code.now k scope.now past.now.value (op_term n.now.value) (type_of r.now)) }
    ensures rest { IfOk result (λ a. Eased (op_rest code.now k scope.now past.now.value (op_term n.now.value) (type_of r.now)) (rest_of a)) }
    ensures counted { IfOk result (λ a. a.calls ≤ left) }
    ensures shallow { IfOk result (λ a. a.level ≤ levels) }
    ensures spent { IfErr result (λ a. a ≡ Stop.Spent → left < (op_run code.now k scope.now past.now.value (op_term n.now.value) (type_of r.now)).calls) }
    ensures deep { IfErr result (λ a. a ≡ Stop.Deep → levels < (op_run code.now k scope.now past.now.value (op_term n.now.value) (type_of r.now)).level) }
{
    start_term(alloc, code, k, scope, past, n, r, left, levels)
}

/// The same as one fact.
#[cycle(start)]
pub fn start_term<'a>(
    alloc: Global,
    code: &Code,
    k: u64,
    scope: &'a Scope<'a>,
    past: &Rc<Past>,
    n: &Rc<Op>,
    r: &Ty,
    left: u64,
    levels: u64,
) -> Result<Begun, Stop>
    requires { left < k }
    ensures { Gives result (op_run code.now k scope.now past.now.value (op_term n.now.value) (type_of r.now)) (op_rest code.now k scope.now past.now.value (op_term n.now.value) (type_of r.now)) left levels }
{
    let mut way = no_way(alloc);
    match reach(alloc, code, k, scope, past, n, r, left, levels, &mut way) {
        Ok(reached) => go_on(alloc, code, k, reached, left, levels, way),
        Err(stop) => Err(stop),
    }
}

// Goes on from what was reached: each call that stands at the level of the whole is a turn of the loop.
#[cycle(start)]
#[inline(never)]
fn go_on(
    alloc: Global,
    code: &Code,
    k: u64,
    reached: Reached,
    left: u64,
    levels: u64,
    way: Way,
) -> Result<Begun, Stop>
    requires counted { way.calls + reached_calls reached ≤ left }
    requires shallow { max way.level (reached_level reached) ≤ levels }
    ensures { Gives result (after way (reached_run code.now k reached)) (within way.layers (reached_rest code.now k reached)) left levels }
{
    let mut k = k;
    let mut way = way;
    let mut reached = reached;
    'calls: loop {
        match reached {
            Reached::Given(begun) => return made(arrived(alloc, way, begun)),
            Reached::Call(f, values, streams) => {
                let rest = left - way.calls;
                if rest >= k {
                    return Err(Stop::Memory);
                }
                reached = enter(alloc, code, k, f, &values, &streams, rest, levels, &mut way)?;
                k -= 1;
            }
        }
    }
}

// Enters the body of a function on its arguments, counted as a call, and goes on to what is reached in it.
#[cycle(start)]
#[inline(never)]
fn enter(
    alloc: Global,
    code: &Code,
    k: u64,
    f: u32,
    values: &[Value],
    streams: &[Prefix],
    left: u64,
    levels: u64,
    way: &mut Way,
) -> Result<Reached, Stop>
    requires room { left < k }
    requires bounded { way.old.calls + left < 2 ^ 64 }
    ensures { Leads result code.now (k - 1) way.old way.new (call_at (funs_of code.now) k f (map hist_value_of values.now) (map prefix_of streams.now)) (call_rest_at (funs_of code.now) k f (map hist_value_of values.now) (map prefix_of streams.now)) left levels }
{
    if left == 0 {
        return Err(Stop::Spent);
    }
    let Some(body) = body_at(code, f) else {
        return given(missing(alloc, code, f));
    };
    let Ok(seen) = entered(alloc, code, f, body, values, streams) else {
        return Err(Stop::Memory);
    };
    let scope = Scope::Names(&seen.entries);
    let (k, past, n, r) = (k - 1, &seen.past, &body.body, &body.result);
    into_body(way);
    reach(alloc, code, k, &scope, past, n, r, left - 1, levels, way)
}

// The body of a function on its arguments, counted as a call, whose calls stand one deeper.
#[cycle(start)]
#[inline(never)]
fn start_body(
    alloc: Global,
    code: &Code,
    k: u64,
    f: u32,
    values: &[Value],
    streams: &[Prefix],
    left: u64,
    levels: u64,
) -> Result<Begun, Stop>
    requires { left < k }
    ensures { Gives result (call_at (funs_of code.now) k f (map hist_value_of values.now) (map prefix_of streams.now)) (call_rest_at (funs_of code.now) k f (map hist_value_of values.now) (map prefix_of streams.now)) left levels }
{
    let mut way = no_way(alloc);
    match enter(alloc, code, k, f, values, streams, left, levels, &mut way) {
        Ok(reached) => go_on(alloc, code, k - 1, reached, left, levels, way),
        Err(stop) => Err(stop),
    }
}

// What a term leads to: what it gives, or a call that stands at its own level. What it gave before, and what is
// left round the place, goes on the way.
#[cycle(start)]
fn reach<'a>(
    alloc: Global,
    code: &Code,
    k: u64,
    scope: &'a Scope<'a>,
    past: &Rc<Past>,
    n: &Rc<Op>,
    r: &Ty,
    left: u64,
    levels: u64,
    way: &mut Way,
) -> Result<Reached, Stop>
    requires room { left < k }
    requires bounded { way.old.calls + left < 2 ^ 64 }
    ensures { Leads result code.now k way.old way.new (op_run code.now k scope.now past.now.value (op_term n.now.value) (type_of r.now)) (op_rest code.now k scope.now past.now.value (op_term n.now.value) (type_of r.now)) left levels }
{
    match &**n {
        Op::Var(_) | Op::Eps | Op::Unit | Op::Nil | Op::Past(_) => {
            given(reach_quiet(alloc, code, k, &*scope, past, n, r))
        }
        Op::Par(a, b) => {
            at_place(start_both(alloc, code, k, scope, past, a, b, r, left, levels))
        }
        Op::Cat(a, b) => {
            at_place(start_in_turn(alloc, code, k, scope, past, a, b, r, left, levels))
        }
        Op::Inl(a) => at_place(start_left(alloc, code, k, scope, past, a, r, left, levels)),
        Op::Inr(a) => at_place(start_right(alloc, code, k, scope, past, a, r, left, levels)),
        Op::Cons(a, b) => reach_cons(alloc, code, k, scope, past, a, b, r, left, levels, way),
        Op::Let(x, s, a, b) => reach_let(
            alloc, code, k, scope, past, *x, s, a, b, r, left, levels, way,
        ),
        Op::LetPar(x, y, z, a) => reach_pair(
            alloc, code, k, scope, past, *x, *y, *z, a, r, left, levels, way,
        ),
        Op::LetCat(x, y, z, a) => reach_row(
            alloc, code, k, scope, past, *x, *y, *z, a, r, left, levels, way,
        ),
        Op::CaseSum(z, t, x, a, y, b) => reach_sum(
            alloc, code, k, scope, past, n, *z, t, *x, a, *y, b, r, left, levels, way,
        ),
        Op::CaseStar(z, t, a, y, ys, b) => reach_star(
            alloc, code, k, scope, past, n, *z, t, a, *y, *ys, b, r, left, levels, way,
        ),
        Op::Wait(x, t, a) => reach_wait(
            alloc, code, k, scope, past, n, *x, t, a, r, left, levels, way,
        ),
        Op::Call(f, ms, es) => {
            reach_call(alloc, code, k, scope, past, *f, ms, es, left, levels, way)
        }
    }
}

// An item in front of the items after it, which stand at its own level. Of a chain of items each is a turn of the
// loop, so that a long one takes no more of the stack than a short one.
#[cycle(start)]
#[inline(never)]
fn reach_cons<'a>(
    alloc: Global,
    code: &Code,
    k: u64,
    scope: &'a Scope<'a>,
    past: &Rc<Past>,
    a: &Rc<Op>,
    b: &Rc<Op>,
    r: &Ty,
    left: u64,
    levels: u64,
    way: &mut Way,
) -> Result<Reached, Stop>
    requires room { left < k }
    requires bounded { way.old.calls + left < 2 ^ 64 }
    ensures { Leads result code.now k way.old way.new (op_run code.now k scope.now past.now.value (cons_term (op_term a.now.value) (op_term b.now.value)) (type_of r.now)) (op_rest code.now k scope.now past.now.value (cons_term (op_term a.now.value) (op_term b.now.value)) (type_of r.now)) left levels }
{
    let (s, t) = star_types(r, &Ty::Eps);
    let mut left = left;
    let mut item = a;
    let mut more = b;
    'items: loop {
        let head = start_term(alloc, code, k, scope, past, item, s, left, levels)?;
        if !maximal(&head.output) {
            return given(before_items(alloc, head, more, past, k));
        }
        left -= head.calls;
        let Ok(()) = behind_item(way, head) else {
            return Err(Stop::Memory);
        };
        let Op::Cons(next, after) = &**more else {
            return reach(alloc, code, k, scope, past, more, t, left, levels, way);
        };
        item = next;
        more = after;
    }
}

// A let, whose body stands at its own level where the head is a name or whole. Of lets in one another each is a
// turn of the loop, and so is an `if` or a `wait` in one, so that many take no more of the stack than one.
#[cycle(start)]
#[inline(never)]
fn reach_let<'a>(
    alloc: Global,
    code: &Code,
    k: u64,
    scope: &'a Scope<'a>,
    past: &Rc<Past>,
    x: Name,
    s: &Ty,
    a: &Rc<Op>,
    b: &Rc<Op>,
    r: &Ty,
    left: u64,
    levels: u64,
    way: &mut Way,
) -> Result<Reached, Stop>
    requires room { left < k }
    requires bounded { way.old.calls + left < 2 ^ 64 }
    ensures { Leads result code.now k way.old way.new (op_run code.now k scope.now past.now.value (let_term x.0 (type_of s.now) (op_term a.now.value) (op_term b.now.value)) (type_of r.now)) (op_rest code.now k scope.now past.now.value (let_term x.0 (type_of s.now) (op_term a.now.value) (op_term b.now.value)) (type_of r.now)) left levels }
{
    let mut lets = Vec::new(alloc);
    let Ok(first) = past.clone() else {
        return Err(Stop::Memory);
    };
    let mut known = first;
    let mut left = left;
    let mut x = x;
    let mut s = s;
    let mut a = a;
    let mut b = b;
    'lets: loop {
        let outer = Scope::Lets(&lets, &*scope);
        let head = start_term(alloc, code, k, &outer, &known, a, s, left, inside(levels))?;
        let rest = left - head.calls;
        if !(is_var(a) || maximal(&head.output)) {
            let inner = Scope::Stream(x, s, &head.output, &outer);
            let body = start_term(alloc, code, k, &inner, &known, b, r, rest, inside(levels));
            return at_place(let_done(alloc, false, x, s, head, body));
        }
        let Ok(prefix) = into_let(alloc, way, is_var(a), x, s, head) else {
            return Err(Stop::Memory);
        };
        let Ok(()) = bind(alloc, &mut lets, x, s, prefix) else {
            return Err(Stop::Memory);
        };
        left = rest;
        let Ok(body) = inward(alloc, &*scope, &mut lets, &mut way.layers, &mut known, b) else {
            return Err(Stop::Memory);
        };
        let Op::Let(name, ty, next, after) = &**body else {
            let inner = Scope::Lets(&lets, &*scope);
            return reach(alloc, code, k, &inner, &known, body, r, left, levels, way);
        };
        x = *name;
        s = ty;
        a = next;
        b = after;
    }
}

// `let (x, y) = z` in a term.
#[cycle(start)]
#[inline(never)]
fn reach_pair<'a>(
    alloc: Global,
    code: &Code,
    k: u64,
    scope: &'a Scope<'a>,
    past: &Rc<Past>,
    x: Name,
    y: Name,
    z: Name,
    a: &Rc<Op>,
    r: &Ty,
    left: u64,
    levels: u64,
    way: &mut Way,
) -> Result<Reached, Stop>
    requires room { left < k }
    requires bounded { way.old.calls + left < 2 ^ 64 }
    ensures { Leads result code.now k way.old way.new (op_run code.now k scope.now past.now.value (let_par_term x.0 y.0 z.0 (op_term a.now.value)) (type_of r.now)) (op_rest code.now k scope.now past.now.value (let_par_term x.0 y.0 z.0 (op_term a.now.value)) (type_of r.now)) left levels }
{
    let (s, t) = par_types(type_at(&*scope, z, &Ty::Eps), &Ty::Eps);
    let (u, v) = par_parts(stream_at(&*scope, z, &Prefix::EpsEmp), &Prefix::EpsEmp);
    let outer = Scope::Stream(x, s, u, &*scope);
    let inner = Scope::Stream(y, t, v, &outer);
    let Ok(()) = into_pair(alloc, &mut way.layers, x, y, z) else {
        return Err(Stop::Memory);
    };
    reach(alloc, code, k, &inner, past, a, r, left, levels, way)
}

// `let (x; y) = z` in a term.
#[cycle(start)]
#[inline(never)]
fn reach_row<'a>(
    alloc: Global,
    code: &Code,
    k: u64,
    scope: &'a Scope<'a>,
    past: &Rc<Past>,
    x: Name,
    y: Name,
    z: Name,
    a: &Rc<Op>,
    r: &Ty,
    left: u64,
    levels: u64,
    way: &mut Way,
) -> Result<Reached, Stop>
    requires room { left < k }
    requires bounded { way.old.calls + left < 2 ^ 64 }
    ensures { Leads result code.now k way.old way.new (op_run code.now k scope.now past.now.value (let_cat_term x.0 y.0 z.0 (op_term a.now.value)) (type_of r.now)) (op_rest code.now k scope.now past.now.value (let_cat_term x.0 y.0 z.0 (op_term a.now.value)) (type_of r.now)) left levels }
{
    let ty = type_at(&*scope, z, &Ty::Eps);
    let p = stream_at(&*scope, z, &Prefix::EpsEmp);
    let (s, t) = cat_types(ty, &Ty::Eps);
    let Ok(v) = second_part(alloc, t, p) else {
        return Err(Stop::Memory);
    };
    let outer = Scope::Stream(x, s, first_part(p, &Prefix::EpsEmp), &*scope);
    let inner = Scope::Stream(y, t, &v, &outer);
    let Ok(()) = into_cut(alloc, &mut way.layers, x, y, z, ty, p) else {
        return Err(Stop::Memory);
    };
    reach(alloc, code, k, &inner, past, a, r, left, levels, way)
}

// A case on a sum.
#[cycle(start)]
#[inline(never)]
fn reach_sum<'a>(
    alloc: Global,
    code: &Code,
    k: u64,
    scope: &'a Scope<'a>,
    past: &Rc<Past>,
    n: &Rc<Op>,
    z: Name,
    t: &Ty,
    x: Name,
    a: &Rc<Op>,
    y: Name,
    b: &Rc<Op>,
    r: &Ty,
    left: u64,
    levels: u64,
    way: &mut Way,
) -> Result<Reached, Stop>
    requires room { left < k }
    requires bounded { way.old.calls + left < 2 ^ 64 }
    requires form { op_term n.now.value ≡ case_sum_term z.0 (type_of t.now) x.0 (op_term a.now.value) y.0 (op_term b.now.value) }
    ensures { Leads result code.now k way.old way.new (op_run code.now k scope.now past.now.value (op_term n.now.value) (type_of r.now)) (op_rest code.now k scope.now past.now.value (op_term n.now.value) (type_of r.now)) left levels }
{
    let (s, u) = sum_types(type_at(&*scope, z, &Ty::Eps), &Ty::Eps);
    match side_taken(stream_at(&*scope, z, &Prefix::EpsEmp)) {
        Sided::Left(q) => {
            let Ok(()) = into_alias(alloc, &mut way.layers, x, s, q, z) else {
                return Err(Stop::Memory);
            };
            let inner = Scope::Stream(x, s, q, &*scope);
            reach(alloc, code, k, &inner, past, a, r, left, levels, way)
        }
        Sided::Right(q) => {
            let Ok(()) = into_alias(alloc, &mut way.layers, y, u, q, z) else {
                return Err(Stop::Memory);
            };
            let inner = Scope::Stream(y, u, q, &*scope);
            reach(alloc, code, k, &inner, past, b, r, left, levels, way)
        }
        Sided::Nothing => given(hold_sum(alloc, k, &*scope, past, n, z, t, x, a, y, b, r)),
    }
}

// A case on a star.
#[cycle(start)]
#[inline(never)]
fn reach_star<'a>(
    alloc: Global,
    code: &Code,
    k: u64,
    scope: &'a Scope<'a>,
    past: &Rc<Past>,
    n: &Rc<Op>,
    z: Name,
    t: &Ty,
    a: &Rc<Op>,
    y: Name,
    ys: Name,
    b: &Rc<Op>,
    r: &Ty,
    left: u64,
    levels: u64,
    way: &mut Way,
) -> Result<Reached, Stop>
    requires room { left < k }
    requires bounded { way.old.calls + left < 2 ^ 64 }
    requires form { op_term n.now.value ≡ case_star_term z.0 (type_of t.now) (op_term a.now.value) y.0 ys.0 (op_term b.now.value) }
    ensures { Leads result code.now k way.old way.new (op_run code.now k scope.now past.now.value (op_term n.now.value) (type_of r.now)) (op_rest code.now k scope.now past.now.value (op_term n.now.value) (type_of r.now)) left levels }
{
    let ty = type_at(&*scope, z, &Ty::Eps);
    let (s, u) = star_types(ty, &Ty::Eps);
    match star_taken(stream_at(&*scope, z, &Prefix::EpsEmp)) {
        Taken::Over => reach(alloc, code, k, scope, past, a, r, left, levels, way),
        Taken::First(q) => {
            let Ok(qs) = star_begun(alloc) else {
                return Err(Stop::Memory);
            };
            let Ok(()) = into_row(alloc, &mut way.layers, y, ys, z) else {
                return Err(Stop::Memory);
            };
            let outer = Scope::Stream(y, s, q, &*scope);
            let inner = Scope::Stream(ys, u, &qs, &outer);
            reach(alloc, code, k, &inner, past, b, r, left, levels, way)
        }
        Taken::Item(q, after, end) => {
            let Ok(qs) = items_after(alloc, after, end) else {
                return Err(Stop::Memory);
            };
            let Ok(()) = into_two(alloc, &mut way.layers, y, s, q, ys, ty, &qs, z) else {
                return Err(Stop::Memory);
            };
            let outer = Scope::Stream(y, s, q, &*scope);
            let inner = Scope::Stream(ys, u, &qs, &outer);
            reach(alloc, code, k, &inner, past, b, r, left, levels, way)
        }
        Taken::Nothing => given(hold_star(alloc, k, &*scope, past, n, z, t, a, y, ys, b, r)),
    }
}

// A wait.
#[cycle(start)]
#[inline(never)]
fn reach_wait<'a>(
    alloc: Global,
    code: &Code,
    k: u64,
    scope: &'a Scope<'a>,
    past: &Rc<Past>,
    n: &Rc<Op>,
    x: Name,
    t: &Ty,
    a: &Rc<Op>,
    r: &Ty,
    left: u64,
    levels: u64,
    way: &mut Way,
) -> Result<Reached, Stop>
    requires room { left < k }
    requires bounded { way.old.calls + left < 2 ^ 64 }
    requires form { op_term n.now.value ≡ wait_term x.0 (type_of t.now) (op_term a.now.value) }
    ensures { Leads result code.now k way.old way.new (op_run code.now k scope.now past.now.value (op_term n.now.value) (type_of r.now)) (op_rest code.now k scope.now past.now.value (op_term n.now.value) (type_of r.now)) left levels }
{
    let p = stream_at(&*scope, x, &Prefix::EpsEmp);
    if !maximal(p) {
        return given(hold_wait(alloc, k, &*scope, past, n, x, t, a, r));
    }
    let Ok(known) = knowing(alloc, x, type_at(&*scope, x, &Ty::Eps), p, past) else {
        return Err(Stop::Memory);
    };
    reach(alloc, code, k, scope, &known, a, r, left, levels, way)
}

// `f{ms}(es)`, of the function's own type. Where each argument is a name or whole, the call stands at the level of
// the whole; else its body stands one deeper.
#[cycle(start)]
#[inline(never)]
fn reach_call<'a>(
    alloc: Global,
    code: &Code,
    k: u64,
    scope: &'a Scope<'a>,
    past: &Rc<Past>,
    f: u32,
    ms: &[Expr],
    es: &Operands,
    left: u64,
    levels: u64,
    way: &mut Way,
) -> Result<Reached, Stop>
    requires room { left < k }
    requires bounded { way.old.calls + left < 2 ^ 64 }
    ensures { (r : StreamType) → Leads result code.now k way.old way.new (op_run code.now k scope.now past.now.value (call_term f (map expr_of ms.now) (operand_terms es.now)) r) (op_rest code.now k scope.now past.now.value (call_term f (map expr_of ms.now) (operand_terms es.now)) r) left levels }
{
    if levels == 0 {
        return Err(Stop::Deep);
    }
    let Ok(values) = values_in(alloc, past, ms) else {
        return Err(Stop::Memory);
    };
    let Ok(params) = params_of(alloc, code, f) else {
        return Err(Stop::Memory);
    };
    let deeper = inside(levels);
    match start_arguments(alloc, code, k, scope, past, es, &params, left, deeper) {
        Ok(arguments) => {
            if arguments.are_shut {
                let Ok(streams) = into_call(alloc, way, arguments) else {
                    return Err(Stop::Memory);
                };
                return Ok(Reached::Call(f, values, streams));
            }
            let rest = left - arguments.calls;
            let streams = &arguments.outputs;
            let body = start_body(alloc, code, k, f, &values, streams, rest, deeper);
            at_place(call_done(alloc, arguments, body))
        }
        Err(stop) => Err(stop),
    }
}

// The left side of a sum.
#[cycle(start)]
#[inline(never)]
fn start_left<'a>(
    alloc: Global,
    code: &Code,
    k: u64,
    scope: &'a Scope<'a>,
    past: &Rc<Past>,
    a: &Rc<Op>,
    r: &Ty,
    left: u64,
    levels: u64,
) -> Result<Begun, Stop>
    requires { left < k }
    ensures { Gives result (op_run code.now k scope.now past.now.value (inl_term (op_term a.now.value)) (type_of r.now)) (op_rest code.now k scope.now past.now.value (inl_term (op_term a.now.value)) (type_of r.now)) left levels }
{
    let (s, _) = sum_types(r, &Ty::Eps);
    let inside = start_term(alloc, code, k, scope, past, a, s, left, levels);
    left_done(alloc, inside)
}

// The right side of a sum.
#[cycle(start)]
#[inline(never)]
fn start_right<'a>(
    alloc: Global,
    code: &Code,
    k: u64,
    scope: &'a Scope<'a>,
    past: &Rc<Past>,
    a: &Rc<Op>,
    r: &Ty,
    left: u64,
    levels: u64,
) -> Result<Begun, Stop>
    requires { left < k }
    ensures { Gives result (op_run code.now k scope.now past.now.value (inr_term (op_term a.now.value)) (type_of r.now)) (op_rest code.now k scope.now past.now.value (inr_term (op_term a.now.value)) (type_of r.now)) left levels }
{
    let (_, t) = sum_types(r, &Ty::Eps);
    let inside = start_term(alloc, code, k, scope, past, a, t, left, levels);
    right_done(alloc, inside)
}

// Two terms at once.
#[cycle(start)]
#[inline(never)]
fn start_both<'a>(
    alloc: Global,
    code: &Code,
    k: u64,
    scope: &'a Scope<'a>,
    past: &Rc<Past>,
    a: &Rc<Op>,
    b: &Rc<Op>,
    r: &Ty,
    left: u64,
    levels: u64,
) -> Result<Begun, Stop>
    requires { left < k }
    ensures { Gives result (op_run code.now k scope.now past.now.value (par_term (op_term a.now.value) (op_term b.now.value)) (type_of r.now)) (op_rest code.now k scope.now past.now.value (par_term (op_term a.now.value) (op_term b.now.value)) (type_of r.now)) left levels }
{
    let (s, t) = par_types(r, &Ty::Eps);
    match start_term(alloc, code, k, scope, past, a, s, left, levels) {
        Ok(one) => {
            let rest = left - one.calls;
            let two = start_term(alloc, code, k, scope, past, b, t, rest, levels);
            both_done(alloc, one, two)
        }
        Err(stop) => Err(stop),
    }
}

// Two terms one after the other: the second only once the first is whole.
#[cycle(start)]
#[inline(never)]
fn start_in_turn<'a>(
    alloc: Global,
    code: &Code,
    k: u64,
    scope: &'a Scope<'a>,
    past: &Rc<Past>,
    a: &Rc<Op>,
    b: &Rc<Op>,
    r: &Ty,
    left: u64,
    levels: u64,
) -> Result<Begun, Stop>
    requires { left < k }
    ensures { Gives result (op_run code.now k scope.now past.now.value (cat_term (op_term a.now.value) (op_term b.now.value)) (type_of r.now)) (op_rest code.now k scope.now past.now.value (cat_term (op_term a.now.value) (op_term b.now.value)) (type_of r.now)) left levels }
{
    let (s, t) = cat_types(r, &Ty::Eps);
    match start_term(alloc, code, k, scope, past, a, s, left, levels) {
        Ok(one) => {
            if !maximal(&one.output) {
                return made(before_term(alloc, one, b, past, k));
            }
            let rest = left - one.calls;
            let two = start_term(alloc, code, k, scope, past, b, t, rest, levels);
            turn_done(alloc, one, two)
        }
        Err(stop) => Err(stop),
    }
}

// Arguments, for parameters of these types; one without a parameter counts as of type `eps`, and no state
// of it is kept.
#[cycle(start)]
#[inline(never)]
fn start_arguments<'a>(
    alloc: Global,
    code: &Code,
    k: u64,
    scope: &'a Scope<'a>,
    past: &Rc<Past>,
    es: &Operands,
    params: &[(Name, Ty)],
    left: u64,
    levels: u64,
) -> Result<Passed, Stop>
    requires { left < k }
    ensures { GivesAll result (ops_run code.now k scope.now past.now.value (operand_terms es.now) (types_listed params.now)) (ops_rest code.now k scope.now past.now.value (operand_terms es.now) (names_in params.now) (types_listed params.now)) left levels }
{
    let Operands::Before(e, more) = es else {
        return all_made(no_arguments(alloc));
    };
    match params.split_first() {
        None => start_unnamed(alloc, code, k, scope, past, e, more, left, levels),
        Some((param, after)) => {
            start_argument(
                alloc, code, k, scope, past, e, more, param, after, left, levels,
            )
        }
    }
}

// An argument without a parameter in front of others, which have none.
#[cycle(start)]
#[inline(never)]
fn start_unnamed<'a>(
    alloc: Global,
    code: &Code,
    k: u64,
    scope: &'a Scope<'a>,
    past: &Rc<Past>,
    e: &Rc<Op>,
    more: &Operands,
    left: u64,
    levels: u64,
) -> Result<Passed, Stop>
    requires { left < k }
    ensures { GivesAll result (ops_run code.now k scope.now past.now.value (term_before (op_term e.now.value) (operand_terms more.now)) []) no_arguments left levels }
{
    match start_term(alloc, code, k, scope, past, e, &Ty::Eps, left, levels) {
        Ok(a) => {
            let rest = left - a.calls;
            let others = start_arguments(alloc, code, k, scope, past, more, &[], rest, levels);
            unnamed_done(alloc, is_var(e), &a, others)
        }
        Err(stop) => Err(stop),
    }
}

// An argument for a parameter in front of others.
#[cycle(start)]
#[inline(never)]
fn start_argument<'a>(
    alloc: Global,
    code: &Code,
    k: u64,
    scope: &'a Scope<'a>,
    past: &Rc<Past>,
    e: &Rc<Op>,
    more: &Operands,
    param: &(Name, Ty),
    after: &[(Name, Ty)],
    left: u64,
    levels: u64,
) -> Result<Passed, Stop>
    requires { left < k }
    ensures { GivesAll result (ops_run code.now k scope.now past.now.value (term_before (op_term e.now.value) (operand_terms more.now)) (type_of param.now.1 ∷ types_listed after.now)) (ops_rest code.now k scope.now past.now.value (term_before (op_term e.now.value) (operand_terms more.now)) (param.now.0.0 ∷ names_in after.now) (type_of param.now.1 ∷ types_listed after.now)) left levels }
{
    match start_term(alloc, code, k, scope, past, e, &param.1, left, levels) {
        Ok(a) => {
            let rest = left - a.calls;
            let others = start_arguments(alloc, code, k, scope, past, more, after, rest, levels);
            argument_done(alloc, is_var(e), param.0, &param.1, a, others)
        }
        Err(stop) => Err(stop),
    }
}
