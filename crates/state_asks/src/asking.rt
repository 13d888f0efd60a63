//! What templates ask, form by form, in the order of their run.
//!
//! What a part gives, where another part goes on from it, is had by a run of that part. Each call counts as a level,
//! also one that stands at the level of its caller, so that the walk nests no deeper than there are levels.
//!
//! A type in a case or a wait plays no part in what is asked, nor does the type of a call: `eps` stands for each.

ghost use Rattle.std.specs.Prelude.{◌<◌, ◌++◌, map, OnOk};
ghost use Rattle.stream_type.specs.StreamType.{type_of, eps};
ghost use Rattle.stream_prefix.specs.StreamPrefix.{is_maximal};
ghost use Rattle.hist_value.specs.HistExpr.{expr_of};
ghost use Rattle.core_term.specs.CoreTerm.{let_term, let_par_term, let_cat_term, case_sum_term, case_star_term, wait_term, call_term, leaf_types};
ghost use Rattle.core_term.specs.Meaning.{values};
ghost use Rattle.delta_state.specs.StateMeaning.{past_in};
ghost use Rattle.machine_parts.specs.Parameters.{types_listed};
ghost use Rattle.template_state.specs.Readers.{op_term, operand_terms, known_in};
ghost use Rattle.other_numbers.specs.Asked.{once_whole, call_asked_at};
ghost use Rattle.delta_code.specs.Steps.{funs_of, op_run, ops_run};
ghost use Rattle.state_asks.specs.Asking.{Asks};
ghost use Rattle.state_asks.specs.Walks.{op_asks, ops_asks};

use crate::ask::{Ask, add_each, add_one};
use crate::entering::{body_at, params_of, seen_inside};
use crate::outputs::{is_whole, output_of};
use crate::sides::{items_of, side_of};
use bunch::Name;
use delta_code::knowing;
use hist_value::Expr;
use machine_parts::parts::{
    Sided, Taken, cat_types, first_part, items_after, par_parts, par_types, second_part,
    star_begun, star_types, sum_types,
};
use machine_parts::scope::{Scope, stream_at, type_at};
use machine_parts::stop::Stop;
use std::alloc::Global;
use std::rc::Rc;
use stream_prefix::{Prefix, maximal};
use stream_type::Ty;
use template_state::{Code, Op, Operands, Past};

/// Puts what a template asks in its scope, with the values that it sees, behind what was found: `asked_at` of
/// `other_numbers`. Its errors are those of runs of its parts, with so many calls left and so many levels; `Spent`
/// where more calls stand inside one another than are left, and `Deep` where more do than there are levels, so this
/// may come of a template whose own run isn't too deep. After an error part of what is asked was put there.
#[cycle(asks)]
pub fn add_asks_of_code<'a>(
    alloc: Global,
    code: &Code,
    k: u64,
    scope: &'a Scope<'a>,
    past: &Rc<Past>,
    n: &Rc<Op>,
    r: &Ty,
    left: u64,
    levels: u64,
    found: &mut Vec<Ask>,
) -> Result<(), Stop>
    requires { left < k }
    ensures { OnOk result (Asks found.old.items found.new.items (op_asks code.now k scope.now past.now.value (op_term n.now.value) (type_of r.now))) }
{
    match &**n {
        Op::Var(_) | Op::Eps | Op::Unit | Op::Nil => Ok(()),
        Op::Past(m) => Ok(add_one(alloc, m, past, found)?),
        Op::Par(a, b) => {
            let (s, t) = par_types(r, &Ty::Eps);
            add_both(alloc, code, k, scope, past, a, s, b, t, left, levels, found)
        }
        Op::Cat(a, b) => {
            let (s, t) = cat_types(r, &Ty::Eps);
            add_in_turn(alloc, code, k, scope, past, a, s, b, t, left, levels, found)
        }
        Op::Cons(a, b) => {
            let (s, t) = star_types(r, &Ty::Eps);
            add_in_turn(alloc, code, k, scope, past, a, s, b, t, left, levels, found)
        }
        Op::Inl(a) => {
            let (s, _) = sum_types(r, &Ty::Eps);
            add_asks_of_code(alloc, code, k, scope, past, a, s, left, levels, found)
        }
        Op::Inr(a) => {
            let (_, t) = sum_types(r, &Ty::Eps);
            add_asks_of_code(alloc, code, k, scope, past, a, t, left, levels, found)
        }
        Op::Let(x, s, a, b) => add_let(
            alloc, code, k, scope, past, *x, s, a, b, r, left, levels, found,
        ),
        Op::LetPar(x, y, z, a) => add_pair(
            alloc, code, k, scope, past, *x, *y, *z, a, r, left, levels, found,
        ),
        Op::LetCat(x, y, z, a) => add_row(
            alloc, code, k, scope, past, *x, *y, *z, a, r, left, levels, found,
        ),
        Op::CaseSum(z, _, x, a, y, b) => add_sum(
            alloc, code, k, scope, past, *z, *x, a, *y, b, r, left, levels, found,
        ),
        Op::CaseStar(z, _, a, y, ys, b) => add_star(
            alloc, code, k, scope, past, *z, a, *y, *ys, b, r, left, levels, found,
        ),
        Op::Wait(x, _, a) => add_wait(alloc, code, k, scope, past, *x, a, r, left, levels, found),
        Op::Call(f, ms, es) => {
            add_call(alloc, code, k, scope, past, *f, ms, es, left, levels, found)
        }
    }
}

// Two templates at once.
#[cycle(asks)]
#[inline(never)]
fn add_both<'a>(
    alloc: Global,
    code: &Code,
    k: u64,
    scope: &'a Scope<'a>,
    past: &Rc<Past>,
    a: &Rc<Op>,
    s: &Ty,
    b: &Rc<Op>,
    t: &Ty,
    left: u64,
    levels: u64,
    found: &mut Vec<Ask>,
) -> Result<(), Stop>
    requires { left < k }
    ensures { OnOk result (Asks found.old.items found.new.items (op_asks code.now k scope.now past.now.value (op_term a.now.value) (type_of s.now) ++ op_asks code.now k scope.now past.now.value (op_term b.now.value) (type_of t.now))) }
{
    add_asks_of_code(alloc, code, k, scope, past, a, s, left, levels, found)?;
    add_asks_of_code(alloc, code, k, scope, past, b, t, left, levels, found)
}

// Two templates one after the other: the second only once the first is whole.
#[cycle(asks)]
#[inline(never)]
fn add_in_turn<'a>(
    alloc: Global,
    code: &Code,
    k: u64,
    scope: &'a Scope<'a>,
    past: &Rc<Past>,
    a: &Rc<Op>,
    s: &Ty,
    b: &Rc<Op>,
    t: &Ty,
    left: u64,
    levels: u64,
    found: &mut Vec<Ask>,
) -> Result<(), Stop>
    requires { left < k }
    ensures { OnOk result (Asks found.old.items found.new.items (op_asks code.now k scope.now past.now.value (op_term a.now.value) (type_of s.now) ++ once_whole (is_maximal (op_run code.now k scope.now past.now.value (op_term a.now.value) (type_of s.now)).out) (op_asks code.now k scope.now past.now.value (op_term b.now.value) (type_of t.now)))) }
{
    add_asks_of_code(alloc, code, k, scope, past, a, s, left, levels, found)?;
    if !is_whole(alloc, code, k, scope, past, a, s, left, levels)? {
        return Ok(());
    }
    add_asks_of_code(alloc, code, k, scope, past, b, t, left, levels, found)
}

// A let: its head, and then its body on what the head gives.
#[cycle(asks)]
#[inline(never)]
fn add_let<'a>(
    alloc: Global,
    code: &Code,
    k: u64,
    scope: &'a Scope<'a>,
    past: &Rc<Past>,
    x: Name,
    s: &Ty,
    a: &Rc<Op>,
    b: &Rc<Op>,
    r: &Ty,
    left: u64,
    levels: u64,
    found: &mut Vec<Ask>,
) -> Result<(), Stop>
    requires { left < k }
    ensures { OnOk result (Asks found.old.items found.new.items (op_asks code.now k scope.now past.now.value (let_term x.0 (type_of s.now) (op_term a.now.value) (op_term b.now.value)) (type_of r.now))) }
{
    add_asks_of_code(alloc, code, k, scope, past, a, s, left, levels, found)?;
    let output = output_of(alloc, code, k, scope, past, a, s, left, levels)?;
    let inner = Scope::Stream(x, s, &output, &*scope);
    add_asks_of_code(alloc, code, k, &inner, past, b, r, left, levels, found)
}

// `let (x, y) = z`.
#[cycle(asks)]
#[inline(never)]
fn add_pair<'a>(
    alloc: Global,
    code: &Code,
    k: u64,
    scope: &'a Scope<'a>,
    past: &Rc<Past>,
    x: Name,
    y: Name,
    z: Name,
    a: &Rc<Op>,
    r: &Ty,
    left: u64,
    levels: u64,
    found: &mut Vec<Ask>,
) -> Result<(), Stop>
    requires { left < k }
    ensures { OnOk result (Asks found.old.items found.new.items (op_asks code.now k scope.now past.now.value (let_par_term x.0 y.0 z.0 (op_term a.now.value)) (type_of r.now))) }
{
    let (s, t) = par_types(type_at(&*scope, z, &Ty::Eps), &Ty::Eps);
    let (u, v) = par_parts(stream_at(&*scope, z, &Prefix::EpsEmp), &Prefix::EpsEmp);
    let outer = Scope::Stream(x, s, u, &*scope);
    let inner = Scope::Stream(y, t, v, &outer);
    add_asks_of_code(alloc, code, k, &inner, past, a, r, left, levels, found)
}

// `let (x; y) = z`.
#[cycle(asks)]
#[inline(never)]
fn add_row<'a>(
    alloc: Global,
    code: &Code,
    k: u64,
    scope: &'a Scope<'a>,
    past: &Rc<Past>,
    x: Name,
    y: Name,
    z: Name,
    a: &Rc<Op>,
    r: &Ty,
    left: u64,
    levels: u64,
    found: &mut Vec<Ask>,
) -> Result<(), Stop>
    requires { left < k }
    ensures { OnOk result (Asks found.old.items found.new.items (op_asks code.now k scope.now past.now.value (let_cat_term x.0 y.0 z.0 (op_term a.now.value)) (type_of r.now))) }
{
    let p = stream_at(&*scope, z, &Prefix::EpsEmp);
    let (s, t) = cat_types(type_at(&*scope, z, &Ty::Eps), &Ty::Eps);
    let v = second_part(alloc, t, p)?;
    let outer = Scope::Stream(x, s, first_part(p, &Prefix::EpsEmp), &*scope);
    let inner = Scope::Stream(y, t, &v, &outer);
    add_asks_of_code(alloc, code, k, &inner, past, a, r, left, levels, found)
}

// A case on a sum: the side that is chosen.
#[cycle(asks)]
#[inline(never)]
fn add_sum<'a>(
    alloc: Global,
    code: &Code,
    k: u64,
    scope: &'a Scope<'a>,
    past: &Rc<Past>,
    z: Name,
    x: Name,
    a: &Rc<Op>,
    y: Name,
    b: &Rc<Op>,
    r: &Ty,
    left: u64,
    levels: u64,
    found: &mut Vec<Ask>,
) -> Result<(), Stop>
    requires { left < k }
    ensures { OnOk result (Asks found.old.items found.new.items (op_asks code.now k scope.now past.now.value (case_sum_term z.0 eps x.0 (op_term a.now.value) y.0 (op_term b.now.value)) (type_of r.now))) }
{
    let (s, t) = sum_types(type_at(&*scope, z, &Ty::Eps), &Ty::Eps);
    match side_of(stream_at(&*scope, z, &Prefix::EpsEmp)) {
        Sided::Left(q) => {
            let inner = Scope::Stream(x, s, q, &*scope);
            add_asks_of_code(alloc, code, k, &inner, past, a, r, left, levels, found)
        }
        Sided::Right(q) => {
            let inner = Scope::Stream(y, t, q, &*scope);
            add_asks_of_code(alloc, code, k, &inner, past, b, r, left, levels, found)
        }
        Sided::Nothing => Ok(()),
    }
}

// A case on a star: the branch of its end, or that of an item.
#[cycle(asks)]
#[inline(never)]
fn add_star<'a>(
    alloc: Global,
    code: &Code,
    k: u64,
    scope: &'a Scope<'a>,
    past: &Rc<Past>,
    z: Name,
    a: &Rc<Op>,
    y: Name,
    ys: Name,
    b: &Rc<Op>,
    r: &Ty,
    left: u64,
    levels: u64,
    found: &mut Vec<Ask>,
) -> Result<(), Stop>
    requires { left < k }
    ensures { OnOk result (Asks found.old.items found.new.items (op_asks code.now k scope.now past.now.value (case_star_term z.0 eps (op_term a.now.value) y.0 ys.0 (op_term b.now.value)) (type_of r.now))) }
{
    let (s, t) = star_types(type_at(&*scope, z, &Ty::Eps), &Ty::Eps);
    match items_of(stream_at(&*scope, z, &Prefix::EpsEmp)) {
        Taken::Over => add_asks_of_code(alloc, code, k, scope, past, a, r, left, levels, found),
        Taken::First(q) => {
            let qs = star_begun(alloc)?;
            let outer = Scope::Stream(y, s, q, &*scope);
            let inner = Scope::Stream(ys, t, &qs, &outer);
            add_asks_of_code(alloc, code, k, &inner, past, b, r, left, levels, found)
        }
        Taken::Item(q, after, end) => {
            let qs = items_after(alloc, after, end)?;
            let outer = Scope::Stream(y, s, q, &*scope);
            let inner = Scope::Stream(ys, t, &qs, &outer);
            add_asks_of_code(alloc, code, k, &inner, past, b, r, left, levels, found)
        }
        Taken::Nothing => Ok(()),
    }
}

// A wait: what follows it, once its subject is whole.
#[cycle(asks)]
#[inline(never)]
fn add_wait<'a>(
    alloc: Global,
    code: &Code,
    k: u64,
    scope: &'a Scope<'a>,
    past: &Rc<Past>,
    x: Name,
    a: &Rc<Op>,
    r: &Ty,
    left: u64,
    levels: u64,
    found: &mut Vec<Ask>,
) -> Result<(), Stop>
    requires { left < k }
    ensures { OnOk result (Asks found.old.items found.new.items (op_asks code.now k scope.now past.now.value (wait_term x.0 eps (op_term a.now.value)) (type_of r.now))) }
{
    let p = stream_at(&*scope, x, &Prefix::EpsEmp);
    if !maximal(p) {
        return Ok(());
    }
    let known = knowing(alloc, x, type_at(&*scope, x, &Ty::Eps), p, past)?;
    add_asks_of_code(alloc, code, k, scope, &known, a, r, left, levels, found)
}

// `f{ms}(es)`: its historical arguments, its arguments, and then its body.
#[cycle(asks)]
#[inline(never)]
fn add_call<'a>(
    alloc: Global,
    code: &Code,
    k: u64,
    scope: &'a Scope<'a>,
    past: &Rc<Past>,
    f: u32,
    ms: &[Expr],
    es: &Operands,
    left: u64,
    levels: u64,
    found: &mut Vec<Ask>,
) -> Result<(), Stop>
    requires { left < k }
    ensures { OnOk result (Asks found.old.items found.new.items (op_asks code.now k scope.now past.now.value (call_term f (map expr_of ms.now) (operand_terms es.now)) eps)) }
{
    add_each(alloc, ms, past, found)?;
    let params = params_of(alloc, code, f)?;
    add_arguments(
        alloc, code, k, scope, past, es, &params, left, levels, found,
    )?;
    add_called(alloc, code, k, scope, past, f, ms, es, left, levels, found)
}

// Arguments, for parameters of these types; one without a parameter counts as of type `eps`.
#[cycle(asks)]
#[inline(never)]
fn add_arguments<'a>(
    alloc: Global,
    code: &Code,
    k: u64,
    scope: &'a Scope<'a>,
    past: &Rc<Past>,
    es: &Operands,
    params: &[(Name, Ty)],
    left: u64,
    levels: u64,
    found: &mut Vec<Ask>,
) -> Result<(), Stop>
    requires { left < k }
    ensures { OnOk result (Asks found.old.items found.new.items (ops_asks code.now k scope.now past.now.value (operand_terms es.now) (types_listed params.now))) }
{
    let Operands::Before(e, more) = es else {
        return Ok(());
    };
    match params.split_first() {
        None => {
            add_asks_of_code(
                alloc,
                code,
                k,
                scope,
                past,
                e,
                &Ty::Eps,
                left,
                levels,
                found,
            )?;
            add_arguments(
                alloc, code, k, scope, past, more, params, left, levels, found,
            )
        }
        Some((param, after)) => {
            add_asks_of_code(
                alloc, code, k, scope, past, e, &param.1, left, levels, found,
            )?;
            add_arguments(
                alloc, code, k, scope, past, more, after, left, levels, found,
            )
        }
    }
}

// The body of a called function, on what its arguments give.
#[cycle(asks)]
#[tactic(auto, using(machine_parts::proofs::Runs::bodies))]
#[inline(never)]
fn add_called<'a>(
    alloc: Global,
    code: &Code,
    k: u64,
    scope: &'a Scope<'a>,
    past: &Rc<Past>,
    f: u32,
    ms: &[Expr],
    es: &Operands,
    left: u64,
    levels: u64,
    found: &mut Vec<Ask>,
) -> Result<(), Stop>
    requires { left < k }
    ensures { OnOk result (Asks found.old.items found.new.items (call_asked_at (funs_of code.now) k f (values (map expr_of ms.now) (past_in (known_in past.now.value))) (ops_run code.now k scope.now past.now.value (operand_terms es.now) (leaf_types (funs_of code.now f).params)).outs)) }
{
    let Some(body) = body_at(code, f) else {
        return Ok(());
    };
    if left == 0 {
        return Err(Stop::Spent);
    }
    if levels == 0 {
        return Err(Stop::Deep);
    }
    let seen = seen_inside(alloc, code, k, scope, past, f, body, ms, es, left, levels)?;
    let inner = Scope::Names(&seen.entries);
    add_asks_of_code(
        alloc,
        code,
        k - 1,
        &inner,
        &seen.past,
        &body.body,
        &body.result,
        left - 1,
        levels - 1,
        found,
    )
}
