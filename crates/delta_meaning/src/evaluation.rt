//! The meaning of expressions, form by form, over the syntax tree.
//!
//! Each function takes the number of calls that are left. The depth stays above that number, so no call is
//! met at which it is used up. It stops at a call for which none is left, and at one that too many stand
//! round on the stack and that has no answer yet; so it goes no deeper than a body is, so many times.

ghost use Rattle.std.specs.Prelude.{◌≡◌, ℕ, ◌+◌, ◌<◌, ◌≤◌, map, All, IfOk, IfErr};
ghost use Rattle.stream_type.specs.StreamType.{type_of};
ghost use Rattle.stream_prefix.specs.StreamPrefix.{in_left, in_right};
ghost use Rattle.stream_prefix.specs.Tree.{prefix_of};
ghost use Rattle.hist_value.specs.HistValue.{hist_value_of};
ghost use Rattle.hist_value.specs.Evaluate.{value};
ghost use Rattle.delta_tree.specs.SyntaxTree.{wait_at, call_head};
ghost use Rattle.delta_tree.specs.Tree.{expression_of, expressions_of, head_of, hist_of, type_tree_of};
ghost use Rattle.core_term.specs.Parts.{cat_first, cat_second, sum_left, sum_right, star_item, star_items, first_part, second_part, as_star};
ghost use Rattle.core_term.specs.Run.{relabel, par_run, cat_run, let_run, sum_run, star_run};
ghost use Rattle.delta_meaning.specs.TypeNames.{type_meant};
ghost use Rattle.delta_meaning.specs.KnownTypes.{names_known};
ghost use Rattle.delta_meaning.specs.SourceMeaning.{is_name_head, typed_run, if_run};
ghost use Rattle.delta_meaning.specs.Evaluated.{run_of, runs_of, runs_joined};
ghost use Rattle.core_term.specs.Params.{types_listed};
ghost use Rattle.delta_meaning.specs.Scope.{past_in};
ghost use Rattle.delta_meaning.specs.CallRuns.{IsRight, StopsAmong};
ghost use Rattle.delta_meaning.specs.Functions.{functions_at, calls_at, run_at, head_run_at, head_type_at, run_with_one, run_with_two, run_after, arguments_at};

use crate::answers::answer_to;
use crate::evaluated::{
    Arguments, Evaluated, call_run, cat_run, first_run, left_run, let_run, no_arguments, one_call,
    one_more, par_run, quiet, right_run, star_run, typed_run,
};
use crate::functions::{Place, function_named};
use crate::looking::{
    boxed_head_type, first_param, is_left, is_name, is_name_head, name_run, nil_run, nothing_run,
    params_of, past_run, waited,
};
use crate::parts::{Sided, Taken, boxed_taken, cat_parts, side_taken};
use crate::pause::Pause;
use crate::scope::{Scope, past_of_body, values_in};
use crate::types::boxed_type;
use bunch::Name;
use core_term::params::leaves;
use core_term::parts::{cat_types, par_parts, par_types, star_types, sum_types};
use delta_tree::{Exp, Form, Head, HeadForm, Hist, TyExp};
use hist_value::Value;
use std::alloc::Global;
use stream_prefix::{Prefix, maximal};
use stream_type::Ty;

/// The run of an expression at its place, in its scope, with its expected type, where it makes at most as
/// many calls as are left: `source_run` in `specs/SourceMeaning.antt`. It stops at a call only where that,
/// should it make more than are left for it, shows that the whole does. Its other error is want of memory.
#[cycle(evaluate)]
#[tactic(auto, using(delta_tree::proofs::Rows::rows))]
pub fn evaluate<'a>(
    alloc: Global,
    place: &Place<'_>,
    scope: &'a Scope<'a>,
    e: &Exp,
    ty: &Ty,
    left: u64,
) -> Result<Evaluated, Pause>
    requires room { left < place.now.depth }
    requires answers { All (IsRight (functions_at place.now)) place.now.answers.now }
    ensures run { IfOk result (λ a. run_of a ≡ run_at place.now scope.now (expression_of e.now) (type_of ty.now)) }
    ensures counted { IfOk result (λ a. a.calls ≤ left) }
    ensures spent { IfErr result (λ s. StopsAmong (functions_at place.now) left (run_at place.now scope.now (expression_of e.now) (type_of ty.now)).calls s) }
{
    match &*e.form {
        Form::Var(x) => name_run(alloc, scope, *x),
        Form::Eps => Ok(quiet(Prefix::EpsEmp)),
        Form::Unit => Ok(quiet(Prefix::OneFull)),
        Form::Nil => Ok(nil_run(alloc)),
        Form::Past(m) => past_run(alloc, scope, m, ty),
        Form::Par(a, b) => {
            let (s, t) = par_types(&*ty, &Ty::Eps);
            evaluate_both(alloc, place, scope, a, s, b, t, left)
        }
        Form::Cat(a, b) => {
            let (s, t) = cat_types(&*ty, &Ty::Eps);
            evaluate_in_turn(alloc, place, scope, a, s, b, t, left)
        }
        Form::Cons(a, b) => evaluate_star(alloc, place, scope, a, b, ty, left),
        Form::Inl(a) => evaluate_left(alloc, place, scope, a, ty, left),
        Form::Inr(a) => evaluate_right(alloc, place, scope, a, ty, left),
        Form::Asc(a, t) => evaluate_typed(alloc, place, scope, a, t, left),
        Form::Let(_, h, _) => evaluate_with_head(alloc, place, scope, h, e, ty, left),
        Form::LetPar(_, _, h, _) => evaluate_with_head(alloc, place, scope, h, e, ty, left),
        Form::LetCat(_, _, h, _) => evaluate_with_head(alloc, place, scope, h, e, ty, left),
        Form::CaseSum(h, _, _, _, _) => evaluate_with_head(alloc, place, scope, h, e, ty, left),
        Form::CaseStar(h, _, _, _, _) => evaluate_with_head(alloc, place, scope, h, e, ty, left),
        Form::Wait(x, e) => evaluate_wait(alloc, place, scope, *x, e, ty, left),
        Form::If(m, a, b) => evaluate_if(alloc, place, scope, m, a, b, ty, left),
        Form::Call(f, ms, es) => evaluate_call(alloc, place, scope, *f, ms, es, left),
    }
}

// Two expressions at once, each with its expected type.
#[cycle(evaluate)]
#[tactic(auto, using(core_term::proofs::RunsInTurn::spent_after))]
fn evaluate_both<'a>(
    alloc: Global,
    place: &Place<'_>,
    scope: &'a Scope<'a>,
    a: &Exp,
    s: &Ty,
    b: &Exp,
    t: &Ty,
    left: u64,
) -> Result<Evaluated, Pause>
    requires room { left < place.now.depth }
    requires answers { All (IsRight (functions_at place.now)) place.now.answers.now }
    ensures run { IfOk result (λ r. run_of r ≡ par_run (run_at place.now scope.now (expression_of a.now) (type_of s.now)) (run_at place.now scope.now (expression_of b.now) (type_of t.now))) }
    ensures counted { IfOk result (λ r. r.calls ≤ left) }
    ensures spent { IfErr result (λ r. StopsAmong (functions_at place.now) left (par_run (run_at place.now scope.now (expression_of a.now) (type_of s.now)) (run_at place.now scope.now (expression_of b.now) (type_of t.now))).calls r) }
{
    let first = evaluate(alloc, place, scope, a, s, left)?;
    let second = evaluate(alloc, place, scope, b, t, left - first.calls)?;
    Ok(par_run(alloc, first, second)?)
}

// Two expressions one after the other, each with its expected type: the second only once the first is whole.
#[cycle(evaluate)]
#[tactic(auto, using(core_term::proofs::RunsInTurn::in_turn))]
fn evaluate_in_turn<'a>(
    alloc: Global,
    place: &Place<'_>,
    scope: &'a Scope<'a>,
    a: &Exp,
    s: &Ty,
    b: &Exp,
    t: &Ty,
    left: u64,
) -> Result<Evaluated, Pause>
    requires room { left < place.now.depth }
    requires answers { All (IsRight (functions_at place.now)) place.now.answers.now }
    ensures run { IfOk result (λ r. run_of r ≡ cat_run (run_at place.now scope.now (expression_of a.now) (type_of s.now)) (run_at place.now scope.now (expression_of b.now) (type_of t.now))) }
    ensures counted { IfOk result (λ r. r.calls ≤ left) }
    ensures spent { IfErr result (λ r. StopsAmong (functions_at place.now) left (cat_run (run_at place.now scope.now (expression_of a.now) (type_of s.now)) (run_at place.now scope.now (expression_of b.now) (type_of t.now))).calls r) }
{
    let first = evaluate(alloc, place, scope, a, s, left)?;
    if !maximal(&first.output) {
        return Ok(first_run(alloc, first)?);
    }
    let second = evaluate(alloc, place, scope, b, t, left - first.calls)?;
    Ok(cat_run(alloc, first, second)?)
}

// An item before the rest of a star.
#[cycle(evaluate)]
fn evaluate_star<'a>(
    alloc: Global,
    place: &Place<'_>,
    scope: &'a Scope<'a>,
    a: &Exp,
    b: &Exp,
    ty: &Ty,
    left: u64,
) -> Result<Evaluated, Pause>
    requires room { left < place.now.depth }
    requires answers { All (IsRight (functions_at place.now)) place.now.answers.now }
    ensures run { IfOk result (λ r. run_of r ≡ relabel as_star (cat_run (run_at place.now scope.now (expression_of a.now) (star_item (type_of ty.now))) (run_at place.now scope.now (expression_of b.now) (star_items (type_of ty.now))))) }
    ensures counted { IfOk result (λ r. r.calls ≤ left) }
    ensures spent { IfErr result (λ r. StopsAmong (functions_at place.now) left (relabel as_star (cat_run (run_at place.now scope.now (expression_of a.now) (star_item (type_of ty.now))) (run_at place.now scope.now (expression_of b.now) (star_items (type_of ty.now))))).calls r) }
{
    let (s, t) = star_types(&*ty, &Ty::Eps);
    let both = evaluate_in_turn(alloc, place, scope, a, s, b, t, left)?;
    Ok(star_run(alloc, both)?)
}

// The left side of a sum.
#[cycle(evaluate)]
fn evaluate_left<'a>(
    alloc: Global,
    place: &Place<'_>,
    scope: &'a Scope<'a>,
    a: &Exp,
    ty: &Ty,
    left: u64,
) -> Result<Evaluated, Pause>
    requires room { left < place.now.depth }
    requires answers { All (IsRight (functions_at place.now)) place.now.answers.now }
    ensures run { IfOk result (λ r. run_of r ≡ relabel in_left (run_at place.now scope.now (expression_of a.now) (sum_left (type_of ty.now)))) }
    ensures counted { IfOk result (λ r. r.calls ≤ left) }
    ensures spent { IfErr result (λ r. StopsAmong (functions_at place.now) left (relabel in_left (run_at place.now scope.now (expression_of a.now) (sum_left (type_of ty.now)))).calls r) }
{
    let (s, _) = sum_types(&*ty, &Ty::Eps);
    let inside = evaluate(alloc, place, scope, a, s, left)?;
    Ok(left_run(alloc, inside)?)
}

// The right side of a sum.
#[cycle(evaluate)]
fn evaluate_right<'a>(
    alloc: Global,
    place: &Place<'_>,
    scope: &'a Scope<'a>,
    a: &Exp,
    ty: &Ty,
    left: u64,
) -> Result<Evaluated, Pause>
    requires room { left < place.now.depth }
    requires answers { All (IsRight (functions_at place.now)) place.now.answers.now }
    ensures run { IfOk result (λ r. run_of r ≡ relabel in_right (run_at place.now scope.now (expression_of a.now) (sum_right (type_of ty.now)))) }
    ensures counted { IfOk result (λ r. r.calls ≤ left) }
    ensures spent { IfErr result (λ r. StopsAmong (functions_at place.now) left (relabel in_right (run_at place.now scope.now (expression_of a.now) (sum_right (type_of ty.now)))).calls r) }
{
    let (_, t) = sum_types(&*ty, &Ty::Eps);
    let inside = evaluate(alloc, place, scope, a, t, left)?;
    Ok(right_run(alloc, inside)?)
}

// An expression with its type, which stands one deeper.
#[cycle(evaluate)]
fn evaluate_typed<'a>(
    alloc: Global,
    place: &Place<'_>,
    scope: &'a Scope<'a>,
    a: &Exp,
    t: &TyExp,
    left: u64,
) -> Result<Evaluated, Pause>
    requires room { left < place.now.depth }
    requires answers { All (IsRight (functions_at place.now)) place.now.answers.now }
    ensures run { IfOk result (λ r. run_of r ≡ typed_run (run_at place.now scope.now (expression_of a.now) (type_meant (names_known place.now.known.now) (type_tree_of t.now)))) }
    ensures counted { IfOk result (λ r. r.calls ≤ left) }
    ensures spent { IfErr result (λ r. StopsAmong (functions_at place.now) left (typed_run (run_at place.now scope.now (expression_of a.now) (type_meant (names_known place.now.known.now) (type_tree_of t.now)))).calls r) }
{
    let inside = evaluate_at_type(alloc, place, scope, a, t, left)?;
    Ok(typed_run(inside)?)
}

// By the side of a sum that the value is of, the first or the second.
#[cycle(evaluate)]
fn evaluate_if<'a>(
    alloc: Global,
    place: &Place<'_>,
    scope: &'a Scope<'a>,
    m: &Hist,
    a: &Exp,
    b: &Exp,
    ty: &Ty,
    left: u64,
) -> Result<Evaluated, Pause>
    requires room { left < place.now.depth }
    requires answers { All (IsRight (functions_at place.now)) place.now.answers.now }
    ensures run { IfOk result (λ r. run_of r ≡ if_run (value (hist_of m.now).expr (past_in scope.now)) (run_at place.now scope.now (expression_of a.now) (type_of ty.now)) (run_at place.now scope.now (expression_of b.now) (type_of ty.now))) }
    ensures counted { IfOk result (λ r. r.calls ≤ left) }
    ensures spent { IfErr result (λ r. StopsAmong (functions_at place.now) left (if_run (value (hist_of m.now).expr (past_in scope.now)) (run_at place.now scope.now (expression_of a.now) (type_of ty.now)) (run_at place.now scope.now (expression_of b.now) (type_of ty.now))).calls r) }
{
    if is_left(alloc, scope, m)? {
        evaluate(alloc, place, scope, a, ty, left)
    } else {
        evaluate(alloc, place, scope, b, ty, left)
    }
}

// An expression with its written type.
#[cycle(evaluate)]
fn evaluate_at_type<'a>(
    alloc: Global,
    place: &Place<'_>,
    scope: &'a Scope<'a>,
    e: &Exp,
    t: &TyExp,
    left: u64,
) -> Result<Evaluated, Pause>
    requires room { left < place.now.depth }
    requires answers { All (IsRight (functions_at place.now)) place.now.answers.now }
    ensures run { IfOk result (λ r. run_of r ≡ run_at place.now scope.now (expression_of e.now) (type_meant (names_known place.now.known.now) (type_tree_of t.now))) }
    ensures counted { IfOk result (λ r. r.calls ≤ left) }
    ensures spent { IfErr result (λ r. StopsAmong (functions_at place.now) left (run_at place.now scope.now (expression_of e.now) (type_meant (names_known place.now.known.now) (type_tree_of t.now))).calls r) }
{
    let t = boxed_type(alloc, place.known, t)?;
    evaluate(alloc, place, scope, e, &t, left)
}

// A wait, of which the rest is run once the name's stream is whole.
#[cycle(evaluate)]
#[tactic(auto, using(core_term::proofs::RunsInTurn::waits))]
fn evaluate_wait<'a>(
    alloc: Global,
    place: &Place<'_>,
    scope: &'a Scope<'a>,
    x: Name,
    e: &Exp,
    ty: &Ty,
    left: u64,
) -> Result<Evaluated, Pause>
    requires room { left < place.now.depth }
    requires answers { All (IsRight (functions_at place.now)) place.now.answers.now }
    ensures run { IfOk result (λ r. (at : ℕ) → run_of r ≡ run_at place.now scope.now (wait_at at x.0 (expression_of e.now)) (type_of ty.now)) }
    ensures counted { IfOk result (λ r. r.calls ≤ left) }
    ensures spent { IfErr result (λ r. (at : ℕ) → StopsAmong (functions_at place.now) left (run_at place.now scope.now (wait_at at x.0 (expression_of e.now)) (type_of ty.now)).calls r) }
{
    match waited(alloc, scope, x)? {
        Some(v) => evaluate(alloc, place, &Scope::Waited(x, &v, &*scope), e, ty, left),
        None => nothing_run(alloc, ty),
    }
}

// A form with a head: what the head gives, and then what stands after it.
#[cycle(evaluate)]
fn evaluate_with_head<'a>(
    alloc: Global,
    place: &Place<'_>,
    scope: &'a Scope<'a>,
    h: &Head,
    e: &Exp,
    ty: &Ty,
    left: u64,
) -> Result<Evaluated, Pause>
    requires room { left < place.now.depth }
    requires answers { All (IsRight (functions_at place.now)) place.now.answers.now }
    ensures run { IfOk result (λ r. run_of r ≡ let_run (is_name_head (head_of h.now)) (head_run_at place.now scope.now (head_of h.now)) (run_after place.now scope.now (expression_of e.now) (type_of ty.now) (head_type_at place.now scope.now (head_of h.now)) (head_run_at place.now scope.now (head_of h.now)).out)) }
    ensures counted { IfOk result (λ r. r.calls ≤ left) }
    ensures spent { IfErr result (λ r. StopsAmong (functions_at place.now) left (let_run (is_name_head (head_of h.now)) (head_run_at place.now scope.now (head_of h.now)) (run_after place.now scope.now (expression_of e.now) (type_of ty.now) (head_type_at place.now scope.now (head_of h.now)) (head_run_at place.now scope.now (head_of h.now)).out)).calls r) }
{
    let head = evaluate_head(alloc, place, scope, h, left)?;
    evaluate_let(alloc, place, scope, h, e, &head, ty, left)
}

// What a head gave, and then what stands after it.
#[cycle(evaluate)]
fn evaluate_let<'a>(
    alloc: Global,
    place: &Place<'_>,
    scope: &'a Scope<'a>,
    h: &Head,
    e: &Exp,
    head: &Evaluated,
    ty: &Ty,
    left: u64,
) -> Result<Evaluated, Pause>
    requires room { left < place.now.depth }
    requires answers { All (IsRight (functions_at place.now)) place.now.answers.now }
    requires counted { head.now.calls ≤ left }
    ensures run { IfOk result (λ r. run_of r ≡ let_run (is_name_head (head_of h.now)) (run_of head.now) (run_after place.now scope.now (expression_of e.now) (type_of ty.now) (head_type_at place.now scope.now (head_of h.now)) (prefix_of head.now.output))) }
    ensures counted { IfOk result (λ r. r.calls ≤ left) }
    ensures spent { IfErr result (λ r. StopsAmong (functions_at place.now) left (head.now.calls + (run_after place.now scope.now (expression_of e.now) (type_of ty.now) (head_type_at place.now scope.now (head_of h.now)) (prefix_of head.now.output)).calls) r) }
{
    let rest = left - head.calls;
    let after = evaluate_after(alloc, place, scope, h, e, &head.output, ty, rest)?;
    Ok(let_run(is_name_head(h), head, after)?)
}

// What stands after a head, which gave this.
#[cycle(evaluate)]
fn evaluate_after<'a>(
    alloc: Global,
    place: &Place<'_>,
    scope: &'a Scope<'a>,
    h: &Head,
    e: &Exp,
    p: &Prefix,
    ty: &Ty,
    left: u64,
) -> Result<Evaluated, Pause>
    requires room { left < place.now.depth }
    requires answers { All (IsRight (functions_at place.now)) place.now.answers.now }
    ensures run { IfOk result (λ r. run_of r ≡ run_after place.now scope.now (expression_of e.now) (type_of ty.now) (head_type_at place.now scope.now (head_of h.now)) (prefix_of p.now)) }
    ensures counted { IfOk result (λ r. r.calls ≤ left) }
    ensures spent { IfErr result (λ r. StopsAmong (functions_at place.now) left (run_after place.now scope.now (expression_of e.now) (type_of ty.now) (head_type_at place.now scope.now (head_of h.now)) (prefix_of p.now)).calls r) }
{
    let s = boxed_head_type(alloc, place, scope, h)?;
    evaluate_bound(alloc, place, scope, e, &s, p, ty, left)
}

// What stands after a head of this type, which gave this, by the form.
#[cycle(evaluate)]
#[tactic(auto, using(delta_tree::proofs::Rows::rows))]
fn evaluate_bound<'a>(
    alloc: Global,
    place: &Place<'_>,
    scope: &'a Scope<'a>,
    e: &Exp,
    s: &Ty,
    p: &Prefix,
    ty: &Ty,
    left: u64,
) -> Result<Evaluated, Pause>
    requires room { left < place.now.depth }
    requires answers { All (IsRight (functions_at place.now)) place.now.answers.now }
    ensures run { IfOk result (λ r. run_of r ≡ run_after place.now scope.now (expression_of e.now) (type_of ty.now) (type_of s.now) (prefix_of p.now)) }
    ensures counted { IfOk result (λ r. r.calls ≤ left) }
    ensures spent { IfErr result (λ r. StopsAmong (functions_at place.now) left (run_after place.now scope.now (expression_of e.now) (type_of ty.now) (type_of s.now) (prefix_of p.now)).calls r) }
{
    match &*e.form {
        Form::Let(x, _, e) => evaluate_one(alloc, place, scope, *x, s, p, e, ty, left),
        Form::LetPar(x, y, _, e) => {
            let (t, u) = par_types(&*s, &Ty::Eps);
            let (p, q) = par_parts(&*p, &Prefix::EpsEmp);
            evaluate_two(alloc, place, scope, *x, t, p, *y, u, q, e, ty, left)
        }
        Form::LetCat(x, y, _, e) => {
            evaluate_parts(alloc, place, scope, *x, *y, s, p, e, ty, left)
        }
        Form::CaseSum(_, x, a, y, b) => {
            evaluate_side(alloc, place, scope, *x, a, *y, b, s, p, ty, left)
        }
        Form::CaseStar(_, a, y, ys, b) => {
            evaluate_item(alloc, place, scope, a, *y, *ys, b, s, p, ty, left)
        }
        Form::Var(_)
        | Form::Eps
        | Form::Unit
        | Form::Nil
        | Form::Past(_)
        | Form::Par(_, _)
        | Form::Cat(_, _)
        | Form::Cons(_, _)
        | Form::Inl(_)
        | Form::Inr(_)
        | Form::Asc(_, _)
        | Form::Wait(_, _)
        | Form::If(_, _, _)
        | Form::Call(_, _, _) => nothing_run(alloc, ty),
    }
}

// What stands after a head whose parts come one after the other.
#[cycle(evaluate)]
fn evaluate_parts<'a>(
    alloc: Global,
    place: &Place<'_>,
    scope: &'a Scope<'a>,
    x: Name,
    y: Name,
    s: &Ty,
    p: &Prefix,
    e: &Exp,
    ty: &Ty,
    left: u64,
) -> Result<Evaluated, Pause>
    requires room { left < place.now.depth }
    requires answers { All (IsRight (functions_at place.now)) place.now.answers.now }
    ensures run { IfOk result (λ r. run_of r ≡ run_with_two place.now scope.now x.0 y.0 (expression_of e.now) (type_of ty.now) (cat_first (type_of s.now)) (cat_second (type_of s.now)) (first_part (prefix_of p.now)) (second_part (cat_second (type_of s.now)) (prefix_of p.now))) }
    ensures counted { IfOk result (λ r. r.calls ≤ left) }
    ensures spent { IfErr result (λ r. StopsAmong (functions_at place.now) left (run_with_two place.now scope.now x.0 y.0 (expression_of e.now) (type_of ty.now) (cat_first (type_of s.now)) (cat_second (type_of s.now)) (first_part (prefix_of p.now)) (second_part (cat_second (type_of s.now)) (prefix_of p.now))).calls r) }
{
    let (t, u) = cat_types(&*s, &Ty::Eps);
    let (p, q) = cat_parts(alloc, u, p)?;
    evaluate_two(alloc, place, scope, x, t, &*p, y, u, &*q, e, ty, left)
}

// The branch of the side that is chosen.
#[cycle(evaluate)]
fn evaluate_side<'a>(
    alloc: Global,
    place: &Place<'_>,
    scope: &'a Scope<'a>,
    x: Name,
    a: &Exp,
    y: Name,
    b: &Exp,
    s: &Ty,
    p: &Prefix,
    ty: &Ty,
    left: u64,
) -> Result<Evaluated, Pause>
    requires room { left < place.now.depth }
    requires answers { All (IsRight (functions_at place.now)) place.now.answers.now }
    ensures run { IfOk result (λ r. run_of r ≡ sum_run (type_of ty.now) (prefix_of p.now) (λ q. run_with_one place.now scope.now x.0 (expression_of a.now) (type_of ty.now) (sum_left (type_of s.now)) q) (λ q. run_with_one place.now scope.now y.0 (expression_of b.now) (type_of ty.now) (sum_right (type_of s.now)) q)) }
    ensures counted { IfOk result (λ r. r.calls ≤ left) }
    ensures spent { IfErr result (λ r. StopsAmong (functions_at place.now) left (sum_run (type_of ty.now) (prefix_of p.now) (λ q. run_with_one place.now scope.now x.0 (expression_of a.now) (type_of ty.now) (sum_left (type_of s.now)) q) (λ q. run_with_one place.now scope.now y.0 (expression_of b.now) (type_of ty.now) (sum_right (type_of s.now)) q)).calls r) }
{
    let (t, u) = sum_types(&*s, &Ty::Eps);
    match side_taken(p) {
        Sided::Left(q) => evaluate_one(alloc, place, scope, x, t, q, a, ty, left),
        Sided::Right(q) => evaluate_one(alloc, place, scope, y, u, q, b, ty, left),
        Sided::Nothing => nothing_run(alloc, ty),
    }
}

// The branch of a star that is over, or that of its first item and the rest.
#[cycle(evaluate)]
fn evaluate_item<'a>(
    alloc: Global,
    place: &Place<'_>,
    scope: &'a Scope<'a>,
    a: &Exp,
    y: Name,
    ys: Name,
    b: &Exp,
    s: &Ty,
    p: &Prefix,
    ty: &Ty,
    left: u64,
) -> Result<Evaluated, Pause>
    requires room { left < place.now.depth }
    requires answers { All (IsRight (functions_at place.now)) place.now.answers.now }
    ensures run { IfOk result (λ r. run_of r ≡ star_run (type_of ty.now) (prefix_of p.now) (run_at place.now scope.now (expression_of a.now) (type_of ty.now)) (λ q qs. run_with_two place.now scope.now y.0 ys.0 (expression_of b.now) (type_of ty.now) (star_item (type_of s.now)) (star_items (type_of s.now)) q qs)) }
    ensures counted { IfOk result (λ r. r.calls ≤ left) }
    ensures spent { IfErr result (λ r. StopsAmong (functions_at place.now) left (star_run (type_of ty.now) (prefix_of p.now) (run_at place.now scope.now (expression_of a.now) (type_of ty.now)) (λ q qs. run_with_two place.now scope.now y.0 ys.0 (expression_of b.now) (type_of ty.now) (star_item (type_of s.now)) (star_items (type_of s.now)) q qs)).calls r) }
{
    let (t, u) = star_types(&*s, &Ty::Eps);
    let taken = boxed_taken(alloc, p)?;
    match &*taken {
        Taken::Over => evaluate(alloc, place, scope, a, ty, left),
        Taken::Item(q, qs) => evaluate_two(alloc, place, scope, y, t, q, ys, u, qs, b, ty, left),
        Taken::Nothing => nothing_run(alloc, ty),
    }
}

// An expression where one name is bound.
#[cycle(evaluate)]
fn evaluate_one<'a>(
    alloc: Global,
    place: &Place<'_>,
    scope: &'a Scope<'a>,
    x: Name,
    t: &Ty,
    p: &Prefix,
    e: &Exp,
    ty: &Ty,
    left: u64,
) -> Result<Evaluated, Pause>
    requires room { left < place.now.depth }
    requires answers { All (IsRight (functions_at place.now)) place.now.answers.now }
    ensures run { IfOk result (λ r. run_of r ≡ run_with_one place.now scope.now x.0 (expression_of e.now) (type_of ty.now) (type_of t.now) (prefix_of p.now)) }
    ensures counted { IfOk result (λ r. r.calls ≤ left) }
    ensures spent { IfErr result (λ r. StopsAmong (functions_at place.now) left (run_with_one place.now scope.now x.0 (expression_of e.now) (type_of ty.now) (type_of t.now) (prefix_of p.now)).calls r) }
{
    let inner = Scope::Stream(x, t, p, &*scope);
    evaluate(alloc, place, &inner, e, ty, left)
}

// An expression where two names are bound.
#[cycle(evaluate)]
fn evaluate_two<'a>(
    alloc: Global,
    place: &Place<'_>,
    scope: &'a Scope<'a>,
    x: Name,
    t: &Ty,
    p: &Prefix,
    y: Name,
    u: &Ty,
    q: &Prefix,
    e: &Exp,
    ty: &Ty,
    left: u64,
) -> Result<Evaluated, Pause>
    requires room { left < place.now.depth }
    requires answers { All (IsRight (functions_at place.now)) place.now.answers.now }
    ensures run { IfOk result (λ r. run_of r ≡ run_with_two place.now scope.now x.0 y.0 (expression_of e.now) (type_of ty.now) (type_of t.now) (type_of u.now) (prefix_of p.now) (prefix_of q.now)) }
    ensures counted { IfOk result (λ r. r.calls ≤ left) }
    ensures spent { IfErr result (λ r. StopsAmong (functions_at place.now) left (run_with_two place.now scope.now x.0 y.0 (expression_of e.now) (type_of ty.now) (type_of t.now) (type_of u.now) (prefix_of p.now) (prefix_of q.now)).calls r) }
{
    let outer = Scope::Stream(x, t, p, &*scope);
    let inner = Scope::Stream(y, u, q, &outer);
    evaluate(alloc, place, &inner, e, ty, left)
}

// What a `let` or a case looks at.
#[cycle(evaluate)]
#[tactic(auto, using(delta_tree::proofs::Rows::rows))]
fn evaluate_head<'a>(
    alloc: Global,
    place: &Place<'_>,
    scope: &'a Scope<'a>,
    h: &Head,
    left: u64,
) -> Result<Evaluated, Pause>
    requires room { left < place.now.depth }
    requires answers { All (IsRight (functions_at place.now)) place.now.answers.now }
    ensures run { IfOk result (λ r. run_of r ≡ head_run_at place.now scope.now (head_of h.now)) }
    ensures counted { IfOk result (λ r. r.calls ≤ left) }
    ensures spent { IfErr result (λ r. StopsAmong (functions_at place.now) left (head_run_at place.now scope.now (head_of h.now)).calls r) }
{
    match &*h.form {
        HeadForm::Var(x) => name_run(alloc, scope, *x),
        HeadForm::Call(f, ms, es) => evaluate_call(alloc, place, scope, *f, ms, es, left),
        HeadForm::Asc(e, t) => evaluate_at_type(alloc, place, scope, e, t, left),
    }
}

// `f{ms}(es)`.
#[cycle(evaluate)]
fn evaluate_call<'a>(
    alloc: Global,
    place: &Place<'_>,
    scope: &'a Scope<'a>,
    f: Name,
    ms: &[Hist],
    es: &[Exp],
    left: u64,
) -> Result<Evaluated, Pause>
    requires room { left < place.now.depth }
    requires answers { All (IsRight (functions_at place.now)) place.now.answers.now }
    ensures run { IfOk result (λ r. (at : ℕ) → run_of r ≡ head_run_at place.now scope.now (call_head at f.0 (map hist_of ms.now) (expressions_of es.now))) }
    ensures counted { IfOk result (λ r. r.calls ≤ left) }
    ensures spent { IfErr result (λ r. (at : ℕ) → StopsAmong (functions_at place.now) left (head_run_at place.now scope.now (call_head at f.0 (map hist_of ms.now) (expressions_of es.now))).calls r) }
{
    let values = values_in(alloc, scope, ms)?;
    let params = params_of(alloc, place, f)?;
    let start = no_arguments(alloc);
    let arguments = evaluate_arguments(alloc, place, scope, es, &params, start, left)?;
    let rest = left - arguments.calls;
    let body = evaluate_body(alloc, place, f, &values, &arguments.outputs, rest)?;
    Ok(call_run(&arguments, body)?)
}

// Arguments, at the types of their parameters, after those that were evaluated before them.
#[cycle(evaluate)]
#[tactic(auto, using(crate::proofs::Evaluations::joined))]
fn evaluate_arguments<'a>(
    alloc: Global,
    place: &Place<'_>,
    scope: &'a Scope<'a>,
    es: &[Exp],
    params: &[(Name, Ty)],
    before: Arguments,
    left: u64,
) -> Result<Arguments, Pause>
    requires room { left < place.now.depth }
    requires answers { All (IsRight (functions_at place.now)) place.now.answers.now }
    requires counted { before.calls ≤ left }
    ensures runs { IfOk result (λ r. runs_of r ≡ runs_joined (runs_of before) (arguments_at place.now scope.now (expressions_of es.now) (types_listed params.now))) }
    ensures counted { IfOk result (λ r. r.calls ≤ left) }
    ensures spent { IfErr result (λ r. StopsAmong (functions_at place.now) left (runs_joined (runs_of before) (arguments_at place.now scope.now (expressions_of es.now) (types_listed params.now))).calls r) }
{
    let Some((e, more)) = es.split_first() else {
        return Ok(before);
    };
    let (ty, others) = first_param(params, &Ty::Eps);
    let argument = evaluate(alloc, place, scope, e, ty, left - before.calls)?;
    let so_far = one_more(before, is_name(e), argument)?;
    evaluate_arguments(alloc, place, scope, more, others, so_far, left)
}

/// The body of a function on its arguments, counted as a call. Where too many calls stand round it on the
/// stack, it is put off, unless an answer says what it gives.
#[cycle(evaluate)]
#[tactic(auto, using(crate::proofs::Evaluations::bodies))]
pub fn evaluate_body(
    alloc: Global,
    place: &Place<'_>,
    f: Name,
    values: &[Value],
    streams: &[Prefix],
    left: u64,
) -> Result<Evaluated, Pause>
    requires room { left < place.now.depth }
    requires answers { All (IsRight (functions_at place.now)) place.now.answers.now }
    ensures run { IfOk result (λ r. run_of r ≡ calls_at place.now f.0 (map hist_value_of values.now) (map prefix_of streams.now)) }
    ensures counted { IfOk result (λ r. r.calls ≤ left) }
    ensures spent { IfErr result (λ r. StopsAmong (functions_at place.now) left (calls_at place.now f.0 (map hist_value_of values.now) (map prefix_of streams.now)).calls r) }
{
    if left == 0 || place.near == 0 {
        return answer_to(alloc, place, f, values, streams, left);
    }
    let Some(function) = function_named(place.functions, f) else {
        return Ok(one_call(quiet(Prefix::EpsEmp)));
    };
    let params = leaves(alloc, &function.params)?;
    let past = past_of_body(alloc, &function.past, values, &params)?;
    let inside = Place {
        functions: place.functions,
        known: &function.known,
        depth: place.depth - 1,
        near: place.near - 1,
        answers: place.answers,
    };
    let scope = Scope::Params(&params, streams, &past);
    let run = evaluate(
        alloc,
        &inside,
        &scope,
        function.body,
        &function.result,
        left - 1,
    )?;
    Ok(one_call(run))
}
