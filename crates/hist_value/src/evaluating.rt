//! The values of historical expressions.

ghost use Rattle.std.specs.Prelude.{◌≡◌, map, IfOk};
ghost use Rattle.hist_value.specs.Environment.{environment_of};
ghost use Rattle.hist_value.specs.Evaluate.{value, cons_of, gather, gathering};
ghost use Rattle.hist_value.specs.HistExpr.{expr_of, reckoned, pair_expr, left_expr, right_expr, choice, cons_expr, fold_expr};
ghost use Rattle.hist_value.specs.HistValue.{hist_value_of, list_of};
ghost use Rattle.hist_value.specs.Scope.{past_of};

use crate::expr::{Expr, Op};
use crate::history::Value;
use crate::reckoning::{first_of, reckon_values, second_of};
use crate::scope::{Scope, value_at};
use bunch::Name;
use std::alloc::Global;
use stream_type::Memory;

/// The value of an expression where the entries give each name its value, a later one before an
/// earlier one: `value` in `specs/Evaluate.antt`. It means this where the rules give `e` a type. Its
/// only error is want of memory.
pub fn value(alloc: Global, e: &Expr, env: &[(Name, Value)]) -> Result<Value, Memory>
    ensures { IfOk result (λ v. hist_value_of v ≡ value (expr_of e.now) (environment_of env.now)) }
{
    value_in(alloc, e, &Scope::Entries(env))
}

// The same in a scope.
#[cycle(value)]
#[tactic(auto, using(crate::proofs::ListForms::list_forms))]
fn value_in<'a>(alloc: Global, e: &Expr, scope: &'a Scope<'a>) -> Result<Value, Memory>
    ensures { IfOk result (λ v. hist_value_of v ≡ value (expr_of e.now) (past_of scope.now)) }
{
    match e {
        Expr::Var(x) => value_at(alloc, scope, *x),
        Expr::Lit(n) => Ok(Value::Int(*n)),
        Expr::Unit => Ok(Value::Unit),
        Expr::Bin(op, a, b) => reckoned(alloc, *op, a, b, scope),
        Expr::Pair(a, b) => pair_of(alloc, a, b, scope),
        Expr::Fst(a) => Ok(first_of(value_in(alloc, a, scope)?)),
        Expr::Snd(a) => Ok(second_of(value_in(alloc, a, scope)?)),
        Expr::Inl(a) => left_of(alloc, a, scope),
        Expr::Inr(a) => right_of(alloc, a, scope),
        Expr::Choose(a, x, b, y, c) => chosen(alloc, a, *x, b, *y, c, scope),
        Expr::Nil => Ok(Value::List(Vec::new(alloc))),
        Expr::Cons(a, b) => put_in_front(alloc, a, b, scope),
        Expr::Fold(a, s, x, y, b) => folded(alloc, a, s, *x, *y, b, scope),
    }
}

// What is reckoned with two values.
#[cycle(value)]
fn reckoned<'a>(
    alloc: Global,
    op: Op,
    a: &Expr,
    b: &Expr,
    scope: &'a Scope<'a>,
) -> Result<Value, Memory>
    ensures { IfOk result (λ v. hist_value_of v ≡ value (reckoned op (expr_of a.now) (expr_of b.now)) (past_of scope.now)) }
{
    let v = value_in(alloc, a, scope)?;
    let w = value_in(alloc, b, scope)?;
    reckon_values(alloc, op, &v, &w)
}

// Two values as one.
#[cycle(value)]
fn pair_of<'a>(alloc: Global, a: &Expr, b: &Expr, scope: &'a Scope<'a>) -> Result<Value, Memory>
    ensures { IfOk result (λ v. hist_value_of v ≡ value (pair_expr (expr_of a.now) (expr_of b.now)) (past_of scope.now)) }
{
    let v = Box::new(alloc, value_in(alloc, a, scope)?)?;
    let w = Box::new(alloc, value_in(alloc, b, scope)?)?;
    Ok(Value::Pair(v, w))
}

// A value of a sum's first type.
#[cycle(value)]
fn left_of<'a>(alloc: Global, a: &Expr, scope: &'a Scope<'a>) -> Result<Value, Memory>
    ensures { IfOk result (λ v. hist_value_of v ≡ value (left_expr (expr_of a.now)) (past_of scope.now)) }
{
    Ok(Value::Inl(Box::new(alloc, value_in(alloc, a, scope)?)?))
}

// A value of a sum's second type.
#[cycle(value)]
fn right_of<'a>(alloc: Global, a: &Expr, scope: &'a Scope<'a>) -> Result<Value, Memory>
    ensures { IfOk result (λ v. hist_value_of v ≡ value (right_expr (expr_of a.now)) (past_of scope.now)) }
{
    Ok(Value::Inr(Box::new(alloc, value_in(alloc, a, scope)?)?))
}

// What stands on the side that a sum's value is of.
#[cycle(value)]
#[tactic(auto, using(crate::proofs::ListForms::list_forms))]
fn chosen<'a>(
    alloc: Global,
    a: &Expr,
    x: Name,
    b: &Expr,
    y: Name,
    c: &Expr,
    scope: &'a Scope<'a>,
) -> Result<Value, Memory>
    ensures { IfOk result (λ v. hist_value_of v ≡ value (choice (expr_of a.now) x.0 (expr_of b.now) y.0 (expr_of c.now)) (past_of scope.now)) }
{
    match value_in(alloc, a, scope)? {
        Value::Inl(v) => value_in(alloc, b, &Scope::Bound(x, &v, &*scope)),
        Value::Inr(v) => value_in(alloc, c, &Scope::Bound(y, &v, &*scope)),
        Value::Unit | Value::Int(_) | Value::Pair(_, _) | Value::List(_) => Ok(Value::Unit),
    }
}

// An item in front of a list.
#[cycle(value)]
fn put_in_front<'a>(
    alloc: Global,
    a: &Expr,
    b: &Expr,
    scope: &'a Scope<'a>,
) -> Result<Value, Memory>
    ensures { IfOk result (λ v. hist_value_of v ≡ value (cons_expr (expr_of a.now) (expr_of b.now)) (past_of scope.now)) }
{
    let v = value_in(alloc, a, scope)?;
    let w = value_in(alloc, b, scope)?;
    put_before(alloc, v, w)
}

// What is gathered from a list.
#[cycle(value)]
#[tactic(auto, using(crate::proofs::ListForms::list_forms))]
fn folded<'a>(
    alloc: Global,
    a: &Expr,
    s: &Expr,
    x: Name,
    y: Name,
    b: &Expr,
    scope: &'a Scope<'a>,
) -> Result<Value, Memory>
    ensures { IfOk result (λ v. hist_value_of v ≡ value (fold_expr (expr_of a.now) (expr_of s.now) x.0 y.0 (expr_of b.now)) (past_of scope.now)) }
{
    let list = value_in(alloc, a, scope)?;
    let start = value_in(alloc, s, scope)?;
    match list {
        Value::List(items) => gather(alloc, b, x, y, &items, start, &*scope),
        Value::Unit | Value::Int(_) | Value::Pair(_, _) | Value::Inl(_) | Value::Inr(_) => Ok(
            start,
        ),
    }
}

// What the body gathers from the items, the first of them first.
#[cycle(value)]
fn gather<'a>(
    alloc: Global,
    body: &Expr,
    x: Name,
    y: Name,
    items: &'a [Value],
    start: Value,
    scope: &'a Scope<'a>,
) -> Result<Value, Memory>
    ensures { IfOk result (λ v. hist_value_of v ≡ gather (gathering (expr_of body.now) x.0 y.0 (past_of scope.now)) (hist_value_of start) (list_of (map hist_value_of items.now))) }
{
    let mut gathered = start;
    for item in items {
        let next = value_in(
            alloc,
            body,
            &Scope::Bound(y, item, &Scope::Bound(x, &gathered, &*scope)),
        )?;
        gathered = next;
    }
    Ok(gathered)
}

// An item in front of a list.
#[tactic(auto, using(crate::proofs::ListForms::list_forms))]
fn put_before(alloc: Global, v: Value, list: Value) -> Result<Value, Memory>
    ensures { IfOk result (λ r. hist_value_of r ≡ cons_of (hist_value_of v) (hist_value_of list)) }
{
    let mut items = Vec::new(alloc);
    items.push(v)?;
    match list {
        Value::List(mut rest) => {
            items.append(&mut rest)?;
            Ok(Value::List(items))
        }
        Value::Unit | Value::Int(_) | Value::Pair(_, _) | Value::Inl(_) | Value::Inr(_) => {
            Ok(Value::List(items))
        }
    }
}
