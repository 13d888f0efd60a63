//! The types of historical expressions.

ghost use Rattle.std.specs.Prelude.{◌≡◌, IfOk, IfErr, IfSome, None, option_map};
ghost use Rattle.hist_value.specs.Environment.{types_of};
ghost use Rattle.hist_value.specs.HistExpr.{expr_of, reckoned, pair_expr, first_expr, second_expr, left_expr, right_expr, choice, cons_expr, fold_expr};
ghost use Rattle.hist_value.specs.HistType.{hist_type_of, same_type, pair_type, sum_type, list_type};
ghost use Rattle.hist_value.specs.Judge.{judge, good, bad, found, of_list};
ghost use Rattle.hist_value.specs.Refusal.{refusal_of, mismatch};
ghost use Rattle.hist_value.specs.Scope.{types_in};
ghost use Rattle.hist_value.specs.Typing.{type_of_op};

use crate::copying::copy_type;
use crate::expr::{Expr, Op};
use crate::fault::HistFault;
use crate::hist_type::HTy;
use crate::type_scope::{TypeScope, type_at};
use bunch::Name;
use std::alloc::Global;
use stream_type::Memory;

/// The type of an expression, or the first rule that it breaks in the order of reading: `judge` in
/// `specs/Judge.antt`. The entries give each name its type, a later one before an earlier one, and
/// a type may be wanted of the whole. Its other error is want of memory.
pub fn type_of(
    alloc: Global,
    e: &Expr,
    env: &[(Name, HTy)],
    wanted: Option<&HTy>,
) -> Result<HTy, HistFault>
    ensures ok { IfOk result (λ t. judge (types_of env.now) (expr_of e.now) (option_map (λ w. hist_type_of w.now) wanted.entry) ≡ good (hist_type_of t)) }
    ensures refused { IfErr result (λ f. IfSome (refusal_of f) (λ r. judge (types_of env.now) (expr_of e.now) (option_map (λ w. hist_type_of w.now) wanted.entry) ≡ bad r)) }
{
    type_in(alloc, e, &TypeScope::Entries(env), wanted)
}

// The same in a scope.
#[cycle(type_of)]
fn type_in<'a>(
    alloc: Global,
    e: &Expr,
    scope: &'a TypeScope<'a>,
    wanted: Option<&HTy>,
) -> Result<HTy, HistFault>
    ensures ok { IfOk result (λ t. judge (types_in scope.now) (expr_of e.now) (option_map (λ w. hist_type_of w.now) wanted.entry) ≡ good (hist_type_of t)) }
    ensures refused { IfErr result (λ f. IfSome (refusal_of f) (λ r. judge (types_in scope.now) (expr_of e.now) (option_map (λ w. hist_type_of w.now) wanted.entry) ≡ bad r)) }
{
    match e {
        Expr::Var(x) => found(alloc, type_at(alloc, scope, *x)?, wanted),
        Expr::Lit(_) => found(alloc, HTy::Int, wanted),
        Expr::Unit => found(alloc, HTy::Unit, wanted),
        Expr::Bin(op, a, b) => reckoned_in(alloc, *op, a, b, scope, wanted),
        Expr::Pair(a, b) => pair_in(alloc, a, b, scope, wanted),
        Expr::Fst(a) => first_in(alloc, a, scope, wanted),
        Expr::Snd(a) => second_in(alloc, a, scope, wanted),
        Expr::Inl(a) => left_in(alloc, a, scope, wanted),
        Expr::Inr(a) => right_in(alloc, a, scope, wanted),
        Expr::Choose(a, x, b, y, c) => choice_in(alloc, a, *x, b, *y, c, scope, wanted),
        Expr::Nil => nil_of(alloc, wanted),
        Expr::Cons(a, b) => cons_in(alloc, a, b, scope, wanted),
        Expr::Fold(a, s, x, y, b) => fold_in(alloc, a, s, *x, *y, b, scope, wanted),
    }
}

// The type of what is reckoned with two numbers.
#[cycle(type_of)]
fn reckoned_in<'a>(
    alloc: Global,
    op: Op,
    a: &Expr,
    b: &Expr,
    scope: &'a TypeScope<'a>,
    wanted: Option<&HTy>,
) -> Result<HTy, HistFault>
    ensures ok { IfOk result (λ t. judge (types_in scope.now) (reckoned op (expr_of a.now) (expr_of b.now)) (option_map (λ w. hist_type_of w.now) wanted.entry) ≡ good (hist_type_of t)) }
    ensures refused { IfErr result (λ f. IfSome (refusal_of f) (λ r. judge (types_in scope.now) (reckoned op (expr_of a.now) (expr_of b.now)) (option_map (λ w. hist_type_of w.now) wanted.entry) ≡ bad r)) }
{
    let t = found(alloc, type_of_op(alloc, op)?, wanted)?;
    type_in(alloc, a, scope, Some(&HTy::Int))?;
    type_in(alloc, b, scope, Some(&HTy::Int))?;
    Ok(t)
}

// The type of a pair.
#[cycle(type_of)]
fn pair_in<'a>(
    alloc: Global,
    a: &Expr,
    b: &Expr,
    scope: &'a TypeScope<'a>,
    wanted: Option<&HTy>,
) -> Result<HTy, HistFault>
    ensures ok { IfOk result (λ t. judge (types_in scope.now) (pair_expr (expr_of a.now) (expr_of b.now)) (option_map (λ w. hist_type_of w.now) wanted.entry) ≡ good (hist_type_of t)) }
    ensures refused { IfErr result (λ f. IfSome (refusal_of f) (λ r. judge (types_in scope.now) (pair_expr (expr_of a.now) (expr_of b.now)) (option_map (λ w. hist_type_of w.now) wanted.entry) ≡ bad r)) }
{
    match wanted {
        None => {
            let s = type_in(alloc, a, scope, None)?;
            Ok(pair(alloc, s, type_in(alloc, b, scope, None)?)?)
        }
        Some(HTy::Pair(s, t)) => {
            let s = type_in(alloc, a, scope, Some(s))?;
            Ok(pair(alloc, s, type_in(alloc, b, scope, Some(t))?)?)
        }
        Some(HTy::Unit | HTy::Int | HTy::Sum(_, _) | HTy::List(_)) => off_form(alloc, wanted),
    }
}

// The type of a pair's first part.
#[cycle(type_of)]
fn first_in<'a>(
    alloc: Global,
    a: &Expr,
    scope: &'a TypeScope<'a>,
    wanted: Option<&HTy>,
) -> Result<HTy, HistFault>
    ensures ok { IfOk result (λ t. judge (types_in scope.now) (first_expr (expr_of a.now)) (option_map (λ w. hist_type_of w.now) wanted.entry) ≡ good (hist_type_of t)) }
    ensures refused { IfErr result (λ f. IfSome (refusal_of f) (λ r. judge (types_in scope.now) (first_expr (expr_of a.now)) (option_map (λ w. hist_type_of w.now) wanted.entry) ≡ bad r)) }
{
    match type_in(alloc, a, scope, None)? {
        HTy::Pair(s, _) => found(alloc, Box::into_inner(s), wanted),
        t => Err(HistFault::Mismatch {
            wanted: None,
            found: Some(t),
        }),
    }
}

// The type of a pair's second part.
#[cycle(type_of)]
fn second_in<'a>(
    alloc: Global,
    a: &Expr,
    scope: &'a TypeScope<'a>,
    wanted: Option<&HTy>,
) -> Result<HTy, HistFault>
    ensures ok { IfOk result (λ t. judge (types_in scope.now) (second_expr (expr_of a.now)) (option_map (λ w. hist_type_of w.now) wanted.entry) ≡ good (hist_type_of t)) }
    ensures refused { IfErr result (λ f. IfSome (refusal_of f) (λ r. judge (types_in scope.now) (second_expr (expr_of a.now)) (option_map (λ w. hist_type_of w.now) wanted.entry) ≡ bad r)) }
{
    match type_in(alloc, a, scope, None)? {
        HTy::Pair(_, t) => found(alloc, Box::into_inner(t), wanted),
        t => Err(HistFault::Mismatch {
            wanted: None,
            found: Some(t),
        }),
    }
}

// The type of a value of a sum's first type.
#[cycle(type_of)]
fn left_in<'a>(
    alloc: Global,
    a: &Expr,
    scope: &'a TypeScope<'a>,
    wanted: Option<&HTy>,
) -> Result<HTy, HistFault>
    ensures ok { IfOk result (λ t. judge (types_in scope.now) (left_expr (expr_of a.now)) (option_map (λ w. hist_type_of w.now) wanted.entry) ≡ good (hist_type_of t)) }
    ensures refused { IfErr result (λ f. IfSome (refusal_of f) (λ r. judge (types_in scope.now) (left_expr (expr_of a.now)) (option_map (λ w. hist_type_of w.now) wanted.entry) ≡ bad r)) }
{
    match wanted {
        None => Err(HistFault::NeedsType),
        Some(HTy::Sum(s, t)) => {
            let s = type_in(alloc, a, scope, Some(s))?;
            Ok(sum(alloc, s, copy_type(alloc, t)?)?)
        }
        Some(HTy::Unit | HTy::Int | HTy::Pair(_, _) | HTy::List(_)) => off_form(alloc, wanted),
    }
}

// The type of a value of a sum's second type.
#[cycle(type_of)]
fn right_in<'a>(
    alloc: Global,
    a: &Expr,
    scope: &'a TypeScope<'a>,
    wanted: Option<&HTy>,
) -> Result<HTy, HistFault>
    ensures ok { IfOk result (λ t. judge (types_in scope.now) (right_expr (expr_of a.now)) (option_map (λ w. hist_type_of w.now) wanted.entry) ≡ good (hist_type_of t)) }
    ensures refused { IfErr result (λ f. IfSome (refusal_of f) (λ r. judge (types_in scope.now) (right_expr (expr_of a.now)) (option_map (λ w. hist_type_of w.now) wanted.entry) ≡ bad r)) }
{
    match wanted {
        None => Err(HistFault::NeedsType),
        Some(HTy::Sum(s, t)) => {
            let t = type_in(alloc, a, scope, Some(t))?;
            Ok(sum(alloc, copy_type(alloc, s)?, t)?)
        }
        Some(HTy::Unit | HTy::Int | HTy::Pair(_, _) | HTy::List(_)) => off_form(alloc, wanted),
    }
}

// The type of a choice: that of its first side, which the second has to have too.
#[cycle(type_of)]
fn choice_in<'a>(
    alloc: Global,
    a: &Expr,
    x: Name,
    b: &Expr,
    y: Name,
    c: &Expr,
    scope: &'a TypeScope<'a>,
    wanted: Option<&HTy>,
) -> Result<HTy, HistFault>
    ensures ok { IfOk result (λ t. judge (types_in scope.now) (choice (expr_of a.now) x.0 (expr_of b.now) y.0 (expr_of c.now)) (option_map (λ w. hist_type_of w.now) wanted.entry) ≡ good (hist_type_of t)) }
    ensures refused { IfErr result (λ f. IfSome (refusal_of f) (λ r. judge (types_in scope.now) (choice (expr_of a.now) x.0 (expr_of b.now) y.0 (expr_of c.now)) (option_map (λ w. hist_type_of w.now) wanted.entry) ≡ bad r)) }
{
    let subject = type_in(alloc, a, scope, None)?;
    match &subject {
        HTy::Sum(s, t) => {
            let r = type_in(alloc, b, &TypeScope::Bound(x, s, &*scope), wanted)?;
            type_in(alloc, c, &TypeScope::Bound(y, t, &*scope), Some(&r))
        }
        _ => Err(HistFault::Mismatch {
            wanted: None,
            found: Some(subject),
        }),
    }
}

// The type of the list with no item.
fn nil_of(alloc: Global, wanted: Option<&HTy>) -> Result<HTy, HistFault>
    ensures ok { IfOk result (λ t. of_list (option_map (λ w. hist_type_of w.now) wanted.entry) (λ s. good (list_type s)) ≡ good (hist_type_of t)) }
    ensures refused { IfErr result (λ f. IfSome (refusal_of f) (λ r. of_list (option_map (λ w. hist_type_of w.now) wanted.entry) (λ s. good (list_type s)) ≡ bad r)) }
{
    match wanted {
        None => Err(HistFault::NeedsType),
        Some(HTy::List(s)) => Ok(list(alloc, copy_type(alloc, s)?)?),
        Some(HTy::Unit | HTy::Int | HTy::Pair(_, _) | HTy::Sum(_, _)) => off_form(alloc, wanted),
    }
}

// The type of an item in front of a list.
#[cycle(type_of)]
fn cons_in<'a>(
    alloc: Global,
    a: &Expr,
    b: &Expr,
    scope: &'a TypeScope<'a>,
    wanted: Option<&HTy>,
) -> Result<HTy, HistFault>
    ensures ok { IfOk result (λ t. judge (types_in scope.now) (cons_expr (expr_of a.now) (expr_of b.now)) (option_map (λ w. hist_type_of w.now) wanted.entry) ≡ good (hist_type_of t)) }
    ensures refused { IfErr result (λ f. IfSome (refusal_of f) (λ r. judge (types_in scope.now) (cons_expr (expr_of a.now) (expr_of b.now)) (option_map (λ w. hist_type_of w.now) wanted.entry) ≡ bad r)) }
{
    match wanted {
        None => {
            let items = list(alloc, type_in(alloc, a, scope, None)?)?;
            type_in(alloc, b, scope, Some(&items))
        }
        Some(HTy::List(s)) => {
            let items = list(alloc, type_in(alloc, a, scope, Some(s))?)?;
            type_in(alloc, b, scope, Some(&items))
        }
        Some(HTy::Unit | HTy::Int | HTy::Pair(_, _) | HTy::Sum(_, _)) => off_form(alloc, wanted),
    }
}

// The type of what is gathered from a list.
#[cycle(type_of)]
fn fold_in<'a>(
    alloc: Global,
    a: &Expr,
    s: &Expr,
    x: Name,
    y: Name,
    b: &Expr,
    scope: &'a TypeScope<'a>,
    wanted: Option<&HTy>,
) -> Result<HTy, HistFault>
    ensures ok { IfOk result (λ t. judge (types_in scope.now) (fold_expr (expr_of a.now) (expr_of s.now) x.0 y.0 (expr_of b.now)) (option_map (λ w. hist_type_of w.now) wanted.entry) ≡ good (hist_type_of t)) }
    ensures refused { IfErr result (λ f. IfSome (refusal_of f) (λ r. judge (types_in scope.now) (fold_expr (expr_of a.now) (expr_of s.now) x.0 y.0 (expr_of b.now)) (option_map (λ w. hist_type_of w.now) wanted.entry) ≡ bad r)) }
{
    let list = type_in(alloc, a, scope, None)?;
    match &list {
        HTy::List(item) => {
            let r = type_in(alloc, s, scope, wanted)?;
            let inner = TypeScope::Bound(x, &r, &*scope);
            type_in(alloc, b, &TypeScope::Bound(y, item, &inner), Some(&r))
        }
        _ => Err(HistFault::Mismatch {
            wanted: None,
            found: Some(list),
        }),
    }
}

// The found type, where it is the wanted one or none is wanted.
fn found(alloc: Global, t: HTy, wanted: Option<&HTy>) -> Result<HTy, HistFault>
    ensures ok { IfOk result (λ r. found (option_map (λ w. hist_type_of w.now) wanted.entry) (hist_type_of t) ≡ good (hist_type_of r)) }
    ensures refused { IfErr result (λ f. IfSome (refusal_of f) (λ r. found (option_map (λ w. hist_type_of w.now) wanted.entry) (hist_type_of t) ≡ bad r)) }
{
    match wanted {
        None => Ok(t),
        Some(w) => {
            if same_type(w, &t) {
                Ok(t)
            } else {
                Err(HistFault::Mismatch {
                    wanted: Some(copy_type(alloc, w)?),
                    found: Some(t),
                })
            }
        }
    }
}

// The refusal of a form that isn't that of the wanted type.
fn off_form(alloc: Global, wanted: Option<&HTy>) -> Result<HTy, HistFault>
    ensures ok { IfOk result (λ _. ⊥) }
    ensures refused { IfErr result (λ f. IfSome (refusal_of f) (λ r. r ≡ mismatch (option_map (λ w. hist_type_of w.now) wanted.entry) None)) }
{
    match wanted {
        None => Err(HistFault::Mismatch {
            wanted: None,
            found: None,
        }),
        Some(w) => {
            Err(HistFault::Mismatch {
                wanted: Some(copy_type(alloc, w)?),
                found: None,
            })
        }
    }
}

// Whether both are the same type.
fn same_type(s: &HTy, t: &HTy) -> bool
    ensures { result ≡ same_type (hist_type_of s.now) (hist_type_of t.now) }
{
    match s {
        HTy::Unit => matches!(t, HTy::Unit),
        HTy::Int => matches!(t, HTy::Int),
        HTy::Pair(s, s2) => match t {
            HTy::Pair(t, t2) => same_type(s, t) && same_type(s2, t2),
            HTy::Unit | HTy::Int | HTy::Sum(_, _) | HTy::List(_) => false,
        },
        HTy::Sum(s, s2) => match t {
            HTy::Sum(t, t2) => same_type(s, t) && same_type(s2, t2),
            HTy::Unit | HTy::Int | HTy::Pair(_, _) | HTy::List(_) => false,
        },
        HTy::List(s) => match t {
            HTy::List(t) => same_type(s, t),
            HTy::Unit | HTy::Int | HTy::Pair(_, _) | HTy::Sum(_, _) => false,
        },
    }
}

// The type of what is reckoned with two numbers.
fn type_of_op(alloc: Global, op: Op) -> Result<HTy, Memory>
    ensures { IfOk result (λ t. hist_type_of t ≡ type_of_op op) }
{
    match op {
        Op::Add | Op::Sub | Op::Mul | Op::Div => Ok(HTy::Int),
        Op::Less | Op::Same => sum(alloc, HTy::Unit, HTy::Unit),
    }
}

// The type of pairs.
fn pair(alloc: Global, s: HTy, t: HTy) -> Result<HTy, Memory>
    ensures { IfOk result (λ r. hist_type_of r ≡ pair_type (hist_type_of s) (hist_type_of t)) }
{
    Ok(HTy::Pair(Box::new(alloc, s)?, Box::new(alloc, t)?))
}

// The type of values of one of the two.
fn sum(alloc: Global, s: HTy, t: HTy) -> Result<HTy, Memory>
    ensures { IfOk result (λ r. hist_type_of r ≡ sum_type (hist_type_of s) (hist_type_of t)) }
{
    Ok(HTy::Sum(Box::new(alloc, s)?, Box::new(alloc, t)?))
}

// The type of lists.
fn list(alloc: Global, s: HTy) -> Result<HTy, Memory>
    ensures { IfOk result (λ r. hist_type_of r ≡ list_type (hist_type_of s)) }
{
    Ok(HTy::List(Box::new(alloc, s)?))
}
