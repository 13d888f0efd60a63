//! Historical expressions with numbers for their names.

ghost use Rattle.std.specs.Prelude.{◌≡◌, ◌+◌, ◌++◌, length, map, IfOk, OnOk};
ghost use Rattle.hist_value.specs.HistExpr.{expr_of, choice, fold_expr};
ghost use Rattle.delta_tree.specs.Tree.{hist_of};
ghost use Rattle.delta_meaning.specs.NewNames.{new_in_expr, new_in_exprs};
ghost use Rattle.delta_meaning.specs.Elaboration.{numbered_expr, numbered_exprs};
ghost use Rattle.delta_elab.specs.Numbering.{origins_of, numbers_in};

use crate::numbering::named;
use crate::scope::{Scope, number_of};
use bunch::Name;
use delta_tree::Hist;
use hist_value::Expr;
use std::alloc::Global;
use stream_type::Memory;

/// The expression with the numbers of its names, where those that it binds are numbered from the next
/// number on: `numbered_expr` in the specs of delta_meaning. Its only error is want of memory.
#[cycle(numbered)]
#[tactic(auto, using(crate::proofs::Origins::origin_lists))]
pub fn numbered<'a>(
    alloc: Global,
    m: &Expr,
    scope: &'a Scope<'a>,
    origins: &mut Vec<Option<Name>>,
) -> Result<Box<Expr>, Memory>
    ensures expr { IfOk result (λ r. expr_of r.value ≡ numbered_expr (expr_of m.now) (numbers_in scope.now) (length (origins_of origins.old.items))) }
    ensures next { OnOk result (origins_of origins.new.items ≡ origins_of origins.old.items ++ new_in_expr (expr_of m.now)) }
{
    match m {
        Expr::Var(x) => boxed(alloc, Expr::Var(number_of(scope, *x))),
        Expr::Lit(n) => boxed(alloc, Expr::Lit(*n)),
        Expr::Unit => boxed(alloc, Expr::Unit),
        Expr::Bin(op, a, b) => {
            let (a, b) = both(alloc, a, b, scope, origins)?;
            boxed(alloc, Expr::Bin(*op, a, b))
        }
        Expr::Pair(a, b) => {
            let (a, b) = both(alloc, a, b, scope, origins)?;
            boxed(alloc, Expr::Pair(a, b))
        }
        Expr::Fst(a) => boxed(alloc, Expr::Fst(numbered(alloc, a, scope, origins)?)),
        Expr::Snd(a) => boxed(alloc, Expr::Snd(numbered(alloc, a, scope, origins)?)),
        Expr::Inl(a) => boxed(alloc, Expr::Inl(numbered(alloc, a, scope, origins)?)),
        Expr::Inr(a) => boxed(alloc, Expr::Inr(numbered(alloc, a, scope, origins)?)),
        Expr::Choose(a, x, b, y, c) => choice(alloc, a, *x, b, *y, c, scope, origins),
        Expr::Nil => boxed(alloc, Expr::Nil),
        Expr::Cons(a, b) => {
            let (a, b) = both(alloc, a, b, scope, origins)?;
            boxed(alloc, Expr::Cons(a, b))
        }
        Expr::Fold(a, s, x, y, b) => fold(alloc, a, s, *x, *y, b, scope, origins),
    }
}

// The expression in a box.
fn boxed(alloc: Global, m: Expr) -> Result<Box<Expr>, Memory>
    ensures { IfOk result (λ r. expr_of r.value ≡ expr_of m) }
{
    Ok(Box::new(alloc, m)?)
}

// Two expressions, one after the other.
#[cycle(numbered)]
#[tactic(auto, using(crate::proofs::Origins::origin_lists))]
fn both<'a>(
    alloc: Global,
    a: &Expr,
    b: &Expr,
    scope: &'a Scope<'a>,
    origins: &mut Vec<Option<Name>>,
) -> Result<(Box<Expr>, Box<Expr>), Memory>
    ensures left { IfOk result (λ r. expr_of r.0.value ≡ numbered_expr (expr_of a.now) (numbers_in scope.now) (length (origins_of origins.old.items))) }
    ensures right { IfOk result (λ r. expr_of r.1.value ≡ numbered_expr (expr_of b.now) (numbers_in scope.now) (length (origins_of origins.old.items) + length (new_in_expr (expr_of a.now)))) }
    ensures next { OnOk result (origins_of origins.new.items ≡ origins_of origins.old.items ++ (new_in_expr (expr_of a.now) ++ new_in_expr (expr_of b.now))) }
{
    let a = numbered(alloc, a, scope, origins)?;
    Ok((a, numbered(alloc, b, scope, origins)?))
}

// A choice between two expressions, each with a name of its own.
#[cycle(numbered)]
#[tactic(auto, using(crate::proofs::Origins::origin_lists))]
fn choice<'a>(
    alloc: Global,
    a: &Expr,
    x: Name,
    b: &Expr,
    y: Name,
    c: &Expr,
    scope: &'a Scope<'a>,
    origins: &mut Vec<Option<Name>>,
) -> Result<Box<Expr>, Memory>
    ensures expr { IfOk result (λ r. expr_of r.value ≡ numbered_expr (choice (expr_of a.now) x.0 (expr_of b.now) y.0 (expr_of c.now)) (numbers_in scope.now) (length (origins_of origins.old.items))) }
    ensures next { OnOk result (origins_of origins.new.items ≡ origins_of origins.old.items ++ new_in_expr (choice (expr_of a.now) x.0 (expr_of b.now) y.0 (expr_of c.now))) }
{
    let a = numbered(alloc, a, scope, origins)?;
    let i = named(x, origins)?;
    let b = numbered(alloc, b, &Scope::Value(x, i, &*scope), origins)?;
    let j = named(y, origins)?;
    let c = numbered(alloc, c, &Scope::Value(y, j, &*scope), origins)?;
    boxed(alloc, Expr::Choose(a, i, b, j, c))
}

// A fold, whose step has two names.
#[cycle(numbered)]
#[tactic(auto, using(crate::proofs::Origins::origin_lists))]
fn fold<'a>(
    alloc: Global,
    a: &Expr,
    s: &Expr,
    x: Name,
    y: Name,
    b: &Expr,
    scope: &'a Scope<'a>,
    origins: &mut Vec<Option<Name>>,
) -> Result<Box<Expr>, Memory>
    ensures expr { IfOk result (λ r. expr_of r.value ≡ numbered_expr (fold_expr (expr_of a.now) (expr_of s.now) x.0 y.0 (expr_of b.now)) (numbers_in scope.now) (length (origins_of origins.old.items))) }
    ensures next { OnOk result (origins_of origins.new.items ≡ origins_of origins.old.items ++ new_in_expr (fold_expr (expr_of a.now) (expr_of s.now) x.0 y.0 (expr_of b.now))) }
{
    let (a, s) = both(alloc, a, s, scope, origins)?;
    let i = named(x, origins)?;
    let j = named(y, origins)?;
    let inner = Scope::Value(x, i, &*scope);
    let b = numbered(alloc, b, &Scope::Value(y, j, &inner), origins)?;
    boxed(alloc, Expr::Fold(a, s, i, j, b))
}

/// Historical arguments with the numbers of their names, in turn. Its only error is want of memory.
#[tactic(auto, using(crate::proofs::Origins::origin_lists))]
pub fn all_numbered<'a>(
    alloc: Global,
    past: &[Hist],
    scope: &'a Scope<'a>,
    origins: &mut Vec<Option<Name>>,
) -> Result<Vec<Expr>, Memory>
    ensures exprs { IfOk result (λ r. map expr_of r.items ≡ numbered_exprs (map hist_of past.now) (numbers_in scope.now) (length (origins_of origins.old.items))) }
    ensures next { OnOk result (origins_of origins.new.items ≡ origins_of origins.old.items ++ new_in_exprs (map hist_of past.now)) }
{
    let mut exprs = Vec::new(alloc);
    for m in past {
        exprs.push(Box::into_inner(numbered(alloc, &m.expr, scope, origins)?))?;
    }
    Ok(exprs)
}
