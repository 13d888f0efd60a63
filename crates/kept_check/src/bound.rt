//! The names that terms and historical expressions bind.

ghost use Rattle.std.specs.Prelude.{◌≡◌, ◌++◌, map, OnOk};
ghost use Rattle.bunch.specs.Names.{numbers_of};
ghost use Rattle.hist_value.specs.HistExpr.{expr_of};
ghost use Rattle.core_term.specs.CoreTerm.{term_of, terms_from};
ghost use Rattle.core_term.specs.FreeNames.{bound_in_expr, bound_in_exprs, bound_names, bound_in_terms};

use bunch::Name;
use core_term::{Node, Term};
use hist_value::Expr;
use stream_type::Memory;

/// Adds these names. Its only error is want of memory.
#[tactic(auto, using(crate::proofs::NameLists::name_lists))]
pub fn add_names(names: &[Name], found: &mut Vec<Name>) -> Result<(), Memory>
    ensures { OnOk result (numbers_of found.new.items ≡ numbers_of found.old.items ++ numbers_of names.now) }
{
    found.extend_from_slice(names)?;
    Ok(())
}

// Adds the names that a term binds, in the order of reading: `bound_names` in the specs of core_term.
#[cycle(bound)]
#[tactic(auto, using(crate::proofs::NameLists::name_lists))]
fn add_bound(n: &Node, found: &mut Vec<Name>) -> Result<(), Memory>
    ensures { OnOk result (numbers_of found.new.items ≡ numbers_of found.old.items ++ bound_names (term_of n.now)) }
{
    match &n.term {
        Term::Var(_) | Term::Eps | Term::Unit | Term::Nil => Ok(()),
        Term::Past(m) => add_bound_in_expr(m, found),
        Term::Par(a, b) | Term::Cat(a, b) | Term::Cons(a, b) => add_parts(&[], a, &[], b, found),
        Term::Inl(a) | Term::Inr(a) | Term::Wait(_, _, a) => add_bound(a, found),
        Term::Let(x, _, a, b) => add_parts(&[*x], a, &[], b, found),
        Term::LetPar(x, y, _, a) | Term::LetCat(x, y, _, a) => add_behind(&[*x, *y], a, found),
        Term::CaseSum(_, _, x, a, y, b) => add_parts(&[*x], a, &[*y], b, found),
        Term::CaseStar(_, _, a, y, ys, b) => add_parts(&[], a, &[*y, *ys], b, found),
        Term::Call(_, past, arguments) => add_of_call(arguments, past, found),
    }
}

/// Adds names, and behind them those that a term binds. Its only error is want of memory.
#[cycle(bound)]
#[tactic(auto, using(crate::proofs::NameLists::name_lists))]
pub fn add_behind(first: &[Name], a: &Node, found: &mut Vec<Name>) -> Result<(), Memory>
    ensures { OnOk result (numbers_of found.new.items ≡ numbers_of found.old.items ++ (numbers_of first.now ++ bound_names (term_of a.now))) }
{
    match add_names(first, found) {
        Ok(()) => add_bound(a, found),
        Err(_) => Err(Memory),
    }
}

/// The same twice. Its only error is want of memory.
#[cycle(bound)]
#[tactic(auto, using(crate::proofs::NameLists::name_lists))]
pub fn add_parts(
    first: &[Name],
    a: &Node,
    then: &[Name],
    b: &Node,
    found: &mut Vec<Name>,
) -> Result<(), Memory>
    ensures { OnOk result (numbers_of found.new.items
        ≡ numbers_of found.old.items ++ ((numbers_of first.now ++ bound_names (term_of a.now)) ++ (numbers_of then.now ++ bound_names (term_of b.now)))) }
{
    match add_behind(first, a, found) {
        Ok(()) => add_behind(then, b, found),
        Err(_) => Err(Memory),
    }
}

// Adds the names that a call's historical expressions bind, and those of its arguments.
#[cycle(bound)]
#[tactic(auto, using(crate::proofs::NameLists::name_lists))]
fn add_of_call(arguments: &[Node], past: &[Expr], found: &mut Vec<Name>) -> Result<(), Memory>
    ensures { OnOk result (numbers_of found.new.items
        ≡ numbers_of found.old.items ++ (bound_in_exprs (map expr_of past.now) ++ bound_in_terms (terms_from (map term_of arguments.now)))) }
{
    add_bound_in_exprs(past, found)?;
    for term in arguments {
        add_bound(term, found)?;
    }
    Ok(())
}

// Adds the names that historical expressions bind, in turn.
#[tactic(auto, using(crate::proofs::NameLists::name_lists))]
fn add_bound_in_exprs(exprs: &[Expr], found: &mut Vec<Name>) -> Result<(), Memory>
    ensures { OnOk result (numbers_of found.new.items ≡ numbers_of found.old.items ++ bound_in_exprs (map expr_of exprs.now)) }
{
    for expr in exprs {
        add_bound_in_expr(expr, found)?;
    }
    Ok(())
}

// Those of a historical expression.
#[cycle(bound_in_expr)]
#[tactic(auto, using(crate::proofs::NameLists::name_lists))]
fn add_bound_in_expr(m: &Expr, found: &mut Vec<Name>) -> Result<(), Memory>
    ensures { OnOk result (numbers_of found.new.items ≡ numbers_of found.old.items ++ bound_in_expr (expr_of m.now)) }
{
    match m {
        Expr::Var(_) | Expr::Lit(_) | Expr::Unit | Expr::Nil => Ok(()),
        Expr::Bin(_, a, b) | Expr::Pair(a, b) | Expr::Cons(a, b) => add_of_two(a, &[], b, found),
        Expr::Fst(a) | Expr::Snd(a) | Expr::Inl(a) | Expr::Inr(a) => add_bound_in_expr(a, found),
        Expr::Choose(a, x, b, y, c) => add_of_three(a, &[*x], b, &[*y], c, found),
        Expr::Fold(a, s, x, y, b) => add_of_three(a, &[], s, &[*x, *y], b, found),
    }
}

// Those of one, names, and those of another.
#[cycle(bound_in_expr)]
#[tactic(auto, using(crate::proofs::NameLists::name_lists))]
fn add_of_two(a: &Expr, first: &[Name], b: &Expr, found: &mut Vec<Name>) -> Result<(), Memory>
    ensures { OnOk result (numbers_of found.new.items ≡ numbers_of found.old.items ++ (bound_in_expr (expr_of a.now) ++ (numbers_of first.now ++ bound_in_expr (expr_of b.now)))) }
{
    add_bound_in_expr(a, found)?;
    found.extend_from_slice(first)?;
    add_bound_in_expr(b, found)
}

// The same, and behind them names and those of a third.
#[cycle(bound_in_expr)]
#[tactic(auto, using(crate::proofs::NameLists::name_lists))]
fn add_of_three(
    a: &Expr,
    first: &[Name],
    b: &Expr,
    then: &[Name],
    c: &Expr,
    found: &mut Vec<Name>,
) -> Result<(), Memory>
    ensures { OnOk result (numbers_of found.new.items
        ≡ numbers_of found.old.items ++ (bound_in_expr (expr_of a.now) ++ ((numbers_of first.now ++ bound_in_expr (expr_of b.now)) ++ (numbers_of then.now ++ bound_in_expr (expr_of c.now))))) }
{
    add_of_two(a, first, b, found)?;
    found.extend_from_slice(then)?;
    add_bound_in_expr(c, found)
}
