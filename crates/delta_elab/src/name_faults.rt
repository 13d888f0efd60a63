//! The first thing that is wrong with the names and the types of an expression.

ghost use Rattle.std.specs.Prelude.{map};
ghost use Rattle.hist_value.specs.HistExpr.{expr_of};
ghost use Rattle.delta_tree.specs.Tree.{hist_of, expression_of, head_of, expressions_of, declaration_of};
ghost use Rattle.delta_meaning.specs.KnownTypes.{names_known};
ghost use Rattle.delta_meaning.specs.Faults.{expr_faults, exprs_faults, faults_in, head_faults, argument_faults, unless, unbound, no_function};
ghost use Rattle.delta_elab.specs.Bounds.{bound_in, is_declared};
ghost use Rattle.delta_elab.specs.FirstFault.{Says};

use crate::bound::{Bound, is_bound, is_function};
use crate::fault::ElabFault;
use crate::type_faults::check_type;
use bunch::Name;
use delta_tree::{Decl, Exp, Form, Head, HeadForm, Hist};
use hist_value::Expr;
use stream_type::Ty;

/// What is known where an expression stands: all functions that are declared, and the types that are
/// declared above.
#[derive(Clone, Copy)]
pub struct Known<'a> {
    /// The declarations of the program.
    pub decls: &'a [Decl],
    /// The names of types, with their types; of two with one name the last counts.
    pub types: &'a [(Name, Ty)],
}

/// What is wrong with an expression first: `faults_in` in the specs of delta_meaning.
#[cycle(check)]
#[tactic(auto, using(crate::proofs::Firsts::firsts, delta_tree::proofs::Rows::rows))]
pub fn check_expression<'a>(
    known: &Known<'_>,
    e: &Exp,
    bound: &'a Bound<'a>,
) -> Result<(), ElabFault>
    ensures { Says result (faults_in (is_declared (map declaration_of known.now.decls.now)) (names_known known.now.types.now) (expression_of e.now) (bound_in bound.now)) }
{
    match &*e.form {
        Form::Var(x) => check_name(*x, e.at, bound),
        Form::Eps | Form::Unit | Form::Nil => Ok(()),
        Form::Past(m) => check_history(m.at, &m.expr, bound),
        Form::Par(a, b) | Form::Cat(a, b) | Form::Cons(a, b) => {
            check_expression(known, a, bound)?;
            check_expression(known, b, bound)
        }
        Form::Inl(a) | Form::Inr(a) => check_expression(known, a, bound),
        Form::Asc(a, t) => {
            check_expression(known, a, bound)?;
            check_type(known.types, t)
        }
        Form::Let(x, h, a) => {
            check_head(known, h, bound)?;
            check_expression(known, a, &Bound::Name(*x, &*bound))
        }
        Form::LetPar(x, y, h, a) | Form::LetCat(x, y, h, a) => {
            check_head(known, h, bound)?;
            check_expression(known, a, &Bound::Name(*y, &Bound::Name(*x, &*bound)))
        }
        Form::CaseSum(h, x, a, y, b) => {
            check_head(known, h, bound)?;
            check_expression(known, a, &Bound::Name(*x, &*bound))?;
            check_expression(known, b, &Bound::Name(*y, &*bound))
        }
        Form::CaseStar(h, a, y, ys, b) => {
            check_head(known, h, bound)?;
            check_expression(known, a, bound)?;
            check_expression(known, b, &Bound::Name(*ys, &Bound::Name(*y, &*bound)))
        }
        Form::Wait(x, a) => {
            check_name(*x, e.at, bound)?;
            check_expression(known, a, bound)
        }
        Form::If(m, a, b) => {
            check_history(m.at, &m.expr, bound)?;
            check_expression(known, a, bound)?;
            check_expression(known, b, bound)
        }
        Form::Call(f, past, arguments) => {
            check_function(known, *f, e.at)?;
            check_histories(past, bound)?;
            check_arguments(known, arguments, bound)
        }
    }
}

// What is wrong with a head first.
#[cycle(check)]
#[tactic(auto, using(crate::proofs::Firsts::firsts, delta_tree::proofs::Rows::rows))]
fn check_head<'a>(known: &Known<'_>, h: &Head, bound: &'a Bound<'a>) -> Result<(), ElabFault>
    ensures { Says result (head_faults (is_declared (map declaration_of known.now.decls.now)) (names_known known.now.types.now) (head_of h.now) (bound_in bound.now)) }
{
    match &*h.form {
        HeadForm::Var(x) => check_name(*x, h.at, bound),
        HeadForm::Call(f, past, arguments) => {
            check_function(known, *f, h.at)?;
            check_histories(past, bound)?;
            check_arguments(known, arguments, bound)
        }
        HeadForm::Asc(a, t) => {
            check_expression(known, a, bound)?;
            check_type(known.types, t)
        }
    }
}

// What is wrong with arguments first.
#[cycle(check)]
#[tactic(auto, using(crate::proofs::Firsts::firsts))]
fn check_arguments<'a>(
    known: &Known<'_>,
    arguments: &[Exp],
    bound: &'a Bound<'a>,
) -> Result<(), ElabFault>
    ensures { Says result (argument_faults (is_declared (map declaration_of known.now.decls.now)) (names_known known.now.types.now) (expressions_of arguments.now) (bound_in bound.now)) }
{
    for argument in arguments {
        check_expression(known, argument, bound)?;
    }
    Ok(())
}

// Whether the name, which stands at the place, is bound.
fn check_name(x: Name, at: u32, bound: &Bound<'_>) -> Result<(), ElabFault>
    ensures { Says result (unless (bound_in bound.now x.0) (unbound x.0 at)) }
{
    if is_bound(bound, x) {
        return Ok(());
    }
    Err(ElabFault::Unbound(x, at))
}

// Whether the function, whose call stands at the place, is there.
fn check_function(known: &Known<'_>, f: Name, at: u32) -> Result<(), ElabFault>
    ensures { Says result (unless (is_declared (map declaration_of known.now.decls.now) f.0) (no_function f.0 at)) }
{
    if is_function(known.decls, f) {
        return Ok(());
    }
    Err(ElabFault::NoFunction(f, at))
}

// The first name of a historical expression, which stands at the place, that isn't bound.
#[tactic(auto, using(crate::proofs::Firsts::firsts))]
fn check_history<'a>(at: u32, m: &Expr, bound: &'a Bound<'a>) -> Result<(), ElabFault>
    ensures { Says result (expr_faults at (expr_of m.now) (bound_in bound.now)) }
{
    match m {
        Expr::Var(x) => check_name(*x, at, bound),
        Expr::Lit(_) | Expr::Unit | Expr::Nil => Ok(()),
        Expr::Bin(_, a, b) | Expr::Pair(a, b) | Expr::Cons(a, b) => {
            check_history(at, a, bound)?;
            check_history(at, b, bound)
        }
        Expr::Fst(a) | Expr::Snd(a) | Expr::Inl(a) | Expr::Inr(a) => check_history(at, a, bound),
        Expr::Choose(a, x, b, y, c) => {
            check_history(at, a, bound)?;
            check_history(at, b, &Bound::Name(*x, &*bound))?;
            check_history(at, c, &Bound::Name(*y, &*bound))
        }
        Expr::Fold(a, s, x, y, b) => {
            check_history(at, a, bound)?;
            check_history(at, s, bound)?;
            check_history(at, b, &Bound::Name(*y, &Bound::Name(*x, &*bound)))
        }
    }
}

// The same of historical arguments, each at its own place.
#[tactic(auto, using(crate::proofs::Firsts::firsts))]
fn check_histories<'a>(past: &[Hist], bound: &'a Bound<'a>) -> Result<(), ElabFault>
    ensures { Says result (exprs_faults (map hist_of past.now) (bound_in bound.now)) }
{
    for m in past {
        check_history(m.at, &m.expr, bound)?;
    }
    Ok(())
}
