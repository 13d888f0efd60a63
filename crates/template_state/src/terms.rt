//! Terms made of templates.

ghost use Rattle.std.specs.Prelude.{◌≡◌, map, IfOk};
ghost use Rattle.stream_type.specs.StreamType.{type_of};
ghost use Rattle.hist_value.specs.HistExpr.{expr_of};
ghost use Rattle.core_term.specs.CoreTerm.{CoreTerm, CoreTerms, past_term, par_term, cat_term, inl_term, inr_term, cons_term, let_term, let_par_term, let_cat_term, case_sum_term, case_star_term, wait_term, call_term, term_before, term_of, term_in, terms_from};
ghost use Rattle.template_state.specs.Readers.{op_term, operand_terms};
ghost use Rattle.template_state.specs.Makes.{Makes, MakesBoth, boxed_term};

use crate::code::{Op, Operands};
use bunch::Name;
use core_term::{Node, Term};
use hist_value::{Expr, copy_expr};
use machine_parts::results::{added, in_front, pair};
use std::alloc::Global;
use stream_type::{Memory, Ty};

/// The term that the template stands for, as a tree of its own. A template has no places, so each node's
/// place is 0. Its only error is want of memory.
#[cycle(node)]
pub fn node(alloc: Global, op: &Op) -> Result<Box<Node>, Memory>
    ensures { IfOk result (λ r. term_of r.value ≡ op_term op.now) }
{
    match op {
        Op::Var(x) => placed(alloc, Term::Var(*x)),
        Op::Eps => placed(alloc, Term::Eps),
        Op::Unit => placed(alloc, Term::Unit),
        Op::Past(m) => past_of(alloc, m),
        Op::Par(a, b) => par_of(alloc, both(alloc, a, b)),
        Op::Cat(a, b) => cat_of(alloc, both(alloc, a, b)),
        Op::Inl(a) => inl_of(alloc, node(alloc, a)),
        Op::Inr(a) => inr_of(alloc, node(alloc, a)),
        Op::Nil => placed(alloc, Term::Nil),
        Op::Cons(a, b) => cons_of(alloc, both(alloc, a, b)),
        Op::Let(x, s, a, b) => let_of(alloc, *x, s, both(alloc, a, b)),
        Op::LetPar(x, y, z, a) => let_par_of(alloc, *x, *y, *z, node(alloc, a)),
        Op::LetCat(x, y, z, a) => let_cat_of(alloc, *x, *y, *z, node(alloc, a)),
        Op::CaseSum(z, t, x, a, y, b) => sum_of(alloc, *z, t, *x, *y, both(alloc, a, b)),
        Op::CaseStar(z, t, a, y, ys, b) => star_of(alloc, *z, t, *y, *ys, both(alloc, a, b)),
        Op::Wait(x, t, a) => wait_of(alloc, *x, t, node(alloc, a)),
        Op::Call(f, ms, es) => call_of(alloc, *f, ms, nodes(alloc, es)),
    }
}

// Both parts of a form.
#[cycle(node)]
fn both(alloc: Global, a: &Op, b: &Op) -> Result<(Box<Node>, Box<Node>), Memory>
    ensures { MakesBoth boxed_term result (op_term a.now) (op_term b.now) }
{
    pair(node(alloc, a), node(alloc, b))
}

// The arguments of a call.
#[cycle(node)]
fn nodes(alloc: Global, es: &Operands) -> Result<Vec<Node>, Memory>
    ensures { IfOk result (λ v. terms_from (map term_of v.items) ≡ operand_terms es.now) }
{
    match es {
        Operands::None => Ok(Vec::new(alloc)),
        Operands::Before(a, others) => one_more(node(alloc, a), nodes(alloc, others)),
    }
}

// One argument before others.
fn one_more(
    first: Result<Box<Node>, Memory>,
    others: Result<Vec<Node>, Memory>,
) -> Result<Vec<Node>, Memory>
    ensures { (a : CoreTerm) (es : CoreTerms) → Makes boxed_term first a → IfOk others (λ v. terms_from (map term_of v.items) ≡ es)
        → IfOk result (λ v. terms_from (map term_of v.items) ≡ term_before a es) }
{
    match pair(first, others) {
        Ok((first, others)) => in_front(Box::into_inner(first), others),
        Err(Memory) => Err(Memory),
    }
}

// A term without a place.
fn placed(alloc: Global, term: Term) -> Result<Box<Node>, Memory>
    ensures { Makes boxed_term result (term_in term) }
{
    Ok(Box::new(alloc, Node { at: 0, term })?)
}

// A whole stream.
fn past_of(alloc: Global, m: &Expr) -> Result<Box<Node>, Memory>
    ensures { Makes boxed_term result (past_term (expr_of m.now)) }
{
    match copy_expr(alloc, m) {
        Ok(m) => placed(alloc, Term::Past(m)),
        Err(Memory) => Err(Memory),
    }
}

fn par_of(alloc: Global, parts: Result<(Box<Node>, Box<Node>), Memory>) -> Result<Box<Node>, Memory>
    ensures { (a b : CoreTerm) → MakesBoth boxed_term parts a b → Makes boxed_term result (par_term a b) }
{
    match parts {
        Ok((a, b)) => placed(alloc, Term::Par(a, b)),
        Err(Memory) => Err(Memory),
    }
}

fn cat_of(alloc: Global, parts: Result<(Box<Node>, Box<Node>), Memory>) -> Result<Box<Node>, Memory>
    ensures { (a b : CoreTerm) → MakesBoth boxed_term parts a b → Makes boxed_term result (cat_term a b) }
{
    match parts {
        Ok((a, b)) => placed(alloc, Term::Cat(a, b)),
        Err(Memory) => Err(Memory),
    }
}

fn cons_of(
    alloc: Global,
    parts: Result<(Box<Node>, Box<Node>), Memory>,
) -> Result<Box<Node>, Memory>
    ensures { (a b : CoreTerm) → MakesBoth boxed_term parts a b → Makes boxed_term result (cons_term a b) }
{
    match parts {
        Ok((a, b)) => placed(alloc, Term::Cons(a, b)),
        Err(Memory) => Err(Memory),
    }
}

fn inl_of(alloc: Global, part: Result<Box<Node>, Memory>) -> Result<Box<Node>, Memory>
    ensures { (a : CoreTerm) → Makes boxed_term part a → Makes boxed_term result (inl_term a) }
{
    match part {
        Ok(a) => placed(alloc, Term::Inl(a)),
        Err(Memory) => Err(Memory),
    }
}

fn inr_of(alloc: Global, part: Result<Box<Node>, Memory>) -> Result<Box<Node>, Memory>
    ensures { (a : CoreTerm) → Makes boxed_term part a → Makes boxed_term result (inr_term a) }
{
    match part {
        Ok(a) => placed(alloc, Term::Inr(a)),
        Err(Memory) => Err(Memory),
    }
}

fn let_of(
    alloc: Global,
    x: Name,
    t: &Ty,
    parts: Result<(Box<Node>, Box<Node>), Memory>,
) -> Result<Box<Node>, Memory>
    ensures { (a b : CoreTerm) → MakesBoth boxed_term parts a b → Makes boxed_term result (let_term x.0 (type_of t.now) a b) }
{
    match pair(stream_type::copy(alloc, t), parts) {
        Ok((ty, (a, b))) => placed(alloc, Term::Let(x, ty, a, b)),
        Err(Memory) => Err(Memory),
    }
}

fn let_par_of(
    alloc: Global,
    x: Name,
    y: Name,
    z: Name,
    part: Result<Box<Node>, Memory>,
) -> Result<Box<Node>, Memory>
    ensures { (a : CoreTerm) → Makes boxed_term part a → Makes boxed_term result (let_par_term x.0 y.0 z.0 a) }
{
    match part {
        Ok(a) => placed(alloc, Term::LetPar(x, y, z, a)),
        Err(Memory) => Err(Memory),
    }
}

fn let_cat_of(
    alloc: Global,
    x: Name,
    y: Name,
    z: Name,
    part: Result<Box<Node>, Memory>,
) -> Result<Box<Node>, Memory>
    ensures { (a : CoreTerm) → Makes boxed_term part a → Makes boxed_term result (let_cat_term x.0 y.0 z.0 a) }
{
    match part {
        Ok(a) => placed(alloc, Term::LetCat(x, y, z, a)),
        Err(Memory) => Err(Memory),
    }
}

fn sum_of(
    alloc: Global,
    z: Name,
    t: &Ty,
    x: Name,
    y: Name,
    parts: Result<(Box<Node>, Box<Node>), Memory>,
) -> Result<Box<Node>, Memory>
    ensures { (a b : CoreTerm) → MakesBoth boxed_term parts a b → Makes boxed_term result (case_sum_term z.0 (type_of t.now) x.0 a y.0 b) }
{
    match pair(stream_type::copy(alloc, t), parts) {
        Ok((ty, (a, b))) => placed(alloc, Term::CaseSum(z, ty, x, a, y, b)),
        Err(Memory) => Err(Memory),
    }
}

fn star_of(
    alloc: Global,
    z: Name,
    t: &Ty,
    y: Name,
    ys: Name,
    parts: Result<(Box<Node>, Box<Node>), Memory>,
) -> Result<Box<Node>, Memory>
    ensures { (a b : CoreTerm) → MakesBoth boxed_term parts a b → Makes boxed_term result (case_star_term z.0 (type_of t.now) a y.0 ys.0 b) }
{
    match pair(stream_type::copy(alloc, t), parts) {
        Ok((ty, (a, b))) => placed(alloc, Term::CaseStar(z, ty, a, y, ys, b)),
        Err(Memory) => Err(Memory),
    }
}

fn wait_of(
    alloc: Global,
    x: Name,
    t: &Ty,
    part: Result<Box<Node>, Memory>,
) -> Result<Box<Node>, Memory>
    ensures { (a : CoreTerm) → Makes boxed_term part a → Makes boxed_term result (wait_term x.0 (type_of t.now) a) }
{
    match pair(stream_type::copy(alloc, t), part) {
        Ok((ty, a)) => placed(alloc, Term::Wait(x, ty, a)),
        Err(Memory) => Err(Memory),
    }
}

// A call of a function on these.
fn call_of(
    alloc: Global,
    f: u32,
    ms: &[Expr],
    parts: Result<Vec<Node>, Memory>,
) -> Result<Box<Node>, Memory>
    ensures { (es : CoreTerms) → IfOk parts (λ v. terms_from (map term_of v.items) ≡ es) → Makes boxed_term result (call_term f (map expr_of ms.now) es) }
{
    match pair(copy_exprs(alloc, ms), parts) {
        Ok((ms, es)) => placed(alloc, Term::Call(f, ms, es)),
        Err(Memory) => Err(Memory),
    }
}

// Equal historical expressions.
fn copy_exprs(alloc: Global, exprs: &[Expr]) -> Result<Vec<Expr>, Memory>
    ensures { IfOk result (λ r. map expr_of r.items ≡ map expr_of exprs.now) }
{
    let mut copies = Vec::new(alloc);
    for expr in exprs {
        copies = added(copies, copy_expr(alloc, expr))?;
    }
    Ok(copies)
}
