//! Templates made of terms.

ghost use Rattle.std.specs.Prelude.{◌≡◌, map, List, IfOk};
ghost use Rattle.stream_type.specs.StreamType.{type_of};
ghost use Rattle.hist_value.specs.HistExpr.{expr_of};
ghost use Rattle.core_term.specs.CoreTerm.{CoreTerm, CoreTerms, past_term, par_term, cat_term, inl_term, inr_term, cons_term, let_term, let_par_term, let_cat_term, case_sum_term, case_star_term, wait_term, call_term, term_before, term_of, terms_from};
ghost use Rattle.template_state.specs.Readers.{op_term, shared_term, operand_terms};
ghost use Rattle.template_state.specs.Makes.{Makes, MakesBoth};

use crate::code::{Op, Operands};
use bunch::Name;
use core_term::{Node, Term};
use hist_value::{Expr, copy_expr};
use machine_parts::results::{added, boxed, pair};
use std::alloc::Global;
use std::rc::Rc;
use stream_type::{Memory, Ty};

/// The template of a term. Its only error is want of memory.
#[cycle(op)]
pub fn op(alloc: Global, n: &Node) -> Result<Rc<Op>, Memory>
    ensures { IfOk result (λ r. op_term r.value ≡ term_of n.now) }
{
    match &n.term {
        Term::Var(x) => made(alloc, Op::Var(*x)),
        Term::Eps => made(alloc, Op::Eps),
        Term::Unit => made(alloc, Op::Unit),
        Term::Past(m) => past_of(alloc, m),
        Term::Par(a, b) => par_of(alloc, both(alloc, a, b)),
        Term::Cat(a, b) => cat_of(alloc, both(alloc, a, b)),
        Term::Inl(a) => inl_of(alloc, op(alloc, a)),
        Term::Inr(a) => inr_of(alloc, op(alloc, a)),
        Term::Nil => made(alloc, Op::Nil),
        Term::Cons(a, b) => cons_of(alloc, both(alloc, a, b)),
        Term::Let(x, s, a, b) => let_of(alloc, *x, s, both(alloc, a, b)),
        Term::LetPar(x, y, z, a) => let_par_of(alloc, *x, *y, *z, op(alloc, a)),
        Term::LetCat(x, y, z, a) => let_cat_of(alloc, *x, *y, *z, op(alloc, a)),
        Term::CaseSum(z, t, x, a, y, b) => sum_of(alloc, *z, t, *x, *y, both(alloc, a, b)),
        Term::CaseStar(z, t, a, y, ys, b) => star_of(alloc, *z, t, *y, *ys, both(alloc, a, b)),
        Term::Wait(x, t, a) => wait_of(alloc, *x, t, op(alloc, a)),
        Term::Call(f, ms, es) => call_of(alloc, *f, ms, ops(alloc, es)),
    }
}

#[cycle(op)]
fn both(alloc: Global, a: &Node, b: &Node) -> Result<(Rc<Op>, Rc<Op>), Memory>
    ensures { MakesBoth shared_term result (term_of a.now) (term_of b.now) }
{
    pair(op(alloc, a), op(alloc, b))
}

#[cycle(op)]
fn ops(alloc: Global, nodes: &[Node]) -> Result<Vec<Rc<Op>>, Memory>
    ensures { IfOk result (λ r. map shared_term r.items ≡ map term_of nodes.now) }
{
    let mut made = Vec::new(alloc);
    for node in nodes {
        made = added(made, op(alloc, node))?;
    }
    Ok(made)
}

// A template of its own.
fn made(alloc: Global, form: Op) -> Result<Rc<Op>, Memory>
    ensures { Makes shared_term result (op_term form) }
{
    Ok(Rc::new(alloc, form)?)
}

fn past_of(alloc: Global, m: &Expr) -> Result<Rc<Op>, Memory>
    ensures { Makes shared_term result (past_term (expr_of m.now)) }
{
    match copy_expr(alloc, m) {
        Ok(m) => made(alloc, Op::Past(m)),
        Err(Memory) => Err(Memory),
    }
}

fn par_of(alloc: Global, parts: Result<(Rc<Op>, Rc<Op>), Memory>) -> Result<Rc<Op>, Memory>
    ensures { (a b : CoreTerm) → MakesBoth shared_term parts a b → Makes shared_term result (par_term a b) }
{
    match parts {
        Ok((a, b)) => made(alloc, Op::Par(a, b)),
        Err(Memory) => Err(Memory),
    }
}

fn cat_of(alloc: Global, parts: Result<(Rc<Op>, Rc<Op>), Memory>) -> Result<Rc<Op>, Memory>
    ensures { (a b : CoreTerm) → MakesBoth shared_term parts a b → Makes shared_term result (cat_term a b) }
{
    match parts {
        Ok((a, b)) => made(alloc, Op::Cat(a, b)),
        Err(Memory) => Err(Memory),
    }
}

fn cons_of(alloc: Global, parts: Result<(Rc<Op>, Rc<Op>), Memory>) -> Result<Rc<Op>, Memory>
    ensures { (a b : CoreTerm) → MakesBoth shared_term parts a b → Makes shared_term result (cons_term a b) }
{
    match parts {
        Ok((a, b)) => made(alloc, Op::Cons(a, b)),
        Err(Memory) => Err(Memory),
    }
}

fn inl_of(alloc: Global, part: Result<Rc<Op>, Memory>) -> Result<Rc<Op>, Memory>
    ensures { (a : CoreTerm) → Makes shared_term part a → Makes shared_term result (inl_term a) }
{
    match part {
        Ok(a) => made(alloc, Op::Inl(a)),
        Err(Memory) => Err(Memory),
    }
}

fn inr_of(alloc: Global, part: Result<Rc<Op>, Memory>) -> Result<Rc<Op>, Memory>
    ensures { (a : CoreTerm) → Makes shared_term part a → Makes shared_term result (inr_term a) }
{
    match part {
        Ok(a) => made(alloc, Op::Inr(a)),
        Err(Memory) => Err(Memory),
    }
}

fn let_of(
    alloc: Global,
    x: Name,
    t: &Ty,
    parts: Result<(Rc<Op>, Rc<Op>), Memory>,
) -> Result<Rc<Op>, Memory>
    ensures { (a b : CoreTerm) → MakesBoth shared_term parts a b → Makes shared_term result (let_term x.0 (type_of t.now) a b) }
{
    match pair(stream_type::copy(alloc, t), parts) {
        Ok((ty, (a, b))) => made(alloc, Op::Let(x, ty, a, b)),
        Err(Memory) => Err(Memory),
    }
}

fn let_par_of(
    alloc: Global,
    x: Name,
    y: Name,
    z: Name,
    part: Result<Rc<Op>, Memory>,
) -> Result<Rc<Op>, Memory>
    ensures { (a : CoreTerm) → Makes shared_term part a → Makes shared_term result (let_par_term x.0 y.0 z.0 a) }
{
    match part {
        Ok(a) => made(alloc, Op::LetPar(x, y, z, a)),
        Err(Memory) => Err(Memory),
    }
}

fn let_cat_of(
    alloc: Global,
    x: Name,
    y: Name,
    z: Name,
    part: Result<Rc<Op>, Memory>,
) -> Result<Rc<Op>, Memory>
    ensures { (a : CoreTerm) → Makes shared_term part a → Makes shared_term result (let_cat_term x.0 y.0 z.0 a) }
{
    match part {
        Ok(a) => made(alloc, Op::LetCat(x, y, z, a)),
        Err(Memory) => Err(Memory),
    }
}

fn sum_of(
    alloc: Global,
    z: Name,
    t: &Ty,
    x: Name,
    y: Name,
    parts: Result<(Rc<Op>, Rc<Op>), Memory>,
) -> Result<Rc<Op>, Memory>
    ensures { (a b : CoreTerm) → MakesBoth shared_term parts a b → Makes shared_term result (case_sum_term z.0 (type_of t.now) x.0 a y.0 b) }
{
    match pair(stream_type::copy(alloc, t), parts) {
        Ok((ty, (a, b))) => made(alloc, Op::CaseSum(z, ty, x, a, y, b)),
        Err(Memory) => Err(Memory),
    }
}

fn star_of(
    alloc: Global,
    z: Name,
    t: &Ty,
    y: Name,
    ys: Name,
    parts: Result<(Rc<Op>, Rc<Op>), Memory>,
) -> Result<Rc<Op>, Memory>
    ensures { (a b : CoreTerm) → MakesBoth shared_term parts a b → Makes shared_term result (case_star_term z.0 (type_of t.now) a y.0 ys.0 b) }
{
    match pair(stream_type::copy(alloc, t), parts) {
        Ok((ty, (a, b))) => made(alloc, Op::CaseStar(z, ty, a, y, ys, b)),
        Err(Memory) => Err(Memory),
    }
}

fn wait_of(alloc: Global, x: Name, t: &Ty, part: Result<Rc<Op>, Memory>) -> Result<Rc<Op>, Memory>
    ensures { (a : CoreTerm) → Makes shared_term part a → Makes shared_term result (wait_term x.0 (type_of t.now) a) }
{
    match pair(stream_type::copy(alloc, t), part) {
        Ok((ty, a)) => made(alloc, Op::Wait(x, ty, a)),
        Err(Memory) => Err(Memory),
    }
}

// A call of a function on these.
fn call_of(
    alloc: Global,
    f: u32,
    ms: &[Expr],
    parts: Result<Vec<Rc<Op>>, Memory>,
) -> Result<Rc<Op>, Memory>
    ensures { (es : List CoreTerm) → IfOk parts (λ v. map shared_term v.items ≡ es) → Makes shared_term result (call_term f (map expr_of ms.now) (terms_from es)) }
{
    match pair(copy_exprs(alloc, ms), arguments(alloc, parts)) {
        Ok((ms, es)) => made(alloc, Op::Call(f, ms, es)),
        Err(Memory) => Err(Memory),
    }
}

// Terms as the arguments of a call.
fn arguments(alloc: Global, parts: Result<Vec<Rc<Op>>, Memory>) -> Result<Box<Operands>, Memory>
    ensures { (es : List CoreTerm) → IfOk parts (λ v. map shared_term v.items ≡ es) → IfOk result (λ r. operand_terms r.value ≡ terms_from es) }
{
    match parts {
        Ok(all) => {
            let es = linked(alloc, &all);
            drop(all);
            es
        }
        Err(Memory) => Err(Memory),
    }
}

// Terms in a row as the arguments of a call.
fn linked(alloc: Global, all: &[Rc<Op>]) -> Result<Box<Operands>, Memory>
    ensures { IfOk result (λ r. operand_terms r.value ≡ terms_from (map shared_term all.now)) }
{
    match all.split_first() {
        None => boxed(alloc, Ok(Operands::None)),
        Some((first, rest)) => before(alloc, first, linked(alloc, rest)),
    }
}

// One term before others.
fn before(
    alloc: Global,
    first: &Rc<Op>,
    others: Result<Box<Operands>, Memory>,
) -> Result<Box<Operands>, Memory>
    ensures { (es : CoreTerms) → IfOk others (λ r. operand_terms r.value ≡ es) → IfOk result (λ r. operand_terms r.value ≡ term_before (shared_term first.now) es) }
{
    match others {
        Ok(others) => match first.clone() {
            Ok(one) => boxed(alloc, Ok(Operands::Before(one, others))),
            Err(_) => {
                drop(others);
                Err(Memory)
            }
        },
        Err(Memory) => Err(Memory),
    }
}

fn copy_exprs(alloc: Global, exprs: &[Expr]) -> Result<Vec<Expr>, Memory>
    ensures { IfOk result (λ r. map expr_of r.items ≡ map expr_of exprs.now) }
{
    let mut copies = Vec::new(alloc);
    for expr in exprs {
        copies = added(copies, copy_expr(alloc, expr))?;
    }
    Ok(copies)
}
