//! One more of a term, of a body and of a program.

ghost use Rattle.std.specs.Prelude.{◌≡◌, ◌∷◌, ◌++◌, map, string_bytes, IfOk};
ghost use Rattle.std.specs.List.{concat};
ghost use Rattle.stream_type.specs.StreamType.{type_of};
ghost use Rattle.hist_value.specs.HistExpr.{expr_of};
ghost use Rattle.core_term.specs.CoreTerm.{let_term, case_sum_term, case_star_term, wait_term, call_term, term_of, term_in, terms_from, places_of, places_in, typed_names_of, core_body_of, core_of, body_places, core_places};

use crate::program::{Body, Core};
use crate::term::{Node, Term};
use bunch::Name;
use hist_value::{Expr, copy_expr};
use std::alloc::Global;
use stream_type::{Memory, Ty};

/// An equal term at the same places. Its only error is want of memory.
#[cycle(copy)]
pub fn copy(alloc: Global, n: &Node) -> Result<Node, Memory>
    ensures term { IfOk result (λ r. term_of r ≡ term_of n.now) }
    ensures places { IfOk result (λ r. places_of r ≡ places_of n.now) }
{
    Ok(node(n.at, copy_term(alloc, &n.term)?))
}

// The term at the place.
fn node(at: u32, term: Term) -> Node
    ensures term { term_of result ≡ term_in term }
    ensures places { places_of result ≡ at ∷ places_in term }
{
    Node { at, term }
}

// An equal form.
#[cycle(copy)]
#[tactic(auto, using(crate::proofs::Rows::rows))]
fn copy_term(alloc: Global, t: &Term) -> Result<Term, Memory>
    ensures term { IfOk result (λ r. term_in r ≡ term_in t.now) }
    ensures places { IfOk result (λ r. places_in r ≡ places_in t.now) }
{
    match t {
        Term::Var(x) => Ok(Term::Var(*x)),
        Term::Eps => Ok(Term::Eps),
        Term::Unit => Ok(Term::Unit),
        Term::Past(m) => Ok(Term::Past(copy_expr(alloc, m)?)),
        Term::Par(a, b) => {
            let (a, b) = both(alloc, a, b)?;
            Ok(Term::Par(a, b))
        }
        Term::Cat(a, b) => {
            let (a, b) = both(alloc, a, b)?;
            Ok(Term::Cat(a, b))
        }
        Term::Inl(a) => Ok(Term::Inl(boxed(alloc, a)?)),
        Term::Inr(a) => Ok(Term::Inr(boxed(alloc, a)?)),
        Term::Nil => Ok(Term::Nil),
        Term::Cons(a, b) => {
            let (a, b) = both(alloc, a, b)?;
            Ok(Term::Cons(a, b))
        }
        Term::Let(x, s, a, b) => copy_let(alloc, *x, s, a, b),
        Term::LetPar(x, y, z, a) => Ok(Term::LetPar(*x, *y, *z, boxed(alloc, a)?)),
        Term::LetCat(x, y, z, a) => Ok(Term::LetCat(*x, *y, *z, boxed(alloc, a)?)),
        Term::CaseSum(z, t, x, a, y, b) => copy_case_sum(alloc, *z, t, *x, a, *y, b),
        Term::CaseStar(z, t, a, y, ys, b) => copy_case_star(alloc, *z, t, a, *y, *ys, b),
        Term::Wait(x, t, a) => copy_wait(alloc, *x, t, a),
        Term::Call(f, ms, es) => copy_call(alloc, es, ms, *f),
    }
}

#[cycle(copy)]
fn boxed(alloc: Global, n: &Node) -> Result<Box<Node>, Memory>
    ensures term { IfOk result (λ r. term_of r.value ≡ term_of n.now) }
    ensures places { IfOk result (λ r. places_of r.value ≡ places_of n.now) }
{
    Ok(Box::new(alloc, copy(alloc, n)?)?)
}

#[cycle(copy)]
fn both(alloc: Global, a: &Node, b: &Node) -> Result<(Box<Node>, Box<Node>), Memory>
    ensures first { IfOk result (λ r. term_of r.0.value ≡ term_of a.now) }
    ensures second { IfOk result (λ r. term_of r.1.value ≡ term_of b.now) }
    ensures first_places { IfOk result (λ r. places_of r.0.value ≡ places_of a.now) }
    ensures second_places { IfOk result (λ r. places_of r.1.value ≡ places_of b.now) }
{
    let first = boxed(alloc, a)?;
    Ok((first, boxed(alloc, b)?))
}

#[cycle(copy)]
fn copy_let(alloc: Global, x: Name, s: &Ty, a: &Node, b: &Node) -> Result<Term, Memory>
    ensures term { IfOk result (λ r. term_in r ≡ let_term x.0 (type_of s.now) (term_of a.now) (term_of b.now)) }
    ensures places { IfOk result (λ r. places_in r ≡ places_of a.now ++ places_of b.now) }
{
    let (a, b) = both(alloc, a, b)?;
    Ok(Term::Let(x, stream_type::copy(alloc, s)?, a, b))
}

#[cycle(copy)]
fn copy_case_sum(
    alloc: Global,
    z: Name,
    t: &Ty,
    x: Name,
    a: &Node,
    y: Name,
    b: &Node,
) -> Result<Term, Memory>
    ensures term { IfOk result (λ r. term_in r ≡ case_sum_term z.0 (type_of t.now) x.0 (term_of a.now) y.0 (term_of b.now)) }
    ensures places { IfOk result (λ r. places_in r ≡ places_of a.now ++ places_of b.now) }
{
    let (a, b) = both(alloc, a, b)?;
    Ok(Term::CaseSum(z, stream_type::copy(alloc, t)?, x, a, y, b))
}

#[cycle(copy)]
fn copy_case_star(
    alloc: Global,
    z: Name,
    t: &Ty,
    a: &Node,
    y: Name,
    ys: Name,
    b: &Node,
) -> Result<Term, Memory>
    ensures term { IfOk result (λ r. term_in r ≡ case_star_term z.0 (type_of t.now) (term_of a.now) y.0 ys.0 (term_of b.now)) }
    ensures places { IfOk result (λ r. places_in r ≡ places_of a.now ++ places_of b.now) }
{
    let (a, b) = both(alloc, a, b)?;
    Ok(Term::CaseStar(z, stream_type::copy(alloc, t)?, a, y, ys, b))
}

#[cycle(copy)]
fn copy_wait(alloc: Global, x: Name, t: &Ty, a: &Node) -> Result<Term, Memory>
    ensures term { IfOk result (λ r. term_in r ≡ wait_term x.0 (type_of t.now) (term_of a.now)) }
    ensures places { IfOk result (λ r. places_in r ≡ places_of a.now) }
{
    let a = boxed(alloc, a)?;
    Ok(Term::Wait(x, stream_type::copy(alloc, t)?, a))
}

#[cycle(copy)]
#[tactic(auto, using(crate::proofs::Rows::rows))]
fn copy_call(alloc: Global, es: &[Node], ms: &[Expr], f: u32) -> Result<Term, Memory>
    ensures term { IfOk result (λ r. term_in r ≡ call_term f (map expr_of ms.now) (terms_from (map term_of es.now))) }
    ensures places { IfOk result (λ r. places_in r ≡ concat (map places_of es.now)) }
{
    let es = copy_all(alloc, es)?;
    Ok(Term::Call(f, copy_exprs(alloc, ms)?, es))
}

#[cycle(copy)]
fn copy_all(alloc: Global, nodes: &[Node]) -> Result<Vec<Node>, Memory>
    ensures terms { IfOk result (λ r. map term_of r.items ≡ map term_of nodes.now) }
    ensures places { IfOk result (λ r. map places_of r.items ≡ map places_of nodes.now) }
{
    let mut copies = Vec::new(alloc);
    for node in nodes {
        copies.push(copy(alloc, node)?)?;
    }
    Ok(copies)
}

fn copy_exprs(alloc: Global, exprs: &[Expr]) -> Result<Vec<Expr>, Memory>
    ensures { IfOk result (λ r. map expr_of r.items ≡ map expr_of exprs.now) }
{
    let mut copies = Vec::new(alloc);
    for expr in exprs {
        copies.push(copy_expr(alloc, expr)?)?;
    }
    Ok(copies)
}

/// An equal program at the same places. Its only error is want of memory.
pub fn copy_core(alloc: Global, c: &Core) -> Result<Core, Memory>
    ensures program { IfOk result (λ r. core_of r ≡ core_of c.now) }
    ensures places { IfOk result (λ r. core_places r ≡ core_places c.now) }
{
    let texts = copy_texts(alloc, &c.texts)?;
    let funs = copy_bodies(alloc, &c.funs)?;
    Ok(Core {
        funs,
        main: copy_body(alloc, &c.main)?,
        texts,
    })
}

fn copy_bodies(alloc: Global, bodies: &[Body]) -> Result<Vec<Body>, Memory>
    ensures bodies { IfOk result (λ r. map core_body_of r.items ≡ map core_body_of bodies.now) }
    ensures places { IfOk result (λ r. map body_places r.items ≡ map body_places bodies.now) }
{
    let mut copies = Vec::new(alloc);
    for body in bodies {
        copies.push(copy_body(alloc, body)?)?;
    }
    Ok(copies)
}

fn copy_body(alloc: Global, b: &Body) -> Result<Body, Memory>
    ensures body { IfOk result (λ r. core_body_of r ≡ core_body_of b.now) }
    ensures places { IfOk result (λ r. body_places r ≡ body_places b.now) }
{
    Ok(Body {
        past: copy_past(alloc, &b.past)?,
        params: bunch::copy(alloc, &b.params)?,
        result: stream_type::copy(alloc, &b.result)?,
        body: copy(alloc, &b.body)?,
    })
}

/// Names with their types, once more. Its only error is want of memory.
pub fn copy_past(alloc: Global, past: &[(Name, Ty)]) -> Result<Vec<(Name, Ty)>, Memory>
    ensures { IfOk result (λ r. typed_names_of r.items ≡ typed_names_of past.now) }
{
    let mut copies = Vec::new(alloc);
    for (x, t) in past {
        copies.push((*x, stream_type::copy(alloc, t)?))?;
    }
    Ok(copies)
}

/// The texts of a program's names, once more. Its only error is want of memory.
pub fn copy_texts(alloc: Global, texts: &[String]) -> Result<Vec<String>, Memory>
    ensures { IfOk result (λ r. map string_bytes r.items ≡ map string_bytes texts.now) }
{
    let mut copies = Vec::new(alloc);
    for text in texts {
        copies.push(String::from_str(alloc, text)?)?;
    }
    Ok(copies)
}
