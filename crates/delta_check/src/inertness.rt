//! Which terms are inert, and which functions: they give the empty prefix on empty input.

ghost use Rattle.std.specs.Prelude.{◌≡◌, ℕ, map, length, false, slice_index_or, replicate, true, IfOk};
ghost use Rattle.stream_type.specs.StreamType.{type_of, eps};
ghost use Rattle.bunch.specs.BunchTree.{tree_of};
ghost use Rattle.hist_value.specs.HistExpr.{expr_of};
ghost use Rattle.core_term.specs.CoreTerm.{term_of, terms_from, core_of, fun_at, leaf_types, call_term};
ghost use Rattle.core_term.specs.Inert.{is_inert, are_inert, is_inert_fun};
ghost use Rattle.delta_check.specs.Counting.{counts_in, IsRound};

use crate::params::{has_arity, type_at};
use bunch::Bunch;
use core_term::{Core, Node, Term, body_of};
use hist_value::Expr;
use std::alloc::Global;
use stream_type::{Memory, Ty, null};

/// Whether the term is inert at the type `r`, where the functions with a true mark count as inert
/// and one past the end of `funs` doesn't: `is_inert` in the specs of core_term.
pub fn inert(c: &Core, n: &Node, r: &Ty, funs: &[bool]) -> bool
    ensures { result ≡ is_inert (fun_at (core_of c.now).funs) (counts_in (core_of c.now).funs funs.now) (term_of n.now) (type_of r.now) }
{
    is_still(n, r, c, funs)
}

/// For each function whether it is inert: `is_inert_fun` in the specs of core_term. All begin as
/// inert, and as often as there are functions those stay whose body is, with the others that stayed
/// counted as inert. Its only error is want of memory.
pub fn inert_funs(alloc: Global, c: &Core) -> Result<Vec<bool>, Memory>
    ensures number { IfOk result (λ v. length v.items ≡ length (core_of c.now).funs) }
    ensures inert { IfOk result (λ v. (f : ℕ) → counts_in (core_of c.now).funs v.items f ≡ is_inert_fun (core_of c.now).funs f) }
{
    let mut marks = all_marked(alloc, c)?;
    for _round in 0..c.funs.len() {
        marks = next_round(alloc, c, &marks)?;
    }
    Ok(marks)
}

// A true mark for each function.
fn all_marked(alloc: Global, c: &Core) -> Result<Vec<bool>, Memory>
    ensures { IfOk result (λ v. v.items ≡ replicate (length (core_of c.now).funs) true) }
{
    Ok(vec![in alloc; true; c.funs.len()]?)
}

// The marks after one more round.
fn next_round(alloc: Global, c: &Core, marks: &[bool]) -> Result<Vec<bool>, Memory>
    ensures { IfOk result (λ v. IsRound (core_of c.now).funs marks.now v.items) }
{
    let mut kept = Vec::new(alloc);
    for (f, b) in c.funs.iter().enumerate() {
        kept.push(is_marked(marks, f) && inert(c, &b.body, &b.result, marks))?;
    }
    Ok(kept)
}

// Whether the term is inert at the type.
#[cycle(inert)]
#[tactic(auto, using(core_term::proofs::Rows::rows))]
fn is_still(n: &Node, r: &Ty, c: &Core, funs: &[bool]) -> bool
    ensures { result ≡ is_inert (fun_at (core_of c.now).funs) (counts_in (core_of c.now).funs funs.now) (term_of n.now) (type_of r.now) }
{
    match &n.term {
        Term::Var(_)
        | Term::Eps
        | Term::CaseSum(_, _, _, _, _, _)
        | Term::CaseStar(_, _, _, _, _, _)
        | Term::Wait(_, _, _) => true,
        Term::Unit | Term::Nil | Term::Cons(_, _) | Term::Inl(_) | Term::Inr(_) => false,
        Term::Past(_) => null(r),
        Term::Par(a, b) => match r {
            Ty::Par(s, t) => is_still(a, s, c, funs) && is_still(b, t, c, funs),
            Ty::Eps | Ty::One | Ty::Int | Ty::Cat(_, _) | Ty::Sum(_, _) | Ty::Star(_) => {
                is_still(a, &Ty::Eps, c, funs) && is_still(b, &Ty::Eps, c, funs)
            }
        },
        Term::Cat(a, _) => match r {
            Ty::Cat(s, _) => is_still(a, s, c, funs) && !null(s),
            Ty::Eps | Ty::One | Ty::Int | Ty::Par(_, _) | Ty::Sum(_, _) | Ty::Star(_) => false,
        },
        Term::Let(_, s, a, b) => is_still(a, s, c, funs) && is_still(b, r, c, funs),
        Term::LetPar(_, _, _, a) | Term::LetCat(_, _, _, a) => is_still(a, r, c, funs),
        Term::Call(f, past, arguments) => is_still_call(arguments, past, *f, c, funs),
    }
}

// Whether a call of the function is inert.
#[cycle(inert)]
fn is_still_call(arguments: &[Node], past: &[Expr], f: u32, c: &Core, funs: &[bool]) -> bool
    ensures { result ≡ is_inert (fun_at (core_of c.now).funs) (counts_in (core_of c.now).funs funs.now) (call_term f (map expr_of past.now) (terms_from (map term_of arguments.now))) eps }
{
    match body_of(c, f) {
        None => false,
        Some(b) => {
            is_marked(funs, f as usize)
                && has_arity(b, past, arguments)
                && are_still(arguments, &b.params, c, funs)
        }
    }
}

// Whether the function has a true mark.
fn is_marked(funs: &[bool], f: usize) -> bool
    ensures { result ≡ slice_index_or funs.now f false }
{
    match funs.get(f) {
        Some(mark) => *mark,
        None => false,
    }
}

// Whether all arguments are inert at the types of their parameters.
#[cycle(inert)]
fn are_still(arguments: &[Node], params: &Bunch, c: &Core, funs: &[bool]) -> bool
    ensures { result ≡ are_inert (fun_at (core_of c.now).funs) (counts_in (core_of c.now).funs funs.now) (terms_from (map term_of arguments.now)) (leaf_types (tree_of params.now)) }
{
    for (i, argument) in arguments.iter().enumerate() {
        if !is_still_at(argument, i, params, c, funs) {
            return false;
        }
    }
    true
}

// Whether the argument is inert at the type of the parameter at the place i.
#[cycle(inert)]
fn is_still_at(argument: &Node, i: usize, params: &Bunch, c: &Core, funs: &[bool]) -> bool
    ensures { result ≡ is_inert (fun_at (core_of c.now).funs) (counts_in (core_of c.now).funs funs.now) (term_of argument.now) (slice_index_or (leaf_types (tree_of params.now)) i eps) }
{
    match type_at(params, i) {
        Ok(t) => is_still(argument, t, c, funs),
        Err(_) => is_still(argument, &Ty::Eps, c, funs),
    }
}
