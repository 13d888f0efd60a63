//! The check of a whole program: the first node that breaks a rule.

ghost use Rattle.std.specs.Prelude.{◌≡◌, ◌+◌, ◌++◌, ◌≤◌, ◌<◌, ◌^◌, ℕ, [], ◌∷◌, map, slice_index_or, IfOk, IfErr};
ghost use Rattle.std.specs.List.{concat};
ghost use Rattle.stream_type.specs.StreamType.{type_of, eps};
ghost use Rattle.bunch.specs.BunchTree.{tree_of, empty};
ghost use Rattle.core_term.specs.CoreTerm.{term_of, term_in, terms_from, places_of, places_in, core_of, core_body_of, fun_at, leaf_types, node_count, node_counts, body_places, core_places};
ghost use Rattle.core_term.specs.FreeNames.{IsCore, HasFewNodes};
ghost use Rattle.core_term.specs.Inert.{is_inert_fun};
ghost use Rattle.core_term.specs.Typing.{IsTypedCore, type_at, with_name, with_let};
ghost use Rattle.core_term.specs.TypeFaults.{node, nodes_of, nodes_among, nodes_of_body, program_nodes, first_fault};
ghost use Rattle.delta_check.specs.Checking.{Finds, parts_of, Denies};
ghost use Rattle.delta_check.specs.Counting.{counts_in};
ghost use Rattle.delta_check.specs.Faults.{TellsFirst, TellsPlace};
ghost use Rattle.delta_check.specs.Scopes.{context_in, place_known};

use crate::fault::TypeFault;
use crate::inertness::{inert, inert_funs};
use crate::input_type::input_of;
use crate::params::type_at;
use crate::rules::broken;
use crate::scope::{Placed, Scope, place_of_let, stream_type};
use bunch::{Bunch, Name};
use core_term::parts::{cat_types, par_types, star_types, sum_types};
use core_term::{Body, Checked, Core, Node, Term, body_of, free};
use std::alloc::Global;
use stream_type::{Memory, Ty};

/// The program as a checked one, with the type of its input. It is refused exactly where it isn't
/// typed (`IsTypedCore` in the specs of core_term), with the first node in the order of reading that
/// breaks a rule, the place of that node, and the first rule that it breaks (`first_fault` there).
/// Its other error is want of memory.
pub fn check(alloc: Global, c: Core) -> Result<Checked, TypeFault>
    requires core { IsCore (core_of c) }
    requires nodes { HasFewNodes (core_of c) }
    ensures program { IfOk result (λ k. k ≡ c) }
    ensures typed { IfOk result (λ _. IsTypedCore (core_of c)) }
    ensures untyped { IfErr result (λ f. Denies f (IsTypedCore (core_of c))) }
    ensures first { IfErr result (λ f. TellsFirst f (first_fault (core_of c))) }
    ensures place { IfErr result (λ f. TellsPlace f 0 (core_places c)) }
{
    match input_of(alloc, &c) {
        Ok(input) => Ok(Checked::of(c, input)),
        Err(fault) => {
            drop(c);
            Err(fault)
        }
    }
}

/// Finds the first broken rule of a program with fewer than 2^32 nodes, as `check` tells it. Its other
/// error is want of memory.
pub fn check_core(alloc: Global, c: &Core) -> Result<(), TypeFault>
    requires { HasFewNodes (core_of c.now) }
    ensures typed { IfOk result (λ _. IsTypedCore (core_of c.now)) }
    ensures untyped { IfErr result (λ f. Denies f (IsTypedCore (core_of c.now))) }
    ensures first { IfErr result (λ f. TellsFirst f (first_fault (core_of c.now))) }
    ensures place { IfErr result (λ f. TellsPlace f 0 (core_places c.now)) }
{
    let marks = inert_funs(alloc, c)?;
    check_bodies(alloc, c, &marks)?;
    Ok(())
}

// Finds the first broken rule of the functions in turn and of the main program after them, and else
// the number of all nodes.
fn check_bodies(alloc: Global, c: &Core, marks: &[bool]) -> Result<u32, TypeFault>
    requires count { HasFewNodes (core_of c.now) }
    requires marks { (f : ℕ) → counts_in (core_of c.now).funs marks.now f ≡ is_inert_fun (core_of c.now).funs f }
    ensures { Finds (core_of c.now).funs (is_inert_fun (core_of c.now).funs) 0 (program_nodes (core_of c.now)) (core_places c.now) result }
{
    let mut number = 0;
    for body in &c.funs {
        number = check_body(alloc, body, c, marks, number)?;
    }
    check_body(alloc, &c.main, c, marks, number)
}

// The same of a body, whose nodes have numbers from this one on.
fn check_body(
    alloc: Global,
    b: &Body,
    c: &Core,
    marks: &[bool],
    number: u32,
) -> Result<u32, TypeFault>
    requires count { number + node_count (core_body_of b.now).body < 2 ^ 32 }
    requires marks { (f : ℕ) → counts_in (core_of c.now).funs marks.now f ≡ is_inert_fun (core_of c.now).funs f }
    ensures { Finds (core_of c.now).funs (is_inert_fun (core_of c.now).funs) number (nodes_of_body (core_of c.now).funs (core_body_of b.now)) (body_places b.now) result }
{
    check_node(
        alloc,
        &b.body,
        &b.result,
        &Scope::Params(b),
        c,
        marks,
        number,
    )
}

/// Finds the first broken rule of a term at a type in a scope, whose nodes have numbers from this one
/// on, and else the number after them.
#[cycle(check)]
pub fn check_node<'a>(
    alloc: Global,
    n: &Node,
    r: &Ty,
    scope: &'a Scope<'a>,
    c: &Core,
    marks: &[bool],
    number: u32,
) -> Result<u32, TypeFault>
    requires { number + node_count (term_of n.now) < 2 ^ 32 }
    ensures { Finds (core_of c.now).funs (counts_in (core_of c.now).funs marks.now) number
        (nodes_of (core_of c.now).funs (counts_in (core_of c.now).funs marks.now) (context_in scope.now) (term_of n.now) (type_of r.now)) (places_of n.now) result }
{
    let next = check_own(alloc, n, r, scope, c, marks, number)?;
    check_parts(alloc, &n.term, r, scope, c, marks, next)
}

// The rules on a node itself.
fn check_own(
    alloc: Global,
    n: &Node,
    r: &Ty,
    scope: &Scope<'_>,
    c: &Core,
    marks: &[bool],
    number: u32,
) -> Result<u32, TypeFault>
    requires { number + 1 < 2 ^ 32 }
    ensures { Finds (core_of c.now).funs (counts_in (core_of c.now).funs marks.now) number (node (context_in scope.now) (term_of n.now) (type_of r.now) ∷ []) (n.now.at ∷ []) result }
{
    match broken(alloc, c, marks, scope, n, r)? {
        None => Ok(number + 1),
        Some(cause) => Err(TypeFault::Refused {
            node: number,
            at: n.at,
            cause,
        }),
    }
}

// The rules on the parts of a term, in the order of reading.
#[cycle(check)]
fn check_parts<'a>(
    alloc: Global,
    term: &Term,
    r: &Ty,
    scope: &'a Scope<'a>,
    c: &Core,
    marks: &[bool],
    number: u32,
) -> Result<u32, TypeFault>
    requires { number + node_count (term_in term.now) ≤ 2 ^ 32 }
    ensures { Finds (core_of c.now).funs (counts_in (core_of c.now).funs marks.now) number
        (parts_of (nodes_of (core_of c.now).funs (counts_in (core_of c.now).funs marks.now) (context_in scope.now) (term_in term.now) (type_of r.now))) (places_in term.now) result }
{
    match term {
        Term::Var(_) | Term::Eps | Term::Unit | Term::Nil | Term::Past(_) => Ok(number),
        Term::Par(a, b) => {
            let (s, t) = par_types(&*r, &Ty::Eps);
            check_two(alloc, a, s, scope, b, t, scope, c, marks, number)
        }
        Term::Cat(a, b) => {
            let (s, t) = cat_types(&*r, &Ty::Eps);
            check_two(alloc, a, s, scope, b, t, scope, c, marks, number)
        }
        Term::Cons(a, b) => {
            let (item, rest) = star_types(&*r, &Ty::Eps);
            check_two(alloc, a, item, scope, b, rest, scope, c, marks, number)
        }
        Term::Inl(a) => {
            let (s, _) = sum_types(&*r, &Ty::Eps);
            check_node(alloc, a, s, scope, c, marks, number)
        }
        Term::Inr(a) => {
            let (_, t) = sum_types(&*r, &Ty::Eps);
            check_node(alloc, a, t, scope, c, marks, number)
        }
        Term::Let(x, s, a, b) => check_let(alloc, *x, s, a, b, r, scope, c, marks, number),
        Term::LetPar(x, y, z, a) => {
            let (s, t) = par_types(type_or(&*scope, *z, &Ty::Eps), &Ty::Eps);
            let left = Scope::Like(*x, s, *z, &*scope);
            check_node(
                alloc,
                a,
                r,
                &Scope::Like(*y, t, *z, &left),
                c,
                marks,
                number,
            )
        }
        Term::LetCat(x, y, z, a) => {
            let (s, t) = cat_types(type_or(&*scope, *z, &Ty::Eps), &Ty::Eps);
            let first = Scope::Like(*x, s, *z, &*scope);
            let both = Scope::Like(*y, t, *z, &first);
            check_node(alloc, a, r, &Scope::Fact(*x, *y, &both), c, marks, number)
        }
        Term::CaseSum(z, _, x, a, y, b) => {
            let (s, t) = sum_types(type_or(&*scope, *z, &Ty::Eps), &Ty::Eps);
            let left = Scope::Like(*x, s, *z, &*scope);
            let right = Scope::Like(*y, t, *z, &*scope);
            check_two(alloc, a, r, &left, b, r, &right, c, marks, number)
        }
        Term::CaseStar(z, _, a, y, ys, b) => {
            let (item, rest) = star_types(type_or(&*scope, *z, &Ty::Eps), &Ty::Eps);
            let first = Scope::Like(*y, item, *z, &*scope);
            let both = Scope::Like(*ys, rest, *z, &first);
            let ordered = Scope::Fact(*y, *ys, &both);
            check_two(alloc, a, r, &*scope, b, r, &ordered, c, marks, number)
        }
        Term::Wait(x, _, a) => {
            check_node(alloc, a, r, &Scope::Waited(*x, &*scope), c, marks, number)
        }
        Term::Call(f, _, arguments) => {
            let params = params_of(c, *f, &Bunch::Empty);
            check_arguments(alloc, arguments, params, scope, c, marks, number)
        }
    }
}

// The same of two terms in turn, each at its type and in its scope.
#[cycle(check)]
fn check_two<'a>(
    alloc: Global,
    a: &Node,
    s: &Ty,
    first: &'a Scope<'a>,
    b: &Node,
    t: &Ty,
    second: &'a Scope<'a>,
    c: &Core,
    marks: &[bool],
    number: u32,
) -> Result<u32, TypeFault>
    requires { number + (node_count (term_of a.now) + node_count (term_of b.now)) < 2 ^ 32 }
    ensures { Finds (core_of c.now).funs (counts_in (core_of c.now).funs marks.now) number
        (nodes_of (core_of c.now).funs (counts_in (core_of c.now).funs marks.now) (context_in first.now) (term_of a.now) (type_of s.now)
        ++ nodes_of (core_of c.now).funs (counts_in (core_of c.now).funs marks.now) (context_in second.now) (term_of b.now) (type_of t.now))
        (places_of a.now ++ places_of b.now) result }
{
    let next = check_node(alloc, a, s, first, c, marks, number)?;
    check_node(alloc, b, t, second, c, marks, next)
}

// The same of what a let binds to x, and of its body, in which x is known.
#[cycle(check)]
fn check_let<'a>(
    alloc: Global,
    x: Name,
    s: &Ty,
    a: &Node,
    b: &Node,
    r: &Ty,
    scope: &'a Scope<'a>,
    c: &Core,
    marks: &[bool],
    number: u32,
) -> Result<u32, TypeFault>
    requires { number + (node_count (term_of a.now) + node_count (term_of b.now)) < 2 ^ 32 }
    ensures { Finds (core_of c.now).funs (counts_in (core_of c.now).funs marks.now) number
        (nodes_of (core_of c.now).funs (counts_in (core_of c.now).funs marks.now) (context_in scope.now) (term_of a.now) (type_of s.now)
        ++ nodes_of (core_of c.now).funs (counts_in (core_of c.now).funs marks.now) (with_let (core_of c.now).funs (counts_in (core_of c.now).funs marks.now) x.0 (type_of s.now) (term_of a.now) (context_in scope.now)) (term_of b.now) (type_of r.now))
        (places_of a.now ++ places_of b.now) result }
{
    let placed = let_placed(alloc, &*scope, a, s, b, c, marks)?;
    let inner = Scope::Let(x, s, &placed, &*scope);
    check_two(alloc, a, s, &*scope, b, r, &inner, c, marks, number)
}

// The same of arguments, each at the type of its parameter; one without a parameter is expected to be
// of type `eps`.
#[cycle(check)]
fn check_arguments<'a>(
    alloc: Global,
    arguments: &[Node],
    params: &Bunch,
    scope: &'a Scope<'a>,
    c: &Core,
    marks: &[bool],
    number: u32,
) -> Result<u32, TypeFault>
    requires { number + node_counts (terms_from (map term_of arguments.now)) < 2 ^ 32 }
    ensures { Finds (core_of c.now).funs (counts_in (core_of c.now).funs marks.now) number
        (nodes_among (core_of c.now).funs (counts_in (core_of c.now).funs marks.now) (context_in scope.now) (terms_from (map term_of arguments.now)) (leaf_types (tree_of params.now))) (concat (map places_of arguments.now)) result }
{
    let mut next = number;
    for (i, argument) in arguments.iter().enumerate() {
        let t = type_of_param(params, i, &Ty::Eps);
        next = check_node(alloc, argument, t, scope, c, marks, next)?;
    }
    Ok(next)
}

/// The type of a stream variable; any other name counts as of type `eps`, as which `other` stands.
pub fn type_or<'a>(scope: &Scope<'a>, x: Name, other: &'a Ty) -> &'a Ty
    requires { type_of other.now ≡ eps }
    ensures { type_of result.now ≡ type_at (context_in scope.now) x.0 }
{
    match stream_type(scope, x) {
        Some(t) => t,
        None => other,
    }
}

// The type of the parameter at a place; past the last one it is `eps`.
fn type_of_param<'a>(params: &'a Bunch, i: usize, other: &'a Ty) -> &'a Ty
    requires { type_of other.now ≡ eps }
    ensures { type_of result.now ≡ slice_index_or (leaf_types (tree_of params.now)) i eps }
{
    match type_at(params, i) {
        Ok(t) => t,
        Err(_) => other,
    }
}

// The parameters of a function; one that isn't there has none.
fn params_of<'a>(c: &'a Core, f: u32, none: &'a Bunch) -> &'a Bunch
    requires { tree_of none.now ≡ empty }
    ensures { tree_of result.now ≡ (fun_at (core_of c.now).funs f).params }
{
    match body_of(c, f) {
        Some(b) => &b.params,
        None => none,
    }
}

/// Where the name of a let is placed, for what is asked in its body. Its only error is want of memory.
pub fn let_placed(
    alloc: Global,
    scope: &Scope<'_>,
    a: &Node,
    s: &Ty,
    b: &Node,
    c: &Core,
    marks: &[bool],
) -> Result<Placed, Memory>
    ensures { IfOk result (λ p. (x : ℕ) → with_name x (type_of s.now) (place_known x p (context_in scope.now).order) (context_in scope.now)
        ≡ with_let (core_of c.now).funs (counts_in (core_of c.now).funs marks.now) x (type_of s.now) (term_of a.now) (context_in scope.now)) }
{
    let inert = inert(c, a, s, marks);
    let others = free(alloc, b)?;
    place_of_let(alloc, scope, free(alloc, a)?, inert, &others)
}
