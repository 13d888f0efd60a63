//! The rules on the arguments of a call.

ghost use Rattle.std.specs.Prelude.{◌≡◌, ℕ, false, [], map, option_map, IfOk, IfSome, IfNone};
ghost use Rattle.std.specs.List.{list_any};
ghost use Rattle.bunch.specs.Names.{numbers_of, number_of};
ghost use Rattle.bunch.specs.BunchTree.{tree_of, stands_before};
ghost use Rattle.core_term.specs.CoreTerm.{term_of, terms_from, core_body_of, core_of, fun_at, eps_term};
ghost use Rattle.core_term.specs.Agreement.{types_in};
ghost use Rattle.core_term.specs.Inert.{is_inert};
ghost use Rattle.core_term.specs.Typing.{argument_of};
ghost use Rattle.core_term.specs.TypeFaults.{first_found, found_where, first_passed, first_jumpy};
ghost use Rattle.delta_check.specs.Counting.{counts_in};
ghost use Rattle.delta_check.specs.Passing.{pair_at, is_jumpy};
ghost use Rattle.delta_check.specs.Scopes.{context_in};

use crate::inertness::inert;
use crate::orders::unordered;
use crate::scope::Scope;
use bunch::{Bunch, Name, before, names};
use core_term::params::type_of_name;
use core_term::{Body, Core, Node};
use std::alloc::Global;
use stream_type::{Memory, Ty};

/// Of a call the first two names that aren't in order, in the arguments of two parameters of which
/// one stands before the other: `first_passed` in the specs of core_term. Its only error is want of
/// memory.
pub fn out_of_order(
    alloc: Global,
    scope: &Scope<'_>,
    b: &Body,
    arguments: &[Node],
) -> Result<Option<(Name, Name)>, Memory>
    ensures { IfOk result (λ o. option_map {U = ℕ × ℕ} (λ p. (p.0.0, p.1.0)) o
        ≡ first_passed [] (λ _. false) (context_in scope.now) (core_body_of b.now) (terms_from (map term_of arguments.now))) }
{
    let names = names(alloc, &b.params)?;
    first_of_all(alloc, scope, &b.params, &names, arguments)
}

// That of all parameters.
fn first_of_all(
    alloc: Global,
    scope: &Scope<'_>,
    params: &Bunch,
    names: &[Name],
    arguments: &[Node],
) -> Result<Option<(Name, Name)>, Memory>
    ensures { IfOk result (λ o. option_map {U = ℕ × ℕ} (λ p. (p.0.0, p.1.0)) o
        ≡ first_found {B = ℕ × ℕ} (λ u. first_found {B = ℕ × ℕ} (pair_at (context_in scope.now) (tree_of params.now) (numbers_of names.now) (terms_from (map term_of arguments.now)) u) (numbers_of names.now)) (numbers_of names.now)) }
{
    for u in names {
        if let Some(found) = first_from(alloc, scope, params, names, arguments, *u)? {
            return Ok(Some(found));
        }
    }
    Ok(None)
}

// That of u and each other parameter.
fn first_from(
    alloc: Global,
    scope: &Scope<'_>,
    params: &Bunch,
    names: &[Name],
    arguments: &[Node],
    u: Name,
) -> Result<Option<(Name, Name)>, Memory>
    ensures { IfOk result (λ o. option_map {U = ℕ × ℕ} (λ p. (p.0.0, p.1.0)) o
        ≡ first_found {B = ℕ × ℕ} (pair_at (context_in scope.now) (tree_of params.now) (numbers_of names.now) (terms_from (map term_of arguments.now)) u.0) (numbers_of names.now)) }
{
    for v in names {
        if let Some(found) = pair_of(alloc, scope, params, names, arguments, u, *v)? {
            return Ok(Some(found));
        }
    }
    Ok(None)
}

// That of u and v.
#[tactic(auto, using(crate::proofs::Arguments::arguments))]
fn pair_of(
    alloc: Global,
    scope: &Scope<'_>,
    params: &Bunch,
    names: &[Name],
    arguments: &[Node],
    u: Name,
    v: Name,
) -> Result<Option<(Name, Name)>, Memory>
    ensures { IfOk result (λ o. option_map {U = ℕ × ℕ} (λ p. (p.0.0, p.1.0)) o
        ≡ pair_at (context_in scope.now) (tree_of params.now) (numbers_of names.now) (terms_from (map term_of arguments.now)) u.0 v.0) }
{
    if !before(params, u, v) {
        return Ok(None);
    }
    match argument(names, arguments, u) {
        None => Ok(None),
        Some(first) => match argument(names, arguments, v) {
            None => Ok(None),
            Some(second) => unordered(alloc, scope, first, second),
        },
    }
}

// The argument in the place of the parameter u, or None where there is none.
fn argument<'a>(names: &[Name], arguments: &'a [Node], u: Name) -> Option<&'a Node>
    ensures there { IfSome result (λ n. term_of n.now ≡ argument_of (numbers_of names.now) (terms_from (map term_of arguments.now)) u.0) }
    ensures none { IfNone result (argument_of (numbers_of names.now) (terms_from (map term_of arguments.now)) u.0 ≡ eps_term) }
{
    for (i, name) in names.iter().enumerate() {
        if u.0 == name.0 {
            return arguments.get(i);
        }
    }
    None
}

/// Of a call the first parameter that another one stands before and whose argument isn't inert:
/// `first_jumpy` in the specs of core_term. Its only error is want of memory.
pub fn first_jumpy(
    alloc: Global,
    c: &Core,
    marks: &[bool],
    b: &Body,
    arguments: &[Node],
) -> Result<Option<Name>, Memory>
    ensures { IfOk result (λ o. option_map number_of o
        ≡ first_jumpy (core_of c.now).funs (counts_in (core_of c.now).funs marks.now) (core_body_of b.now) (terms_from (map term_of arguments.now))) }
{
    let names = names(alloc, &b.params)?;
    Ok(jumpy_among(c, marks, &b.params, &names, arguments))
}

// That of these parameters.
fn jumpy_among(
    c: &Core,
    marks: &[bool],
    params: &Bunch,
    names: &[Name],
    arguments: &[Node],
) -> Option<Name>
    ensures { option_map number_of result
        ≡ first_found (λ v. found_where (is_jumpy (core_of c.now).funs (counts_in (core_of c.now).funs marks.now) (tree_of params.now) (numbers_of names.now) (terms_from (map term_of arguments.now)) v) v) (numbers_of names.now) }
{
    for v in names {
        if is_after_some(params, names, *v)
            && !is_inert_argument(c, marks, params, names, arguments, *v)
        {
            return Some(*v);
        }
    }
    None
}

// Whether one of the parameters stands before v.
fn is_after_some(params: &Bunch, names: &[Name], v: Name) -> bool
    ensures { result ≡ list_any (λ u. stands_before (tree_of params.now) u v.0) (numbers_of names.now) }
{
    for u in names {
        if before(params, *u, v) {
            return true;
        }
    }
    false
}

// Whether the argument of v is inert.
#[tactic(auto, using(crate::proofs::Arguments::arguments))]
fn is_inert_argument(
    c: &Core,
    marks: &[bool],
    params: &Bunch,
    names: &[Name],
    arguments: &[Node],
    v: Name,
) -> bool
    ensures { result ≡ is_inert (fun_at (core_of c.now).funs) (counts_in (core_of c.now).funs marks.now) (argument_of (numbers_of names.now) (terms_from (map term_of arguments.now)) v.0) (types_in (tree_of params.now) v.0) }
{
    match argument(names, arguments, v) {
        None => true,
        Some(n) => match type_of_name(params, v) {
            None => inert(c, n, &Ty::Eps, marks),
            Some(t) => inert(c, n, t, marks),
        },
    }
}
