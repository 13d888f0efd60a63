//! The rule of a call.

ghost use Rattle.std.specs.Prelude.{◌≡◌, ◌==◌, ◌&&◌, length, map, IfOk, MatchOption, None};
ghost use Rattle.stream_type.specs.StreamType.{type_of};
ghost use Rattle.bunch.specs.BunchTree.{tree_of};
ghost use Rattle.hist_value.specs.HistExpr.{expr_of};
ghost use Rattle.hist_value.specs.Environment.{types_of};
ghost use Rattle.core_term.specs.CoreTerm.{term_of, terms_from, core_of, core_body_of};
ghost use Rattle.core_term.specs.Parts.{is_same_type};
ghost use Rattle.delta_check.specs.Counting.{counts_in};
ghost use Rattle.delta_derive.specs.Rearranged.{then_by};
ghost use Rattle.delta_derive.specs.Claims.{call_parts, is_called, passes, first_shared, shares, with_claims, all_shared};
ghost use Rattle.delta_derive.specs.OpenTerms.{Adds, Shared};

use crate::jumpy::is_still;
use crate::open::{OpenTerm, add_in};
use crate::pasts::are_pasts;
use crate::types::is_same;
use bunch::{Bunch, Name};
use core_term::{Body, Core, Node, body_of};
use hist_value::{Expr, HTy};
use std::alloc::Global;
use stream_type::{Memory, Ty};

/// Adds the arguments of a call, and says whether its rule is valid: `call_parts` in `specs/Claims.antt`. Its only
/// error is want of memory.
#[tactic(auto, using(crate::proofs::Passed::passed))]
pub fn call_parts<'a>(
    alloc: Global,
    c: &'a Core,
    marks: &[bool],
    aim: &OpenTerm<'a>,
    f: u32,
    past: &[Expr],
    arguments: &'a [Node],
    parts: &mut Vec<OpenTerm<'a>>,
) -> Result<bool, Memory>
    ensures { IfOk result (Adds (call_parts (core_of c.now).funs (counts_in (core_of c.now).funs marks.now) (types_of aim.now.known.items) (tree_of aim.now.bunch) f (map expr_of past.now) (terms_from (map term_of arguments.now)) (type_of aim.now.result.now)) parts.old.items parts.new.items) }
{
    match body_of(c, f) {
        None => Ok(false),
        Some(b) => match is_called(alloc, c, marks, aim, b, past, arguments) {
            Ok(true) => pass(alloc, &aim.known, &b.params, &aim.bunch, arguments, parts),
            Ok(false) => Ok(false),
            Err(memory) => Err(memory),
        },
    }
}

// Whether the call keeps the rules on its result, on its historical arguments and on the arguments behind others.
fn is_called(
    alloc: Global,
    c: &Core,
    marks: &[bool],
    aim: &OpenTerm<'_>,
    b: &Body,
    past: &[Expr],
    arguments: &[Node],
) -> Result<bool, Memory>
    ensures { IfOk result (λ good. good ≡ is_called (core_of c.now).funs (counts_in (core_of c.now).funs marks.now) (types_of aim.now.known.items) (core_body_of b.now) (map expr_of past.now) (terms_from (map term_of arguments.now)) (type_of aim.now.result.now)) }
{
    if !fits(b, past, aim.result) {
        return Ok(false);
    }
    match are_pasts(alloc, &aim.known, past, &b.past) {
        Ok(true) => is_still(alloc, c, marks, b, arguments),
        Ok(false) => Ok(false),
        Err(memory) => Err(memory),
    }
}

// Whether the result is of the wanted type and there are as many historical arguments as parameters.
#[tactic(auto, using(crate::proofs::Passed::passed))]
fn fits(b: &Body, past: &[Expr], r: &Ty) -> bool
    ensures { result ≡ (is_same_type (core_body_of b.now).result (type_of r.now) && (length (map expr_of past.now) == length (core_body_of b.now).past)) }
{
    is_same(&b.result, r) && past.len() == b.past.len()
}

// Adds the arguments of parameters, where the bunch has their shape.
#[tactic(auto, using(crate::proofs::Sharing::sharing))]
fn pass<'a>(
    alloc: Global,
    known: &[(Name, HTy)],
    params: &'a Bunch,
    g: &Bunch,
    arguments: &'a [Node],
    parts: &mut Vec<OpenTerm<'a>>,
) -> Result<bool, Memory>
    ensures { IfOk result (Adds (passes (types_of known.now) (tree_of params.now) (tree_of g.now) (terms_from (map term_of arguments.now))) parts.old.items parts.new.items) }
{
    match params {
        Bunch::Empty => Ok(arguments.is_empty()),
        Bunch::Leaf(_, _) | Bunch::Comma(_, _) | Bunch::Semi(_, _) => {
            share_all(alloc, known, params, g, arguments, parts)
        }
    }
}

// Adds the arguments of parameters, and says whether none is left over.
#[tactic(auto, using(crate::proofs::Sharing::sharing))]
fn share_all<'a>(
    alloc: Global,
    known: &[(Name, HTy)],
    params: &'a Bunch,
    g: &Bunch,
    arguments: &'a [Node],
    parts: &mut Vec<OpenTerm<'a>>,
) -> Result<bool, Memory>
    ensures { IfOk result (Adds (all_shared (shares (types_of known.now) (tree_of params.now) (tree_of g.now) (terms_from (map term_of arguments.now)))) parts.old.items parts.new.items) }
{
    match share(alloc, known, params, g, arguments, parts) {
        Ok(Some(rest)) => Ok(rest.is_empty()),
        Ok(None) => Ok(false),
        Err(memory) => Err(memory),
    }
}

// Adds the first of the arguments for a parameter of this type, and answers those that are left, or None where there
// is none.
fn share_first<'a>(
    alloc: Global,
    known: &[(Name, HTy)],
    t: &'a Ty,
    g: &Bunch,
    arguments: &'a [Node],
    parts: &mut Vec<OpenTerm<'a>>,
) -> Result<Option<&'a [Node]>, Memory>
    ensures { IfOk result (λ o. MatchOption o (first_shared (types_of known.now) (type_of t.now) (tree_of g.now) (terms_from (map term_of arguments.now)) ≡ None)
        (λ rest. Shared (first_shared (types_of known.now) (type_of t.now) (tree_of g.now) (terms_from (map term_of arguments.now))) parts.old.items parts.new.items rest.now)) }
{
    match arguments.split_first() {
        None => Ok(None),
        Some((argument, rest)) => match add_in(alloc, known, g, argument, t, parts) {
            Ok(_) => Ok(Some(rest)),
            Err(memory) => Err(memory),
        },
    }
}

// Adds the first of the arguments, each in its part of the bunch, and answers those that are left, or None where
// the bunch hasn't the shape of the parameters.
#[cycle(share)]
fn share<'a>(
    alloc: Global,
    known: &[(Name, HTy)],
    params: &'a Bunch,
    g: &Bunch,
    arguments: &'a [Node],
    parts: &mut Vec<OpenTerm<'a>>,
) -> Result<Option<&'a [Node]>, Memory>
    ensures { IfOk result (λ o. MatchOption o (shares (types_of known.now) (tree_of params.now) (tree_of g.now) (terms_from (map term_of arguments.now)) ≡ None)
        (λ rest. Shared (shares (types_of known.now) (tree_of params.now) (tree_of g.now) (terms_from (map term_of arguments.now))) parts.old.items parts.new.items rest.now)) }
{
    match params {
        Bunch::Empty => match g {
            Bunch::Empty => Ok(Some(arguments)),
            _ => Ok(None),
        },
        Bunch::Leaf(_, t) => share_first(alloc, known, t, g, arguments, parts),
        Bunch::Comma(a, b) => match g {
            Bunch::Comma(g, h) => share_both(alloc, known, a, g, b, h, arguments, parts),
            _ => Ok(None),
        },
        Bunch::Semi(a, b) => match g {
            Bunch::Semi(g, h) => share_both(alloc, known, a, g, b, h, arguments, parts),
            _ => Ok(None),
        },
    }
}

// The same of the two sides of parameters and of a bunch, one after the other.
#[cycle(share)]
fn share_both<'a>(
    alloc: Global,
    known: &[(Name, HTy)],
    a: &'a Bunch,
    g: &Bunch,
    b: &'a Bunch,
    h: &Bunch,
    arguments: &'a [Node],
    parts: &mut Vec<OpenTerm<'a>>,
) -> Result<Option<&'a [Node]>, Memory>
    ensures { IfOk result (λ o. MatchOption o (then_by (shares (types_of known.now) (tree_of a.now) (tree_of g.now) (terms_from (map term_of arguments.now))) (λ r. with_claims r.0 (shares (types_of known.now) (tree_of b.now) (tree_of h.now) r.1)) ≡ None)
        (λ rest. Shared (then_by (shares (types_of known.now) (tree_of a.now) (tree_of g.now) (terms_from (map term_of arguments.now))) (λ r. with_claims r.0 (shares (types_of known.now) (tree_of b.now) (tree_of h.now) r.1))) parts.old.items parts.new.items rest.now)) }
{
    match share(alloc, known, a, g, arguments, parts) {
        Ok(Some(rest)) => share(alloc, known, b, h, rest, parts),
        Ok(None) => Ok(None),
        Err(memory) => Err(memory),
    }
}
