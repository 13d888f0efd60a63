//! What the parameters of a function say of one argument: its type, by place, and whether there is one for it.

ghost use Rattle.std.specs.Prelude.{◌≡◌, map, ◌+◌, ◌<◌, length, slice_get, ◌==◌, IfOk, IfErr, IfSome, IfNone, Some};
ghost use Rattle.stream_type.specs.StreamType.{type_of};
ghost use Rattle.bunch.specs.BunchTree.{tree_of};
ghost use Rattle.hist_value.specs.HistExpr.{expr_of};
ghost use Rattle.core_term.specs.CoreTerm.{leaf_types, term_of, terms_from, core_body_of};
ghost use Rattle.core_term.specs.Inert.{has_arity};

use bunch::Bunch;
use core_term::{Body, Node};
use hist_value::Expr;
use stream_type::Ty;

/// The type of the parameter at the place `i`, or how many places `i` is past the last parameter.
#[tactic(auto, using(crate::proofs::Places::places))]
pub fn type_at(params: &Bunch, i: usize) -> Result<&Ty, usize>
    ensures there { IfOk result (λ t. slice_get (leaf_types (tree_of params.now)) i ≡ Some (type_of t.now)) }
    ensures past { IfErr result (λ j. j + length (leaf_types (tree_of params.now)) ≡ i) }
{
    match params {
        Bunch::Empty => Err(i),
        Bunch::Leaf(_, t) => { if i == 0 { Ok(t) } else { Err(i - 1) } }
        Bunch::Comma(a, b) | Bunch::Semi(a, b) => match type_at(a, i) {
            Ok(t) => Ok(t),
            Err(j) => type_at(b, j),
        },
    }
}

/// Whether a call has as many arguments of both kinds as the function has parameters.
#[tactic(auto, using(crate::proofs::Counts::counts))]
pub fn has_arity(b: &Body, past: &[Expr], arguments: &[Node]) -> bool
    ensures { result ≡ has_arity (core_body_of b.now) (map expr_of past.now) (terms_from (map term_of arguments.now)) }
{
    past.len() == b.past.len() && are_so_many(&b.params, arguments.len())
}

// Whether there are so many parameters.
fn are_so_many(params: &Bunch, n: usize) -> bool
    ensures { result ≡ n == length (leaf_types (tree_of params.now)) }
{
    left_of(params, n) == Some(0)
}

// How many of n are left after the parameters, or None where there are more parameters.
fn left_of(params: &Bunch, n: usize) -> Option<usize>
    ensures left { IfSome result (λ m. m + length (leaf_types (tree_of params.now)) ≡ n) }
    ensures none { IfNone result (n < length (leaf_types (tree_of params.now))) }
{
    match params {
        Bunch::Empty => Some(n),
        Bunch::Leaf(_, _) => n.checked_sub(1),
        Bunch::Comma(a, b) | Bunch::Semi(a, b) => left_of(b, left_of(a, n)?),
    }
}
