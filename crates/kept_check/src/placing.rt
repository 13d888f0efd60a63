//! Whether what a kept state says of the input may be so.

ghost use Rattle.std.specs.Prelude.{◌≡◌, ◌↔◌, ◌+◌, ◌<◌, nat_le, take, drop, length, IsTrue, IfSome, IfNone};
ghost use Rattle.std.specs.List.{list_all};
ghost use Rattle.stream_type.specs.StreamType.{type_of, null_of, reach_of, eps};
ghost use Rattle.bunch.specs.BunchTree.{tree_of, leaf_names};
ghost use Rattle.core_term.specs.Agreement.{types_in};
ghost use Rattle.core_term.specs.Parts.{is_same_type};
ghost use Rattle.kept_state.specs.KeptPlace.{semi_count, first_cuts, second_cuts, IsOver, IsUncut, IsUntouched, IsPlace};
ghost use Rattle.kept_check.specs.Given.{type_given};

use bunch::{Bunch, Name};
use core_term::params::type_of_name;
use stream_type::{Ty, null, same};

// How many of n are left after the semicolons of a bunch, or None where there are more of these.
fn left_of(b: &Bunch, n: usize) -> Option<usize>
    ensures left { IfSome result (λ m. m + semi_count (tree_of b.now) ≡ n) }
    ensures none { IfNone result (n < semi_count (tree_of b.now)) }
{
    match b {
        Bunch::Empty | Bunch::Leaf(_, _) => Some(n),
        Bunch::Comma(a, b) => left_of(b, left_of(a, n)?),
        Bunch::Semi(a, b) => left_of(b, left_of(a, n.checked_sub(1)?)?),
    }
}

/// Whether there is a mark for each semicolon of a bunch.
pub fn has_cuts(b: &Bunch, cuts: &[bool]) -> bool
    ensures { IsTrue result ↔ (length cuts.now ≡ semi_count (tree_of b.now)) }
{
    match left_of(b, cuts.len()) {
        Some(left) => left == 0,
        None => false,
    }
}

/// Whether the reach of a type is n at least.
pub fn reaches(t: &Ty, n: u32) -> bool
    ensures { result ≡ nat_le n (reach_of (type_of t.now)) }
{
    match t {
        Ty::Eps | Ty::One | Ty::Int => n == 0,
        Ty::Cat(a, b) => n == 0 || reaches(a, n - 1) || reaches(b, n),
        Ty::Par(a, b) => n == 0 || reaches(a, n - 1) || reaches(b, n - 1),
        Ty::Sum(a, b) => reaches(a, n) || reaches(b, n),
        Ty::Star(a) => n == 0 || reaches(a, n - 1),
    }
}

// The marks behind those of the bunch.
fn behind<'a>(b: &Bunch, cuts: &'a [bool]) -> &'a [bool]
    ensures { result.now ≡ drop (semi_count (tree_of b.now)) cuts.now }
{
    match b {
        Bunch::Empty | Bunch::Leaf(_, _) => cuts,
        Bunch::Comma(a, b) => behind(b, behind(a, cuts)),
        Bunch::Semi(a, b) => behind(b, behind(a, rest(cuts))),
    }
}

// The marks but the first.
fn rest(cuts: &[bool]) -> &[bool]
    ensures { result.now ≡ drop 1 cuts.now }
{
    match cuts {
        [] => cuts,
        [_, rest @ ..] => rest,
    }
}

// The marks of the bunch, and those behind them.
fn parted<'a>(b: &Bunch, cuts: &'a [bool]) -> (&'a [bool], &'a [bool])
    ensures first { result.0.now ≡ take (semi_count (tree_of b.now)) cuts.now }
    ensures second { result.1.now ≡ drop (semi_count (tree_of b.now)) cuts.now }
{
    let rest = behind(b, cuts);
    let (first, _) = cuts.split_at(cuts.len() - rest.len());
    (first, rest)
}

// The type that is given of a name, or `other`, which is `eps`.
fn type_left<'a>(left: &'a [(Name, Ty)], x: Name, other: &'a Ty) -> &'a Ty
    requires { type_of other.now ≡ eps }
    ensures { type_of result.now ≡ type_given left.now x.0 }
{
    for entry in left {
        if x.0 == entry.0.0 {
            return &entry.1;
        }
    }
    other
}

// Whether the stream of each name of the bunch is over.
#[tactic(auto, using(crate::proofs::Lists::lists))]
fn is_over(b: &Bunch, left: &[(Name, Ty)]) -> bool
    ensures { result ≡ list_all (λ x. null_of (type_given left.now x)) (leaf_names (tree_of b.now)) }
{
    match b {
        Bunch::Empty => true,
        Bunch::Leaf(x, _) => null(type_left(left, *x, &Ty::Eps)),
        Bunch::Comma(a, b) | Bunch::Semi(a, b) => is_over(a, left) && is_over(b, left),
    }
}

// Whether all of the type of each name of a part is left.
#[tactic(auto, using(crate::proofs::Lists::lists))]
fn are_declared(part: &Bunch, whole: &Bunch, left: &[(Name, Ty)]) -> bool
    ensures { result ≡ list_all (λ x. is_same_type (type_given left.now x) (types_in (tree_of whole.now) x)) (leaf_names (tree_of part.now)) }
{
    match part {
        Bunch::Empty => true,
        Bunch::Leaf(x, _) => is_declared(*x, whole, left),
        Bunch::Comma(a, b) | Bunch::Semi(a, b) => {
            are_declared(a, whole, left) && are_declared(b, whole, left)
        }
    }
}

// Whether all of the type of a name is left.
fn is_declared(x: Name, whole: &Bunch, left: &[(Name, Ty)]) -> bool
    ensures { result ≡ is_same_type (type_given left.now x.0) (types_in (tree_of whole.now) x.0) }
{
    same(
        type_left(left, x, &Ty::Eps),
        declared_type(whole, x, &Ty::Eps),
    )
}

// The type of a name in a bunch, or `other`, which is `eps`.
fn declared_type<'a>(whole: &'a Bunch, x: Name, other: &'a Ty) -> &'a Ty
    requires { type_of other.now ≡ eps }
    ensures { type_of result.now ≡ types_in (tree_of whole.now) x.0 }
{
    match type_of_name(whole, x) {
        Some(t) => t,
        None => other,
    }
}

// Whether none of the marks of the bunch has come.
#[cycle(uncut)]
fn is_uncut(b: &Bunch, cuts: &[bool]) -> bool
    ensures { IsTrue result ↔ IsUncut (tree_of b.now) cuts.now }
{
    match b {
        Bunch::Empty | Bunch::Leaf(_, _) => true,
        Bunch::Comma(a, b) => are_uncut(a, b, cuts),
        Bunch::Semi(a, b) => match cuts {
            [false, rest @ ..] => are_uncut(a, b, rest),
            _ => false,
        },
    }
}

// The same of both parts.
#[cycle(uncut)]
fn are_uncut(a: &Bunch, b: &Bunch, cuts: &[bool]) -> bool
    ensures { IsTrue result ↔ (IsUncut (tree_of a.now) (first_cuts (tree_of a.now) cuts.now) × IsUncut (tree_of b.now) (second_cuts (tree_of a.now) cuts.now)) }
{
    let (first, rest) = parted(a, cuts);
    is_uncut(a, first) && is_uncut(b, rest)
}

/// Whether the types left and the marks fit together: `IsPlace` in the specs of kept_state.
#[cycle(place)]
pub fn is_place(b: &Bunch, left: &[(Name, Ty)], cuts: &[bool]) -> bool
    ensures { IsTrue result ↔ IsPlace (tree_of b.now) (type_given left.now) cuts.now }
{
    match b {
        Bunch::Empty | Bunch::Leaf(_, _) => true,
        Bunch::Comma(a, b) => are_places(a, b, left, cuts),
        Bunch::Semi(a, b) => match cuts {
            [] => false,
            [true, rest @ ..] => is_past(a, b, left, rest),
            [false, rest @ ..] => is_before(a, b, left, rest),
        },
    }
}

// The same of both parts.
#[cycle(place)]
fn are_places(a: &Bunch, b: &Bunch, left: &[(Name, Ty)], cuts: &[bool]) -> bool
    ensures { IsTrue result ↔ (IsPlace (tree_of a.now) (type_given left.now) (first_cuts (tree_of a.now) cuts.now) × IsPlace (tree_of b.now) (type_given left.now) (second_cuts (tree_of a.now) cuts.now)) }
{
    let (first, rest) = parted(a, cuts);
    is_place(a, left, first) && is_place(b, left, rest)
}

// The same, and whether the first part is over.
#[cycle(place)]
fn is_past(a: &Bunch, b: &Bunch, left: &[(Name, Ty)], cuts: &[bool]) -> bool
    ensures { IsTrue result ↔ (IsOver (tree_of a.now) (type_given left.now) × IsPlace (tree_of a.now) (type_given left.now) (first_cuts (tree_of a.now) cuts.now) × IsPlace (tree_of b.now) (type_given left.now) (second_cuts (tree_of a.now) cuts.now)) }
{
    is_over(a, left) && are_places(a, b, left, cuts)
}

// Whether the first part is in its place and of the second nothing has begun.
#[cycle(place)]
fn is_before(a: &Bunch, b: &Bunch, left: &[(Name, Ty)], cuts: &[bool]) -> bool
    ensures { IsTrue result ↔ (IsPlace (tree_of a.now) (type_given left.now) (first_cuts (tree_of a.now) cuts.now) × IsUntouched (tree_of b.now) (type_given left.now) (second_cuts (tree_of a.now) cuts.now)) }
{
    let (first, rest) = parted(a, cuts);
    is_place(a, left, first) && is_untouched(b, left, rest)
}

// Whether nothing has begun of the bunch.
fn is_untouched(b: &Bunch, left: &[(Name, Ty)], cuts: &[bool]) -> bool
    ensures { IsTrue result ↔ IsUntouched (tree_of b.now) (type_given left.now) cuts.now }
{
    are_declared(b, b, left) && is_uncut(b, cuts)
}
