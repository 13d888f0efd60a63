//! The parts of types and of prefixes by their form: `specs/Parts.antt`.

ghost use Rattle.std.specs.Prelude.{◌≡◌, IfOk};
ghost use Rattle.stream_type.specs.StreamType.{type_of, eps};
ghost use Rattle.stream_prefix.specs.StreamPrefix.{eps_emp, emp};
ghost use Rattle.stream_prefix.specs.Tree.{prefix_of};
ghost use Rattle.core_term.specs.Parts.{par_left, par_right, cat_first, cat_second, sum_left, sum_right, star_item, star_items, left_part, right_part};

use std::alloc::Global;
use stream_prefix::Prefix;
use stream_type::{Memory, Ty};

/// The two types that come at once, or `eps` twice.
pub fn par_types<'a>(t: &'a Ty, other: &'a Ty) -> (&'a Ty, &'a Ty)
    requires { type_of other.now ≡ eps }
    ensures left { type_of result.0.now ≡ par_left (type_of t.now) }
    ensures right { type_of result.1.now ≡ par_right (type_of t.now) }
{
    match t {
        Ty::Par(a, b) => (a, b),
        Ty::Eps | Ty::One | Ty::Int | Ty::Cat(_, _) | Ty::Sum(_, _) | Ty::Star(_) => (other, other),
    }
}

/// The two types that come one after the other, or `eps` twice.
pub fn cat_types<'a>(t: &'a Ty, other: &'a Ty) -> (&'a Ty, &'a Ty)
    requires { type_of other.now ≡ eps }
    ensures first { type_of result.0.now ≡ cat_first (type_of t.now) }
    ensures second { type_of result.1.now ≡ cat_second (type_of t.now) }
{
    match t {
        Ty::Cat(a, b) => (a, b),
        Ty::Eps | Ty::One | Ty::Int | Ty::Par(_, _) | Ty::Sum(_, _) | Ty::Star(_) => (other, other),
    }
}

/// The two sides of a sum, or `eps` twice.
pub fn sum_types<'a>(t: &'a Ty, other: &'a Ty) -> (&'a Ty, &'a Ty)
    requires { type_of other.now ≡ eps }
    ensures left { type_of result.0.now ≡ sum_left (type_of t.now) }
    ensures right { type_of result.1.now ≡ sum_right (type_of t.now) }
{
    match t {
        Ty::Sum(a, b) => (a, b),
        Ty::Eps | Ty::One | Ty::Int | Ty::Par(_, _) | Ty::Cat(_, _) | Ty::Star(_) => (other, other),
    }
}

/// An item of a star and the items after it, or `eps` twice.
pub fn star_types<'a>(t: &'a Ty, other: &'a Ty) -> (&'a Ty, &'a Ty)
    requires { type_of other.now ≡ eps }
    ensures item { type_of result.0.now ≡ star_item (type_of t.now) }
    ensures items { type_of result.1.now ≡ star_items (type_of t.now) }
{
    match t {
        Ty::Star(a) => (a, t),
        Ty::Eps | Ty::One | Ty::Int | Ty::Par(_, _) | Ty::Cat(_, _) | Ty::Sum(_, _) => (
            other, other,
        ),
    }
}

/// What came on each of two streams at once, or nothing.
#[tactic(auto, using(crate::proofs::StarForms::star_forms))]
pub fn par_parts<'a>(p: &'a Prefix, nothing: &'a Prefix) -> (&'a Prefix, &'a Prefix)
    requires { prefix_of nothing.now ≡ eps_emp }
    ensures left { prefix_of result.0.now ≡ left_part (prefix_of p.now) }
    ensures right { prefix_of result.1.now ≡ right_part (prefix_of p.now) }
{
    match p {
        Prefix::Par(a, b) => (a, b),
        Prefix::EpsEmp
        | Prefix::OneEmp
        | Prefix::OneFull
        | Prefix::IntEmp
        | Prefix::IntFull(_)
        | Prefix::CatFst(_)
        | Prefix::CatBoth(_, _)
        | Prefix::SumEmp
        | Prefix::Inl(_)
        | Prefix::Inr(_)
        | Prefix::Star(_, _) => (nothing, nothing),
    }
}

/// An equal prefix. Its only error is want of memory.
pub fn copied(alloc: Global, p: &Prefix) -> Result<Box<Prefix>, Memory>
    ensures { IfOk result (λ r. prefix_of r.value ≡ prefix_of p.now) }
{
    let copy = stream_prefix::copy(alloc, p)?;
    Ok(Box::new(alloc, copy)?)
}

/// The empty prefix of a type. Its only error is want of memory.
pub fn nothing_yet(alloc: Global, t: &Ty) -> Result<Box<Prefix>, Memory>
    ensures { IfOk result (λ r. prefix_of r.value ≡ emp (type_of t.now)) }
{
    let nothing = stream_prefix::empty(alloc, t)?;
    Ok(Box::new(alloc, nothing)?)
}
