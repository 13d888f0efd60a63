//! Which trees are prefixes of a type, which of these is the empty one, and which are maximal.

ghost use Rattle.std.specs.Prelude.{◌≡◌, ◌↔◌, map, false, IfOk, IsTrue};
ghost use Rattle.stream_type.specs.StreamType.{type_of, star};
ghost use Rattle.stream_prefix.specs.StreamPrefix.{emp, is_maximal, star_done, IsPrefix};
ghost use Rattle.stream_prefix.specs.Tree.{prefix_of, end_of, star_of};

use crate::prefix::{Prefix, StarEnd};
use std::alloc::Global;
use stream_type::{Memory, Ty};

/// The prefix of a stream of type `t` on which nothing has come: `emp` in
/// `specs/StreamPrefix.antt`. Its only error is want of memory.
#[tactic(auto, using(crate::proofs::Rows::rows))]
pub fn empty(alloc: Global, t: &Ty) -> Result<Prefix, Memory>
    ensures { IfOk result (λ p. prefix_of p ≡ emp (type_of t.now)) }
{
    match t {
        Ty::Eps => Ok(Prefix::EpsEmp),
        Ty::One => Ok(Prefix::OneEmp),
        Ty::Int => Ok(Prefix::IntEmp),
        Ty::Cat(s, _) => Ok(Prefix::CatFst(Box::new(alloc, empty(alloc, s)?)?)),
        Ty::Par(s, t) => Ok(Prefix::Par(
            Box::new(alloc, empty(alloc, s)?)?,
            Box::new(alloc, empty(alloc, t)?)?,
        )),
        Ty::Sum(_, _) => Ok(Prefix::SumEmp),
        Ty::Star(_) => Ok(Prefix::Star(Vec::new(alloc), StarEnd::Emp)),
    }
}

/// Whether the stream is whole, so that nothing more can come: `is_maximal` in
/// `specs/StreamPrefix.antt`. It means this where `p` is a prefix of some type. What came first of a
/// stream that goes on isn't looked at.
pub fn maximal(p: &Prefix) -> bool
    ensures { result ≡ is_maximal (prefix_of p.now) }
{
    !goes_on(p) && lacks_nothing(p)
}

// Whether more is to come where the stream stands now, whatever came before.
#[tactic(auto, using(crate::proofs::Rows::rows, crate::proofs::Rows::no_second))]
fn goes_on(p: &Prefix) -> bool
    ensures { IsTrue result → is_maximal (prefix_of p.now) ≡ false }
{
    match p {
        Prefix::EpsEmp | Prefix::OneFull | Prefix::IntFull(_) => false,
        Prefix::Par(p, q) => goes_on(p) || goes_on(q),
        Prefix::CatBoth(_, p) | Prefix::Inl(p) | Prefix::Inr(p) => goes_on(p),
        Prefix::Star(_, end) => !is_done(end),
        Prefix::OneEmp | Prefix::IntEmp | Prefix::CatFst(_) | Prefix::SumEmp => true,
    }
}

// Whether no part of the stream lacks anything.
#[cycle(maximal)]
#[tactic(auto, using(crate::proofs::Rows::rows))]
fn lacks_nothing(p: &Prefix) -> bool
    ensures { result ≡ is_maximal (prefix_of p.now) }
{
    match p {
        Prefix::EpsEmp | Prefix::OneFull | Prefix::IntFull(_) => true,
        Prefix::Par(p, q) | Prefix::CatBoth(p, q) => lacks_nothing(p) && lacks_nothing(q),
        Prefix::Inl(p) | Prefix::Inr(p) => lacks_nothing(p),
        Prefix::Star(items, end) => all_maximal(items) && is_done(end),
        Prefix::OneEmp | Prefix::IntEmp | Prefix::CatFst(_) | Prefix::SumEmp => false,
    }
}

// Whether no item lacks anything.
#[cycle(maximal)]
fn all_maximal(items: &[Prefix]) -> bool
    ensures { result ≡ is_maximal (star_of (map prefix_of items.now) star_done) }
{
    for item in items {
        if !lacks_nothing(item) {
            return false;
        }
    }
    true
}

// Whether a star has come to its end.
fn is_done(end: &StarEnd) -> bool
    ensures { result ≡ is_maximal (end_of end.now) }
{
    matches!(end, StarEnd::Done)
}

/// Whether `p` is a prefix of the streams of type `t`: `IsPrefix` in `specs/StreamPrefix.antt`.
#[cycle(is_prefix)]
#[tactic(auto, using(crate::proofs::Rows::rows))]
pub fn is_prefix(t: &Ty, p: &Prefix) -> bool
    ensures { IsTrue result ↔ IsPrefix (type_of t.now) (prefix_of p.now) }
{
    match p {
        Prefix::EpsEmp => matches!(t, Ty::Eps),
        Prefix::OneEmp | Prefix::OneFull => matches!(t, Ty::One),
        Prefix::IntEmp | Prefix::IntFull(_) => matches!(t, Ty::Int),
        Prefix::Par(p, q) => match t {
            Ty::Par(s, t) => is_prefix(s, p) && is_prefix(t, q),
            _ => false,
        },
        Prefix::CatFst(p) => match t {
            Ty::Cat(s, _) => is_prefix(s, p),
            _ => false,
        },
        Prefix::CatBoth(p, q) => match t {
            Ty::Cat(s, t) => is_prefix(s, p) && maximal(p) && is_prefix(t, q),
            _ => false,
        },
        Prefix::SumEmp => matches!(t, Ty::Sum(_, _)),
        Prefix::Inl(p) => match t {
            Ty::Sum(s, _) => is_prefix(s, p),
            _ => false,
        },
        Prefix::Inr(p) => match t {
            Ty::Sum(_, t) => is_prefix(t, p),
            _ => false,
        },
        Prefix::Star(items, end) => match t {
            Ty::Star(s) => all_whole(s, items) && end_fits(s, end),
            _ => false,
        },
    }
}

// Whether each item is a whole stream of the type.
#[cycle(is_prefix)]
fn all_whole(s: &Ty, items: &[Prefix]) -> bool
    ensures { IsTrue result ↔ IsPrefix (star (type_of s.now)) (star_of (map prefix_of items.now) star_done) }
{
    for item in items {
        if !(is_prefix(s, item) && maximal(item)) {
            return false;
        }
    }
    true
}

// Whether what comes after the whole items is a prefix of the star.
#[cycle(is_prefix)]
fn end_fits(s: &Ty, end: &StarEnd) -> bool
    ensures { IsTrue result ↔ IsPrefix (star (type_of s.now)) (end_of end.now) }
{
    match end {
        StarEnd::Emp | StarEnd::Done => true,
        StarEnd::First(p) => is_prefix(s, p),
    }
}
