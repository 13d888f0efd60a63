//! Two prefixes, one after the other.

ghost use Rattle.std.specs.Prelude.{◌≡◌, map, IfOk, IsTrue};
ghost use Rattle.stream_prefix.specs.StreamPrefix.{join, Follows};
ghost use Rattle.stream_prefix.specs.Fit.{Fits, is_of_star};
ghost use Rattle.stream_prefix.specs.Tree.{prefix_of, end_of, star_of};

use crate::prefix::{Prefix, StarEnd};
use std::alloc::Global;
use stream_type::Memory;

/// The prefix `p`, and after it `q`, a prefix of what `p` leaves of some type: `join` in
/// `specs/StreamPrefix.antt`. Its only error is want of memory; `p` and `q` are dropped then.
#[tactic(auto, using(crate::proofs::Follow::fits_from_follows))]
pub fn join(alloc: Global, p: Prefix, q: Prefix) -> Result<Prefix, Memory>
    requires { Follows (prefix_of p) (prefix_of q) }
    ensures { IfOk result (λ r. prefix_of r ≡ join (prefix_of p) (prefix_of q)) }
{
    join_fitting(alloc, p, q)
}

// The recursion, for which the forms of the two trees are enough. The arms with `_` are never taken
// under `join`, since `q` follows `p`.
#[cycle(join)]
#[tactic(auto, using(crate::proofs::Follow::follow))]
fn join_fitting(alloc: Global, p: Prefix, q: Prefix) -> Result<Prefix, Memory>
    requires { Fits (prefix_of p) (prefix_of q) }
    ensures { IfOk result (λ r. prefix_of r ≡ join (prefix_of p) (prefix_of q)) }
{
    match p {
        Prefix::OneEmp | Prefix::IntEmp | Prefix::SumEmp => Ok(q),
        Prefix::EpsEmp | Prefix::OneFull | Prefix::IntFull(_) => Ok(p),
        Prefix::Par(a, b) => match q {
            Prefix::Par(c, d) => Ok(Prefix::Par(
                join_boxes(alloc, a, c)?,
                join_boxes(alloc, b, d)?,
            )),
            _ => Ok(Prefix::Par(a, b)),
        },
        Prefix::CatFst(a) => match q {
            Prefix::CatFst(b) => Ok(Prefix::CatFst(join_boxes(alloc, a, b)?)),
            Prefix::CatBoth(b, c) => Ok(Prefix::CatBoth(join_boxes(alloc, a, b)?, c)),
            _ => Ok(Prefix::CatFst(a)),
        },
        Prefix::CatBoth(a, b) => {
            let b = join_fitting(alloc, Box::into_inner(b), q)?;
            Ok(Prefix::CatBoth(a, Box::new(alloc, b)?))
        }
        Prefix::Inl(a) => {
            let a = join_fitting(alloc, Box::into_inner(a), q)?;
            Ok(Prefix::Inl(Box::new(alloc, a)?))
        }
        Prefix::Inr(a) => {
            let a = join_fitting(alloc, Box::into_inner(a), q)?;
            Ok(Prefix::Inr(Box::new(alloc, a)?))
        }
        Prefix::Star(items, end) => {
            let rest = join_end(alloc, end, q)?;
            put_before(items, rest)
        }
    }
}

// The same under a box.
#[cycle(join)]
#[tactic(auto, using(crate::proofs::Follow::follow))]
fn join_boxes(alloc: Global, p: Box<Prefix>, q: Box<Prefix>) -> Result<Box<Prefix>, Memory>
    requires { Fits (prefix_of p.value) (prefix_of q.value) }
    ensures { IfOk result (λ r. prefix_of r.value ≡ join (prefix_of p.value) (prefix_of q.value)) }
{
    let r = join_fitting(alloc, Box::into_inner(p), Box::into_inner(q))?;
    Ok(Box::new(alloc, r)?)
}

// What comes after a star's whole items.
#[cycle(join)]
#[tactic(auto, using(crate::proofs::Follow::follow))]
fn join_end(alloc: Global, end: StarEnd, q: Prefix) -> Result<Prefix, Memory>
    requires { Fits (end_of end) (prefix_of q) }
    ensures value { IfOk result (λ r. prefix_of r ≡ join (end_of end) (prefix_of q)) }
    ensures form { IfOk result (λ r. IsTrue (is_of_star (prefix_of r))) }
{
    match end {
        StarEnd::Emp => Ok(q),
        StarEnd::Done => Ok(Prefix::Star(Vec::new(alloc), StarEnd::Done)),
        StarEnd::First(a) => match q {
            Prefix::CatFst(b) => Ok(Prefix::Star(
                Vec::new(alloc),
                StarEnd::First(join_boxes(alloc, a, b)?),
            )),
            Prefix::CatBoth(b, rest) => {
                let mut items = Vec::new(alloc);
                items.push(join_fitting(alloc, Box::into_inner(a), Box::into_inner(b))?)?;
                put_before(items, Box::into_inner(rest))
            }
            _ => Ok(Prefix::Star(Vec::new(alloc), StarEnd::First(a))),
        },
    }
}

// Whole items in front of a star's prefix.
#[tactic(auto, using(crate::proofs::Follow::follow))]
fn put_before(mut items: Vec<Prefix>, rest: Prefix) -> Result<Prefix, Memory>
    requires { IsTrue (is_of_star (prefix_of rest)) }
    ensures { IfOk result (λ r. prefix_of r ≡ star_of (map prefix_of items.items) (prefix_of rest)) }
{
    match rest {
        Prefix::Star(mut more, end) => {
            items.append(&mut more)?;
            Ok(Prefix::Star(items, end))
        }
        _ => Ok(rest),
    }
}
