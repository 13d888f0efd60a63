//! What is left of a type after one of its prefixes.

ghost use Rattle.std.specs.Prelude.{◌≡◌, IfOk};
ghost use Rattle.stream_type.specs.StreamType.{type_of};
ghost use Rattle.stream_prefix.specs.StreamPrefix.{IsPrefix, der};
ghost use Rattle.stream_prefix.specs.Tree.{prefix_of, end_of};

use crate::prefix::{Prefix, StarEnd};
use std::alloc::Global;
use stream_type::{Memory, Ty};

/// The derivative: what is left of the type `t` after its prefix `p`, `der` in
/// `specs/StreamPrefix.antt`. It may be taller than `t`, but reaches no farther (`laws::reach_falls`).
/// Its only error is want of memory.
// The arms with `_` are never taken, since `p` is a prefix of `t`.
#[cycle(derive)]
#[tactic(auto, using(crate::proofs::Rows::rows))]
pub fn derive(alloc: Global, t: &Ty, p: &Prefix) -> Result<Ty, Memory>
    requires { IsPrefix (type_of t.now) (prefix_of p.now) }
    ensures { IfOk result (λ r. type_of r ≡ der (prefix_of p.now) (type_of t.now)) }
{
    match p {
        Prefix::EpsEmp | Prefix::OneFull | Prefix::IntFull(_) => Ok(Ty::Eps),
        Prefix::OneEmp | Prefix::IntEmp | Prefix::SumEmp => stream_type::copy(alloc, t),
        Prefix::Par(p, q) => match t {
            Ty::Par(s, t) => stream_type::par(alloc, derive(alloc, s, p)?, derive(alloc, t, q)?),
            _ => stream_type::copy(alloc, t),
        },
        Prefix::CatFst(p) => match t {
            Ty::Cat(s, t) => {
                stream_type::cat(alloc, derive(alloc, s, p)?, stream_type::copy(alloc, t)?)
            }
            _ => stream_type::copy(alloc, t),
        },
        Prefix::CatBoth(_, q) => match t {
            Ty::Cat(_, t) => derive(alloc, t, q),
            _ => stream_type::copy(alloc, t),
        },
        Prefix::Inl(p) => match t {
            Ty::Sum(s, _) => derive(alloc, s, p),
            _ => stream_type::copy(alloc, t),
        },
        Prefix::Inr(p) => match t {
            Ty::Sum(_, t) => derive(alloc, t, p),
            _ => stream_type::copy(alloc, t),
        },
        Prefix::Star(_, end) => derive_end(alloc, t, end),
    }
}

// What is left of a star after its whole items and this end.
#[cycle(derive)]
fn derive_end(alloc: Global, t: &Ty, end: &StarEnd) -> Result<Ty, Memory>
    requires { IsPrefix (type_of t.now) (end_of end.now) }
    ensures { IfOk result (λ r. type_of r ≡ der (end_of end.now) (type_of t.now)) }
{
    match end {
        StarEnd::Emp => stream_type::copy(alloc, t),
        StarEnd::Done => Ok(Ty::Eps),
        StarEnd::First(p) => match t {
            Ty::Star(s) => {
                stream_type::cat(alloc, derive(alloc, s, p)?, stream_type::copy(alloc, t)?)
            }
            _ => stream_type::copy(alloc, t),
        },
    }
}
