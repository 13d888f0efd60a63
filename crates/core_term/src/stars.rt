//! Prefixes of stars.

ghost use Rattle.std.specs.Prelude.{◌≡◌, IfOk};
ghost use Rattle.stream_prefix.specs.StreamPrefix.{star_done, star_rest};
ghost use Rattle.stream_prefix.specs.Tree.{prefix_of};
ghost use Rattle.core_term.specs.Parts.{as_star};

use std::alloc::Global;
use stream_prefix::{Prefix, StarEnd};
use stream_type::Memory;

/// A prefix of an item and the items after it as one of a star. Its only error is want of memory; it counts
/// as that where the items after it are no star, which no typed program gives.
#[tactic(auto, using(crate::proofs::StarForms::star_forms))]
pub fn as_star(alloc: Global, p: Prefix) -> Result<Prefix, Memory>
    ensures { IfOk result (λ r. prefix_of r ≡ as_star (prefix_of p)) }
{
    match p {
        Prefix::CatFst(a) => Ok(Prefix::Star(Vec::new(alloc), StarEnd::First(a))),
        Prefix::CatBoth(a, b) => put_before(alloc, Box::into_inner(a), Box::into_inner(b)),
        Prefix::EpsEmp
        | Prefix::OneEmp
        | Prefix::OneFull
        | Prefix::IntEmp
        | Prefix::IntFull(_)
        | Prefix::Par(_, _)
        | Prefix::SumEmp
        | Prefix::Inl(_)
        | Prefix::Inr(_)
        | Prefix::Star(_, _) => Ok(p),
    }
}

// A whole item before the rest of a star.
#[tactic(auto, using(crate::proofs::StarForms::star_forms))]
fn put_before(alloc: Global, item: Prefix, rest: Prefix) -> Result<Prefix, Memory>
    ensures { IfOk result (λ r. prefix_of r ≡ star_rest (prefix_of item) (prefix_of rest)) }
{
    match rest {
        Prefix::Star(mut more, end) => {
            let mut items = Vec::new(alloc);
            items.push(item)?;
            items.append(&mut more)?;
            Ok(Prefix::Star(items, end))
        }
        _ => Err(Memory),
    }
}

/// A star that is over.
#[tactic(auto, using(crate::proofs::StarForms::star_forms))]
pub fn over_star(alloc: Global) -> Prefix
    ensures { prefix_of result ≡ star_done }
{
    Prefix::Star(Vec::new(alloc), StarEnd::Done)
}
