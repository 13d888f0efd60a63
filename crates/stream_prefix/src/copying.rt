//! One more of a prefix.

ghost use Rattle.std.specs.Prelude.{◌≡◌, map, IfOk};
ghost use Rattle.stream_prefix.specs.Tree.{prefix_of, end_of};

use crate::prefix::{Prefix, StarEnd};
use std::alloc::Global;
use stream_type::Memory;

/// An equal prefix. Its only error is want of memory.
#[cycle(copy)]
#[tactic(auto, using(crate::proofs::Rows::rows))]
pub fn copy(alloc: Global, p: &Prefix) -> Result<Prefix, Memory>
    ensures { IfOk result (λ r. prefix_of r ≡ prefix_of p.now) }
{
    match p {
        Prefix::EpsEmp => Ok(Prefix::EpsEmp),
        Prefix::OneEmp => Ok(Prefix::OneEmp),
        Prefix::OneFull => Ok(Prefix::OneFull),
        Prefix::IntEmp => Ok(Prefix::IntEmp),
        Prefix::IntFull(n) => Ok(Prefix::IntFull(*n)),
        Prefix::Par(p, q) => Ok(Prefix::Par(copy_box(alloc, p)?, copy_box(alloc, q)?)),
        Prefix::CatFst(p) => Ok(Prefix::CatFst(copy_box(alloc, p)?)),
        Prefix::CatBoth(p, q) => Ok(Prefix::CatBoth(copy_box(alloc, p)?, copy_box(alloc, q)?)),
        Prefix::SumEmp => Ok(Prefix::SumEmp),
        Prefix::Inl(p) => Ok(Prefix::Inl(copy_box(alloc, p)?)),
        Prefix::Inr(p) => Ok(Prefix::Inr(copy_box(alloc, p)?)),
        Prefix::Star(items, end) => {
            Ok(Prefix::Star(copy_items(alloc, items)?, copy_end(alloc, end)?))
        }
    }
}

#[cycle(copy)]
fn copy_box(alloc: Global, p: &Prefix) -> Result<Box<Prefix>, Memory>
    ensures { IfOk result (λ r. prefix_of r.value ≡ prefix_of p.now) }
{
    Ok(Box::new(alloc, copy(alloc, p)?)?)
}

#[cycle(copy)]
fn copy_items(alloc: Global, items: &[Prefix]) -> Result<Vec<Prefix>, Memory>
    ensures { IfOk result (λ v. map prefix_of v.items ≡ map prefix_of items.now) }
{
    let mut copies = Vec::new(alloc);
    for item in items {
        copies.push(copy(alloc, item)?)?;
    }
    Ok(copies)
}

#[cycle(copy)]
fn copy_end(alloc: Global, end: &StarEnd) -> Result<StarEnd, Memory>
    ensures { IfOk result (λ e. end_of e ≡ end_of end.now) }
{
    match end {
        StarEnd::Emp => Ok(StarEnd::Emp),
        StarEnd::Done => Ok(StarEnd::Done),
        StarEnd::First(p) => Ok(StarEnd::First(copy_box(alloc, p)?)),
    }
}
