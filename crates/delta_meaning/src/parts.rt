//! What has come on the parts of a stream by its form, as `core_term` defines them.

ghost use Rattle.std.specs.Prelude.{◌≡◌, IfOk};
ghost use Rattle.stream_type.specs.StreamType.{StreamType, type_of};
ghost use Rattle.stream_prefix.specs.StreamPrefix.{StreamPrefix};
ghost use Rattle.stream_prefix.specs.Tree.{prefix_of, end_of};
ghost use Rattle.core_term.specs.Parts.{first_part, second_part};
ghost use Rattle.core_term.specs.Run.{Run, sum_run, star_run};
ghost use Rattle.delta_meaning.specs.Evaluated.{sided_run, taken_run};

use core_term::parts::{copied, nothing_yet};
use std::alloc::Global;
use stream_prefix::{Prefix, StarEnd};
use stream_type::{Memory, Ty};

/// What came on the first of two streams and on the one after it, which is of type `t`. Its only error is
/// want of memory.
#[tactic(auto, using(core_term::proofs::StarForms::star_forms))]
pub fn cat_parts(alloc: Global, t: &Ty, p: &Prefix) -> Result<(Box<Prefix>, Box<Prefix>), Memory>
    ensures first { IfOk result (λ r. prefix_of r.0.value ≡ first_part (prefix_of p.now)) }
    ensures second { IfOk result (λ r. prefix_of r.1.value ≡ second_part (type_of t.now) (prefix_of p.now)) }
{
    match p {
        Prefix::CatFst(a) => Ok((copied(alloc, a)?, nothing_yet(alloc, t)?)),
        Prefix::CatBoth(a, b) => Ok((copied(alloc, a)?, copied(alloc, b)?)),
        Prefix::EpsEmp
        | Prefix::OneEmp
        | Prefix::OneFull
        | Prefix::IntEmp
        | Prefix::IntFull(_)
        | Prefix::Par(_, _)
        | Prefix::SumEmp
        | Prefix::Inl(_)
        | Prefix::Inr(_)
        | Prefix::Star(_, _) => Ok((nothing_yet(alloc, &Ty::Eps)?, nothing_yet(alloc, t)?)),
    }
}

/// What has come of a sum.
#[derive(Clone, Copy)]
pub enum Sided<'a> {
    /// No side is chosen.
    Nothing,
    /// The left side is chosen, and this has come on it.
    Left(&'a Prefix),
    /// The right side is chosen, and this has come on it.
    Right(&'a Prefix),
}

/// What has come of a sum, by the side that is chosen; nothing, where it is no sum.
#[tactic(auto, using(core_term::proofs::StarForms::star_forms))]
pub fn side_taken(p: &Prefix) -> Sided<'_>
    ensures { (r : StreamType) (a b : StreamPrefix → Run) → sum_run r (prefix_of p.now) a b ≡ sided_run result r a b }
{
    match p {
        Prefix::Inl(q) => Sided::Left(q),
        Prefix::Inr(q) => Sided::Right(q),
        Prefix::EpsEmp
        | Prefix::OneEmp
        | Prefix::OneFull
        | Prefix::IntEmp
        | Prefix::IntFull(_)
        | Prefix::Par(_, _)
        | Prefix::CatFst(_)
        | Prefix::CatBoth(_, _)
        | Prefix::SumEmp
        | Prefix::Star(_, _) => Sided::Nothing,
    }
}

/// What has come of a star.
#[derive(Drop)]
pub enum Taken {
    /// Neither an item nor the end.
    Nothing,
    /// The end.
    Over,
    /// An item, or a part of one, and what came after it.
    Item(Prefix, Prefix),
}

/// What has come of a star, with its first item apart, in a box; nothing, where it is no star. Its only
/// error is want of memory.
pub fn boxed_taken(alloc: Global, p: &Prefix) -> Result<Box<Taken>, Memory>
    ensures { IfOk result (λ q. (r : StreamType) (a : Run) (b : StreamPrefix → StreamPrefix → Run) → star_run r (prefix_of p.now) a b ≡ taken_run q.value r a b) }
{
    let p = stream_prefix::copy(alloc, p)?;
    Ok(Box::new(alloc, star_taken(alloc, p))?)
}

// What has come of a star, with its first item apart; nothing, where it is no star.
#[tactic(auto, using(core_term::proofs::StarForms::star_forms))]
fn star_taken(alloc: Global, p: Prefix) -> Taken
    ensures { (r : StreamType) (a : Run) (b : StreamPrefix → StreamPrefix → Run) → star_run r (prefix_of p) a b ≡ taken_run result r a b }
{
    match p {
        Prefix::Star(mut items, end) => {
            if items.is_empty() {
                star_begun(alloc, end)
            } else {
                let item = items.remove(0);
                Taken::Item(item, Prefix::Star(items, end))
            }
        }
        Prefix::EpsEmp
        | Prefix::OneEmp
        | Prefix::OneFull
        | Prefix::IntEmp
        | Prefix::IntFull(_)
        | Prefix::Par(_, _)
        | Prefix::CatFst(_)
        | Prefix::CatBoth(_, _)
        | Prefix::SumEmp
        | Prefix::Inl(_)
        | Prefix::Inr(_) => Taken::Nothing,
    }
}

// What has come of a star without a whole item.
#[tactic(auto, using(core_term::proofs::StarForms::star_forms))]
fn star_begun(alloc: Global, end: StarEnd) -> Taken
    ensures { (r : StreamType) (a : Run) (b : StreamPrefix → StreamPrefix → Run) → star_run r (end_of end) a b ≡ taken_run result r a b }
{
    match end {
        StarEnd::Emp => Taken::Nothing,
        StarEnd::Done => Taken::Over,
        StarEnd::First(p) => {
            let rest = Prefix::Star(Vec::new(alloc), StarEnd::Emp);
            Taken::Item(Box::into_inner(p), rest)
        }
    }
}
