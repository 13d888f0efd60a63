//! One event: the prefix that it is, and what it leaves of the type.

ghost use Rattle.std.specs.Prelude.{◌≡◌, [], IfOk};
ghost use Rattle.stream_type.specs.StreamType.{type_of};
ghost use Rattle.stream_prefix.specs.StreamPrefix.{emp, IsPrefix};
ghost use Rattle.stream_prefix.specs.Tree.{prefix_of};
ghost use Rattle.event_word.specs.Admits.{Admits};
ghost use Rattle.event_word.specs.Word.{one_at, one_of, after};

use crate::event::{Event, Leaf, Step};
use std::alloc::Global;
use stream_prefix::{Prefix, StarEnd};
use stream_type::{Memory, Ty};

/// The event as a prefix of the type that admits it (`one_of` of `specs/Word.antt`). Its one
/// error is want of memory.
#[tactic(auto, using(crate::proofs::Words::one_of_is_prefix))]
pub fn one(alloc: Global, t: &Ty, x: &Event) -> Result<Prefix, Memory>
    requires { Admits (type_of t.now) x.now }
    ensures value { IfOk result (λ p. prefix_of p ≡ one_of x.now (type_of t.now)) }
    ensures prefix { IfOk result (λ p. IsPrefix (type_of t.now) (prefix_of p)) }
{
    one_at(alloc, t, x.path(), x.leaf())
}

fn one_at(alloc: Global, t: &Ty, path: &[Step], leaf: Leaf) -> Result<Prefix, Memory>
    ensures { IfOk result (λ p. prefix_of p ≡ one_at path.now leaf (type_of t.now)) }
{
    match path.split_first() {
        None => leaf_at(alloc, t, leaf),
        Some((step, rest)) => match (step, t) {
            (Step::Left, Ty::Par(s, t)) => Ok(Prefix::Par(
                Box::new(alloc, one_at(alloc, s, rest, leaf)?)?,
                empty_box(alloc, t)?,
            )),
            (Step::Right, Ty::Par(s, t)) => Ok(Prefix::Par(
                empty_box(alloc, s)?,
                Box::new(alloc, one_at(alloc, t, rest, leaf)?)?,
            )),
            (Step::First, Ty::Cat(s, _)) => Ok(Prefix::CatFst(Box::new(
                alloc,
                one_at(alloc, s, rest, leaf)?,
            )?)),
            _ => stream_prefix::empty(alloc, t),
        },
    }
}

// An event with no step.
#[tactic(auto, using(stream_prefix::proofs::Rows::rows))]
fn leaf_at(alloc: Global, t: &Ty, leaf: Leaf) -> Result<Prefix, Memory>
    ensures { IfOk result (λ p. prefix_of p ≡ one_at [] leaf (type_of t.now)) }
{
    match (leaf, t) {
        (Leaf::One, Ty::One) => Ok(Prefix::OneFull),
        (Leaf::Int(n), Ty::Int) => Ok(Prefix::IntFull(n)),
        (Leaf::Inl, Ty::Sum(s, _)) => Ok(Prefix::Inl(empty_box(alloc, s)?)),
        (Leaf::Inr, Ty::Sum(_, t)) => Ok(Prefix::Inr(empty_box(alloc, t)?)),
        (Leaf::Cut, Ty::Cat(s, t)) => Ok(Prefix::CatBoth(
            empty_box(alloc, s)?,
            empty_box(alloc, t)?,
        )),
        (Leaf::Item, Ty::Star(s)) => Ok(Prefix::Star(
            Vec::new(alloc),
            StarEnd::First(empty_box(alloc, s)?),
        )),
        (Leaf::End, Ty::Star(_)) => Ok(Prefix::Star(Vec::new(alloc), StarEnd::Done)),
        _ => stream_prefix::empty(alloc, t),
    }
}

fn empty_box(alloc: Global, t: &Ty) -> Result<Box<Prefix>, Memory>
    ensures { IfOk result (λ p. prefix_of p.value ≡ emp (type_of t.now)) }
{
    Ok(Box::new(alloc, stream_prefix::empty(alloc, t)?)?)
}

/// What is left of the type after an event that it admits (`after` of `specs/Word.antt`). Its one
/// error is want of memory.
pub fn after(alloc: Global, t: &Ty, x: &Event) -> Result<Ty, Memory>
    requires { Admits (type_of t.now) x.now }
    ensures { IfOk result (λ r. type_of r ≡ after x.now (type_of t.now)) }
{
    let p = one(alloc, t, x)?;
    stream_prefix::derive(alloc, t, &p)
}
