//! A type moved on by an event.

ghost use Rattle.std.specs.Prelude.{◌≡◌, [], OnOk, OnErr};
ghost use Rattle.stream_type.specs.StreamType.{type_of};
ghost use Rattle.stream_prefix.specs.StreamPrefix.{der};
ghost use Rattle.event_word.specs.Word.{one_at, after};

use event_word::{Event, Leaf, Step};
use std::alloc::Global;
use std::mem;
use stream_type::{Memory, Ty};

/// Puts what is left of a type after an event in the type's place: `after` in `event_word`. Only what stands on the
/// event's path changes, and an item alone takes memory, that of its type. After want of memory the type is as it
/// was.
pub fn go_after(alloc: Global, t: &mut Ty, x: &Event) -> Result<(), Memory>
    ensures left { OnOk result (type_of t.new ≡ after x.now (type_of t.old)) }
    ensures same { OnErr result (t.new ≡ t.old) }
{
    go_at(alloc, t, x.path(), x.leaf())
}

// The same of a path's steps and its leaf.
#[tactic(auto, using(crate::proofs::Moves::moves))]
fn go_at(alloc: Global, t: &mut Ty, path: &[Step], leaf: Leaf) -> Result<(), Memory>
    ensures left { OnOk result (type_of t.new ≡ der (one_at path.now leaf (type_of t.old)) (type_of t.old)) }
    ensures same { OnErr result (t.new ≡ t.old) }
{
    match path.split_first() {
        None => leaf_at(alloc, t, leaf),
        Some((step, rest)) => match (step, t) {
            (Step::Left, Ty::Par(s, _)) => go_at(alloc, s, rest, leaf),
            (Step::Right, Ty::Par(_, s)) => go_at(alloc, s, rest, leaf),
            (Step::First, Ty::Cat(s, _)) => go_at(alloc, s, rest, leaf),
            _ => Ok(()),
        },
    }
}

// An event with no step.
#[tactic(auto, using(crate::proofs::Moves::moves))]
fn leaf_at(alloc: Global, t: &mut Ty, leaf: Leaf) -> Result<(), Memory>
    ensures left { OnOk result (type_of t.new ≡ der (one_at [] leaf (type_of t.old)) (type_of t.old)) }
    ensures same { OnErr result (t.new ≡ t.old) }
{
    match (leaf, &mut *t) {
        (Leaf::One, Ty::One) | (Leaf::Int(_), Ty::Int) | (Leaf::End, Ty::Star(_)) => {
            *t = Ty::Eps;
            Ok(())
        }
        (Leaf::Inl, Ty::Sum(s, _)) | (Leaf::Inr, Ty::Sum(_, s)) | (Leaf::Cut, Ty::Cat(_, s)) => {
            let part = mem::replace(&mut **s, Ty::Eps);
            *t = part;
            Ok(())
        }
        (Leaf::Item, Ty::Star(_)) => item_at(alloc, t),
        _ => Ok(()),
    }
}

// An item begins: it comes, and then the type again.
#[tactic(auto, using(crate::proofs::Moves::moves))]
fn item_at(alloc: Global, t: &mut Ty) -> Result<(), Memory>
    ensures left { OnOk result (type_of t.new ≡ der (one_at [] Leaf.Item (type_of t.old)) (type_of t.old)) }
    ensures same { OnErr result (t.new ≡ t.old) }
{
    if let Ty::Star(s) = t {
        let item = stream_type::copy(alloc, s)?;
        let item = Box::new(alloc, item)?;
        let mut after = Box::new(alloc, Ty::Eps)?;
        mem::swap(&mut *after, t);
        *t = Ty::Cat(item, after);
    }
    Ok(())
}
