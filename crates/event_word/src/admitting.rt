//! Which events a type admits, and the fault of the others.

ghost use Rattle.std.specs.Prelude.{◌≡◌, ◌+◌, ◌^◌, ◌<◌, ◌↔◌, None, Some, length, MatchResult, IsOk};
ghost use Rattle.stream_type.specs.StreamType.{type_of};
ghost use Rattle.event_word.specs.declared.fault.EventFault.{EventFault};
ghost use Rattle.event_word.specs.Admits.{Admits};
ghost use Rattle.event_word.specs.EventFault.{leaf_fault, fault_from, fault_of};

use crate::event::{Event, Leaf, Step};
use crate::fault::EventFault;
use stream_type::Ty;

/// Whether the type admits the event (`specs/Admits.antt`), and else the fault of the walk along
/// its steps (`specs/EventFault.antt`), which counts the steps walked. It takes no memory.
#[tactic(auto, using(crate::proofs::Walks::walks))]
pub fn admits(t: &Ty, x: &Event) -> Result<(), EventFault>
    ensures ok { IsOk result ↔ Admits (type_of t.now) x.now }
    ensures fault { (e : EventFault) → (result ≡ Err e) ↔ (fault_of x.now (type_of t.now) ≡ Some e) }
{
    walk(t, x.path(), x.leaf(), 0)
}

// The walk from a place on, after `depth` steps.
#[tactic(auto, using(crate::proofs::Walks::walks))]
fn walk(t: &Ty, path: &[Step], leaf: Leaf, depth: u32) -> Result<(), EventFault>
    requires { depth + length path.now < 2 ^ 32 }
    ensures { MatchResult result
        (λ _. fault_from depth path.now leaf (type_of t.now) ≡ None)
        (λ e. fault_from depth path.now leaf (type_of t.now) ≡ Some e) }
{
    if stream_type::null(t) {
        return Err(EventFault::Ended(depth));
    }
    match path.split_first() {
        None => stop(t, leaf, depth),
        Some((step, rest)) => match (step, t) {
            (Step::Left, Ty::Par(s, _)) => walk(s, rest, leaf, depth + 1),
            (Step::Right, Ty::Par(_, s)) => walk(s, rest, leaf, depth + 1),
            (Step::First, Ty::Cat(s, _)) => walk(s, rest, leaf, depth + 1),
            _ => Err(EventFault::WrongStep(depth)),
        },
    }
}

// The end of the walk, where no step is left.
fn stop(t: &Ty, leaf: Leaf, depth: u32) -> Result<(), EventFault>
    ensures { MatchResult result
        (λ _. leaf_fault depth leaf (type_of t.now) ≡ None)
        (λ e. leaf_fault depth leaf (type_of t.now) ≡ Some e) }
{
    match (leaf, t) {
        (Leaf::One, Ty::One) | (Leaf::Int(_), Ty::Int) => Ok(()),
        (Leaf::Inl | Leaf::Inr, Ty::Sum(_, _)) | (Leaf::Item | Leaf::End, Ty::Star(_)) => Ok(()),
        (Leaf::Cut, Ty::Cat(s, _)) => {
            if stream_type::null(s) {
                Ok(())
            } else {
                Err(EventFault::EarlyCut(depth))
            }
        }
        _ => Err(EventFault::WrongLeaf(depth)),
    }
}
