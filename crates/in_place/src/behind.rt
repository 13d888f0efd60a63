//! A type moved on by a prefix.

ghost use Rattle.std.specs.Prelude.{◌≡◌, OnOk};
ghost use Rattle.stream_type.specs.StreamType.{type_of};
ghost use Rattle.stream_prefix.specs.StreamPrefix.{der};
ghost use Rattle.stream_prefix.specs.Tree.{prefix_of, end_of};

use std::alloc::Global;
use std::mem;
use stream_prefix::{Prefix, StarEnd};
use stream_type::{Memory, Ty};

/// Puts the derivative of a type by a prefix in the type's place: `der` in `stream_prefix`. Only what the prefix
/// has something of changes, and an item that has begun alone takes memory, that of its type. After want of memory
/// the type is partly changed.
#[cycle(behind)]
#[tactic(auto, using(crate::proofs::Moves::moves))]
pub fn go_behind(alloc: Global, t: &mut Ty, p: &Prefix) -> Result<(), Memory>
    ensures { OnOk result (type_of t.new ≡ der (prefix_of p.now) (type_of t.old)) }
{
    match p {
        Prefix::OneEmp | Prefix::IntEmp | Prefix::SumEmp => Ok(()),
        Prefix::EpsEmp | Prefix::OneFull | Prefix::IntFull(_) => {
            *t = Ty::Eps;
            Ok(())
        }
        Prefix::Par(p, q) => {
            if let Ty::Par(s, u) = t {
                go_behind(alloc, s, p)?;
                go_behind(alloc, u, q)?;
            }
            Ok(())
        }
        Prefix::CatFst(p) => {
            if let Ty::Cat(s, _) = t {
                go_behind(alloc, s, p)?;
            }
            Ok(())
        }
        Prefix::CatBoth(_, q) => {
            if let Ty::Cat(_, u) = t {
                let second = mem::replace(&mut **u, Ty::Eps);
                *t = second;
                go_behind(alloc, t, q)?;
            }
            Ok(())
        }
        Prefix::Inl(p) => {
            if let Ty::Sum(s, _) = t {
                let left = mem::replace(&mut **s, Ty::Eps);
                *t = left;
                go_behind(alloc, t, p)?;
            }
            Ok(())
        }
        Prefix::Inr(p) => {
            if let Ty::Sum(_, s) = t {
                let right = mem::replace(&mut **s, Ty::Eps);
                *t = right;
                go_behind(alloc, t, p)?;
            }
            Ok(())
        }
        Prefix::Star(_, end) => behind_end(alloc, t, end),
    }
}

// A star's whole items leave it as it was; what comes behind them is this.
#[cycle(behind)]
#[tactic(auto, using(crate::proofs::Moves::moves))]
fn behind_end(alloc: Global, t: &mut Ty, end: &StarEnd) -> Result<(), Memory>
    ensures { OnOk result (type_of t.new ≡ der (end_of end.now) (type_of t.old)) }
{
    match end {
        StarEnd::Emp => Ok(()),
        StarEnd::Done => {
            *t = Ty::Eps;
            Ok(())
        }
        StarEnd::First(p) => {
            if let Ty::Star(s) = t {
                let item = stream_type::copy(alloc, s)?;
                let mut item = Box::new(alloc, item)?;
                go_behind(alloc, &mut item, p)?;
                let mut after = Box::new(alloc, Ty::Eps)?;
                mem::swap(&mut *after, t);
                *t = Ty::Cat(item, after);
            }
            Ok(())
        }
    }
}
