//! What comes after a prefix, put behind it.

ghost use Rattle.std.specs.Prelude.{◌≡◌, ◌++◌, map, IfOk, OnOk};
ghost use Rattle.stream_prefix.specs.StreamPrefix.{join, cat_both, star_rest};
ghost use Rattle.stream_prefix.specs.Tree.{prefix_of, end_of, star_of};

use std::alloc::Global;
use std::mem;
use stream_prefix::{Prefix, StarEnd, copy};
use stream_type::Memory;

/// Puts what comes after a prefix behind it: `join` in `stream_prefix`. What has another form than what can come
/// counts as want of memory. After an error the prefix is partly changed.
#[cycle(joining)]
#[tactic(auto, using(crate::proofs::Moves::joins))]
pub fn join_behind(alloc: Global, p: &mut Prefix, q: &Prefix) -> Result<(), Memory>
    ensures { OnOk result (prefix_of p.new ≡ join (prefix_of p.old) (prefix_of q.now)) }
{
    match &mut *p {
        Prefix::EpsEmp | Prefix::OneFull | Prefix::IntFull(_) => Ok(()),
        Prefix::OneEmp | Prefix::IntEmp | Prefix::SumEmp => {
            let come = copy(alloc, q)?;
            *p = come;
            Ok(())
        }
        Prefix::Par(a, b) => match q {
            Prefix::Par(c, d) => {
                join_behind(alloc, a, c)?;
                join_behind(alloc, b, d)
            }
            _ => Err(Memory),
        },
        Prefix::CatFst(a) => match q {
            Prefix::CatFst(b) => join_behind(alloc, a, b),
            Prefix::CatBoth(b, c) => {
                join_behind(alloc, a, b)?;
                let first = mem::replace(&mut **a, Prefix::EpsEmp);
                let both = in_turn(alloc, first, c)?;
                *p = both;
                Ok(())
            }
            _ => Err(Memory),
        },
        Prefix::CatBoth(_, b) => join_behind(alloc, b, q),
        Prefix::Inl(a) => join_behind(alloc, a, q),
        Prefix::Inr(a) => join_behind(alloc, a, q),
        Prefix::Star(items, end) => join_star(alloc, items, end, q),
    }
}

// What is whole, and then this.
fn in_turn(alloc: Global, first: Prefix, second: &Prefix) -> Result<Prefix, Memory>
    ensures { IfOk result (λ r. prefix_of r ≡ cat_both (prefix_of first) (prefix_of second.now)) }
{
    let first = Box::new(alloc, first)?;
    let second = copy(alloc, second)?;
    Ok(Prefix::CatBoth(first, Box::new(alloc, second)?))
}

// Behind a star.
#[cycle(joining)]
#[tactic(auto, using(crate::proofs::Moves::joins))]
fn join_star(
    alloc: Global,
    items: &mut Vec<Prefix>,
    end: &mut StarEnd,
    q: &Prefix,
) -> Result<(), Memory>
    ensures { OnOk result (star_of (map prefix_of items.new.items) (end_of end.new) ≡ join (star_of (map prefix_of items.old.items) (end_of end.old)) (prefix_of q.now)) }
{
    match &mut *end {
        StarEnd::Done => Ok(()),
        StarEnd::Emp => add_star(alloc, items, end, q),
        StarEnd::First(a) => match q {
            Prefix::CatFst(b) => join_behind(alloc, a, b),
            Prefix::CatBoth(b, rest) => {
                join_behind(alloc, a, b)?;
                let item = mem::replace(&mut **a, Prefix::EpsEmp);
                add_item(alloc, items, end, item, rest)
            }
            _ => Err(Memory),
        },
    }
}

// Behind whole items, of which the end is no part any more: a whole item, and then this.
#[tactic(auto, using(crate::proofs::Moves::joins))]
fn add_item(
    alloc: Global,
    items: &mut Vec<Prefix>,
    end: &mut StarEnd,
    item: Prefix,
    rest: &Prefix,
) -> Result<(), Memory>
    ensures { OnOk result (star_of (map prefix_of items.new.items) (end_of end.new) ≡ star_of (map prefix_of items.old.items) (star_rest (prefix_of item) (prefix_of rest.now))) }
{
    items.push(item)?;
    add_star(alloc, items, end, rest)
}

// The same of this alone.
#[tactic(auto, using(crate::proofs::Moves::joins))]
fn add_star(
    alloc: Global,
    items: &mut Vec<Prefix>,
    end: &mut StarEnd,
    q: &Prefix,
) -> Result<(), Memory>
    ensures { OnOk result (star_of (map prefix_of items.new.items) (end_of end.new) ≡ star_of (map prefix_of items.old.items) (prefix_of q.now)) }
{
    match q {
        Prefix::Star(more, last) => {
            add_items(alloc, items, more)?;
            let last = end_copied(alloc, last)?;
            *end = last;
            Ok(())
        }
        _ => Err(Memory),
    }
}

// Equal items behind these.
fn add_items(alloc: Global, items: &mut Vec<Prefix>, more: &[Prefix]) -> Result<(), Memory>
    ensures { OnOk result (map prefix_of items.new.items ≡ map prefix_of items.old.items ++ map prefix_of more.now) }
{
    for item in more {
        items.push(copy(alloc, item)?)?;
    }
    Ok(())
}

// How far a star is behind its items, once more.
fn end_copied(alloc: Global, end: &StarEnd) -> Result<StarEnd, Memory>
    ensures { IfOk result (λ e. end_of e ≡ end_of end.now) }
{
    match end {
        StarEnd::Emp => Ok(StarEnd::Emp),
        StarEnd::Done => Ok(StarEnd::Done),
        StarEnd::First(p) => {
            let first = copy(alloc, p)?;
            Ok(StarEnd::First(Box::new(alloc, first)?))
        }
    }
}
