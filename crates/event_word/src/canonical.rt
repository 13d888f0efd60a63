//! The canonical word of a prefix.

ghost use Rattle.std.specs.Prelude.{◌≡◌, ◌+◌, ◌≤◌, [], ◌∷◌, ◌++◌, map, IfOk};
ghost use Rattle.stream_type.specs.StreamType.{type_of, reach_of};
ghost use Rattle.stream_prefix.specs.StreamPrefix.{IsPrefix, star_emp};
ghost use Rattle.stream_prefix.specs.Tree.{prefix_of, end_of, star_of};
ghost use Rattle.event_word.specs.StreamEvent.{leaf_of, under, IsWithin};
ghost use Rattle.event_word.specs.Word.{IsWord, pre};
ghost use Rattle.event_word.specs.Canon.{canon};
ghost use Rattle.event_word.specs.Steps.{steps_of};

use crate::event::{Event, Leaf, Step};
use std::alloc::Global;
use stream_prefix::{Prefix, StarEnd};
use stream_type::{Memory, Ty};

/// The canonical word of a prefix of the type (`canon` of `specs/Canon.antt`): a word of the type
/// that stands for the prefix. Its events have at most as many steps as the type's reach, so at
/// most 63; the type serves these conditions alone. Its one error is want of memory.
#[tactic(auto, using(crate::proofs::Canons::canons))]
pub fn canon(alloc: Global, t: &Ty, p: &Prefix) -> Result<Vec<Event>, Memory>
    requires prefix { IsPrefix (type_of t.now) (prefix_of p.now) }
    requires reach { reach_of (type_of t.now) ≤ 63 }
    ensures canonical { IfOk result (λ w. w.items ≡ canon (prefix_of p.now)) }
    ensures word { IfOk result (λ w. IsWord (type_of t.now) w.items) }
    ensures means { IfOk result (λ w. pre (type_of t.now) w.items ≡ prefix_of p.now) }
{
    spelled(alloc, p)
}

// The canonical word, where no path in it gets too long.
#[cycle(canon)]
#[tactic(auto, using(crate::proofs::Canons::canons))]
fn spelled(alloc: Global, p: &Prefix) -> Result<Vec<Event>, Memory>
    requires { steps_of (prefix_of p.now) ≤ 63 }
    ensures { IfOk result (λ w. w.items ≡ canon (prefix_of p.now)) }
{
    match p {
        Prefix::EpsEmp | Prefix::OneEmp | Prefix::IntEmp | Prefix::SumEmp => Ok(Vec::new(alloc)),
        Prefix::OneFull => single(alloc, Leaf::One),
        Prefix::IntFull(n) => single(alloc, Leaf::Int(*n)),
        Prefix::Par(p, q) => {
            let left = spelled_under(alloc, p, Step::Left)?;
            let right = spelled_under(alloc, q, Step::Right)?;
            joined(left, right)
        }
        Prefix::CatFst(p) => spelled_under(alloc, p, Step::First),
        Prefix::CatBoth(p, q) => {
            let first = spelled_under(alloc, p, Step::First)?;
            let second = spelled_after(alloc, Leaf::Cut, q)?;
            joined(first, second)
        }
        Prefix::Inl(p) => spelled_after(alloc, Leaf::Inl, p),
        Prefix::Inr(p) => spelled_after(alloc, Leaf::Inr, p),
        Prefix::Star(items, end) => {
            let whole = spelled_items(alloc, items)?;
            let rest = spelled_end(alloc, end)?;
            joined(whole, rest)
        }
    }
}

// The word of a part, under the step that leads to it.
#[cycle(canon)]
#[tactic(auto, using(crate::proofs::Canons::canons))]
fn spelled_under(alloc: Global, p: &Prefix, step: Step) -> Result<Vec<Event>, Memory>
    requires { 1 + steps_of (prefix_of p.now) ≤ 63 }
    ensures { IfOk result (λ w. w.items ≡ map (under step) (canon (prefix_of p.now))) }
{
    let mut word = spelled(alloc, p)?;
    lift(&mut word, step);
    Ok(word)
}

// An event, and then the word of what it leaves.
#[cycle(canon)]
#[tactic(auto, using(crate::proofs::Canons::canons))]
fn spelled_after(alloc: Global, leaf: Leaf, p: &Prefix) -> Result<Vec<Event>, Memory>
    requires { steps_of (prefix_of p.now) ≤ 63 }
    ensures { IfOk result (λ w. w.items ≡ leaf_of leaf ∷ canon (prefix_of p.now)) }
{
    let event = single(alloc, leaf)?;
    let rest = spelled(alloc, p)?;
    joined(event, rest)
}

// The word of a star's whole items: each begins with Item and ends with Cut.
#[cycle(canon)]
#[tactic(auto, using(crate::proofs::Canons::canons))]
fn spelled_items(alloc: Global, items: &[Prefix]) -> Result<Vec<Event>, Memory>
    requires { steps_of (star_of (map prefix_of items.now) star_emp) ≤ 63 }
    ensures { IfOk result (λ w. w.items ≡ canon (star_of (map prefix_of items.now) star_emp)) }
{
    let mut word = Vec::new(alloc);
    for item in items {
        word.push(Event::new(Leaf::Item))?;
        let mut inside = spelled_under(alloc, item, Step::First)?;
        word.append(&mut inside)?;
        word.push(Event::new(Leaf::Cut))?;
    }
    Ok(word)
}

// The word of what comes after a star's whole items.
#[cycle(canon)]
#[tactic(auto, using(crate::proofs::Canons::canons))]
fn spelled_end(alloc: Global, end: &StarEnd) -> Result<Vec<Event>, Memory>
    requires { steps_of (end_of end.now) ≤ 63 }
    ensures { IfOk result (λ w. w.items ≡ canon (end_of end.now)) }
{
    match end {
        StarEnd::Emp => Ok(Vec::new(alloc)),
        StarEnd::Done => single(alloc, Leaf::End),
        StarEnd::First(p) => {
            let item = single(alloc, Leaf::Item)?;
            let inside = spelled_under(alloc, p, Step::First)?;
            joined(item, inside)
        }
    }
}

// The word of one event with no step.
fn single(alloc: Global, leaf: Leaf) -> Result<Vec<Event>, Memory>
    ensures { IfOk result (λ w. w.items ≡ leaf_of leaf ∷ []) }
{
    let mut word = Vec::new(alloc);
    word.push(Event::new(leaf))?;
    Ok(word)
}

// One word and then another.
fn joined(mut first: Vec<Event>, mut second: Vec<Event>) -> Result<Vec<Event>, Memory>
    ensures { IfOk result (λ w. w.items ≡ first.items ++ second.items) }
{
    first.append(&mut second)?;
    Ok(first)
}

// Puts each event of a word under a step.
#[tactic(auto, using(crate::proofs::Canons::canons))]
fn lift(word: &mut [Event], step: Step)
    requires { IsWithin 62 word.old }
    ensures { word.new ≡ map (under step) word.old }
{
    for x in word.iter_mut() {
        *x = x.under(step).unwrap();
    }
}
