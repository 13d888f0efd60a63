//! What has come on the parts of a stream by its form, as `core_term` defines them.

ghost use Rattle.std.specs.Prelude.{◌≡◌, ℕ, map, IfOk};
ghost use Rattle.stream_type.specs.StreamType.{StreamType, type_of};
ghost use Rattle.stream_prefix.specs.StreamPrefix.{StreamPrefix, eps_emp, star_emp};
ghost use Rattle.stream_prefix.specs.Tree.{prefix_of, end_of, star_of};
ghost use Rattle.core_term.specs.Parts.{first_part, second_part};
ghost use Rattle.core_term.specs.Run.{Run, sum_run, star_run};
ghost use Rattle.delta_state.specs.StateTree.{StateTree};
ghost use Rattle.delta_state.specs.Rest.{sum_rest, star_rest_state, cut_state};
ghost use Rattle.machine_parts.specs.Parts.{sided_prefix, taken_prefix, cut_prefix};

pub use core_term::parts::{
    cat_types, copied, nothing_yet, par_parts, par_types, star_types, sum_types,
};
use std::alloc::Global;
use stream_prefix::{Prefix, StarEnd};
use stream_type::{Memory, Ty};

/// What came on the first of two streams, of which one comes after the other, or nothing.
#[tactic(auto, using(crate::proofs::StarForms::star_forms))]
pub fn first_part<'a>(p: &'a Prefix, nothing: &'a Prefix) -> &'a Prefix
    requires { prefix_of nothing.now ≡ eps_emp }
    ensures { prefix_of result.now ≡ first_part (prefix_of p.now) }
{
    match p {
        Prefix::CatFst(a) | Prefix::CatBoth(a, _) => a,
        Prefix::EpsEmp
        | Prefix::OneEmp
        | Prefix::OneFull
        | Prefix::IntEmp
        | Prefix::IntFull(_)
        | Prefix::Par(_, _)
        | Prefix::SumEmp
        | Prefix::Inl(_)
        | Prefix::Inr(_)
        | Prefix::Star(_, _) => nothing,
    }
}

/// What came on the second of two streams, of which one comes after the other; it is of type `t`. Its only
/// error is want of memory.
#[tactic(auto, using(crate::proofs::StarForms::star_forms))]
#[inline(never)]
pub fn second_part(alloc: Global, t: &Ty, p: &Prefix) -> Result<Box<Prefix>, Memory>
    ensures { IfOk result (λ r. prefix_of r.value ≡ second_part (type_of t.now) (prefix_of p.now)) }
{
    match p {
        Prefix::CatBoth(_, b) => copied(alloc, b),
        Prefix::EpsEmp
        | Prefix::OneEmp
        | Prefix::OneFull
        | Prefix::IntEmp
        | Prefix::IntFull(_)
        | Prefix::Par(_, _)
        | Prefix::CatFst(_)
        | Prefix::SumEmp
        | Prefix::Inl(_)
        | Prefix::Inr(_)
        | Prefix::Star(_, _) => nothing_yet(alloc, t),
    }
}

/// What has come of a sum.
#[derive(Clone, Copy)]
pub enum Sided<'a> {
    /// No side is chosen.
    Nothing,
    /// The left side is chosen, and this has come on it.
    Left(&'a Prefix),
    /// The right side is chosen, and this has come on it.
    Right(&'a Prefix),
}

/// What has come of a sum, by the side that is chosen; nothing, where it is no sum.
#[tactic(auto, using(crate::proofs::StarForms::star_forms))]
pub fn side_taken(p: &Prefix) -> Sided<'_>
    ensures run { (r : StreamType) (a b : StreamPrefix → Run) → sum_run r (prefix_of p.now) a b ≡ sum_run r (sided_prefix result) a b }
    ensures rest { (z x y : ℕ) (s : StreamType) (w : StateTree) (a b : StreamPrefix → StateTree) → sum_rest z x y s (prefix_of p.now) w a b ≡ sum_rest z x y s (sided_prefix result) w a b }
{
    match p {
        Prefix::Inl(q) => Sided::Left(q),
        Prefix::Inr(q) => Sided::Right(q),
        Prefix::EpsEmp
        | Prefix::OneEmp
        | Prefix::OneFull
        | Prefix::IntEmp
        | Prefix::IntFull(_)
        | Prefix::Par(_, _)
        | Prefix::CatFst(_)
        | Prefix::CatBoth(_, _)
        | Prefix::SumEmp
        | Prefix::Star(_, _) => Sided::Nothing,
    }
}

/// What has come of a star.
#[derive(Clone, Copy)]
pub enum Taken<'a> {
    /// Neither an item nor the end.
    Nothing,
    /// The end.
    Over,
    /// A part of an item, which isn't whole or before its mark.
    First(&'a Prefix),
    /// A whole item, and what came after it: further items and how far the star is behind them.
    Item(&'a Prefix, &'a [Prefix], &'a StarEnd),
}

/// What has come of a star, with its first item apart; nothing, where it is no star.
#[tactic(auto, using(crate::proofs::StarForms::star_forms))]
pub fn star_taken(p: &Prefix) -> Taken<'_>
    ensures run { (r : StreamType) (a : Run) (b : StreamPrefix → StreamPrefix → Run) → star_run r (prefix_of p.now) a b ≡ star_run r (taken_prefix result) a b }
    ensures rest { (z y ys : ℕ) (s : StreamType) (w a : StateTree) (b : StreamPrefix → StreamPrefix → StateTree) → star_rest_state z y ys s (prefix_of p.now) w a b ≡ star_rest_state z y ys s (taken_prefix result) w a b }
{
    match p {
        Prefix::Star(items, end) => items_taken(items, end),
        Prefix::EpsEmp
        | Prefix::OneEmp
        | Prefix::OneFull
        | Prefix::IntEmp
        | Prefix::IntFull(_)
        | Prefix::Par(_, _)
        | Prefix::CatFst(_)
        | Prefix::CatBoth(_, _)
        | Prefix::SumEmp
        | Prefix::Inl(_)
        | Prefix::Inr(_) => Taken::Nothing,
    }
}

// The first of these items apart.
fn items_taken<'a>(items: &'a [Prefix], end: &'a StarEnd) -> Taken<'a>
    ensures { taken_prefix result ≡ star_of (map prefix_of items.now) (end_of end.now) }
{
    match items.split_first() {
        Some((item, after)) => Taken::Item(item, after, end),
        None => match end {
            StarEnd::Emp => Taken::Nothing,
            StarEnd::Done => Taken::Over,
            StarEnd::First(p) => Taken::First(p),
        },
    }
}

/// Equal items of a star as one of their own. Its only error is want of memory.
#[inline(never)]
pub fn items_after(alloc: Global, items: &[Prefix], end: &StarEnd) -> Result<Box<Prefix>, Memory>
    ensures { IfOk result (λ r. prefix_of r.value ≡ star_of (map prefix_of items.now) (end_of end.now)) }
{
    let copies = items_copied(alloc, items)?;
    let end = end_copied(alloc, end)?;
    let star = star_with(copies, end);
    Ok(Box::new(alloc, star)?)
}

/// A star of which nothing has come. Its only error is want of memory.
#[inline(never)]
pub fn star_begun(alloc: Global) -> Result<Box<Prefix>, Memory>
    ensures { IfOk result (λ r. prefix_of r.value ≡ star_emp) }
{
    let star = star_with(Vec::new(alloc), StarEnd::Emp);
    Ok(Box::new(alloc, star)?)
}

// A star of these items.
#[tactic(auto, using(stream_prefix::proofs::Rows::rows))]
fn star_with(items: Vec<Prefix>, end: StarEnd) -> Prefix
    ensures { prefix_of result ≡ star_of (map prefix_of items.items) (end_of end) }
{
    Prefix::Star(items, end)
}

// Items of a star, once more.
fn items_copied(alloc: Global, items: &[Prefix]) -> Result<Vec<Prefix>, Memory>
    ensures { IfOk result (λ v. map prefix_of v.items ≡ map prefix_of items.now) }
{
    let mut copies = Vec::new(alloc);
    for item in items {
        copies.push(stream_prefix::copy(alloc, item)?)?;
    }
    Ok(copies)
}

// How far a star is behind its items, once more.
fn end_copied(alloc: Global, end: &StarEnd) -> Result<StarEnd, Memory>
    ensures { IfOk result (λ e. end_of e ≡ end_of end.now) }
{
    match end {
        StarEnd::Emp => Ok(StarEnd::Emp),
        StarEnd::Done => Ok(StarEnd::Done),
        StarEnd::First(p) => Ok(StarEnd::First(copied(alloc, p)?)),
    }
}

/// What has come of one stream after another.
#[derive(Clone, Copy)]
pub enum Cut<'a> {
    /// The mark between them hasn't come.
    Before,
    /// The mark has come, with this on each.
    After(&'a Prefix, &'a Prefix),
}

/// What has come of one stream after another, by the mark between them.
#[tactic(auto, using(crate::proofs::StarForms::star_forms))]
pub fn cut_taken(p: &Prefix) -> Cut<'_>
    ensures { (x y z : ℕ) (s : StreamType) (a : StateTree) → cut_state x y z s (prefix_of p.now) a ≡ cut_state x y z s (cut_prefix result) a }
{
    match p {
        Prefix::CatBoth(a, b) => Cut::After(a, b),
        Prefix::EpsEmp
        | Prefix::OneEmp
        | Prefix::OneFull
        | Prefix::IntEmp
        | Prefix::IntFull(_)
        | Prefix::Par(_, _)
        | Prefix::CatFst(_)
        | Prefix::SumEmp
        | Prefix::Inl(_)
        | Prefix::Inr(_)
        | Prefix::Star(_, _) => Cut::Before,
    }
}
