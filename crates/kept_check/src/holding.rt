//! What is held of a name, and the order that it leaves.

ghost use Rattle.std.specs.Prelude.{◌≡◌, ◌==◌, ℕ, map, ◌&&◌, ◌||◌, option_map, unwrap_or, IfOk, OnOk};
ghost use Rattle.stream_prefix.specs.StreamPrefix.{eps_emp, is_maximal};
ghost use Rattle.stream_prefix.specs.Tree.{prefix_of, end_of, star_of};
ghost use Rattle.bunch.specs.Names.{numbers_of, holds};
ghost use Rattle.delta_check.specs.Scopes.{context_in, context_given, facts_given};
ghost use Rattle.delta_state.specs.StateTree.{held_names};
ghost use Rattle.delta_state.specs.StateMeaning.{prefixes_held};
ghost use Rattle.delta_state.specs.StateTyping.{is_empty, facts_held, context_held};
ghost use Rattle.delta_state.specs.Settled.{has_tag};
ghost use Rattle.delta_keep.specs.KeptView.{held_of};
ghost use Rattle.kept_check.specs.Holding.{stays_before};

use crate::values::{names_held, types_held};
use bunch::Name;
use delta_check::{Scope, before};
use delta_keep::HeldName;
use std::alloc::Global;
use stream_prefix::{Prefix, StarEnd, maximal};
use stream_type::{Memory, Ty};

// Whether a prefix of a sum has its side, or one of a star an item or the end.
#[tactic(auto, using(stream_prefix::proofs::Rows::rows))]
fn is_tagged(p: &Prefix) -> bool
    ensures { result ≡ has_tag (prefix_of p.now) }
{
    match p {
        Prefix::Inl(_) | Prefix::Inr(_) => true,
        Prefix::Star(items, end) => has_begun(items, end),
        _ => false,
    }
}

// Whether of a star an item or the end has come.
fn has_begun(items: &[Prefix], end: &StarEnd) -> bool
    ensures { result ≡ has_tag (star_of (map prefix_of items.now) (end_of end.now)) }
{
    match items {
        [] => !matches!(end, StarEnd::Emp),
        _ => true,
    }
}

// Whether nothing has come.
#[tactic(auto, using(stream_prefix::proofs::Rows::rows))]
fn is_nothing(p: &Prefix) -> bool
    ensures { result ≡ is_empty (prefix_of p.now) }
{
    match p {
        Prefix::EpsEmp | Prefix::OneEmp | Prefix::IntEmp | Prefix::SumEmp => true,
        Prefix::Par(p, q) => is_nothing(p) && is_nothing(q),
        Prefix::CatFst(p) => is_nothing(p),
        Prefix::Star(items, end) => !has_begun(items, end),
        _ => false,
    }
}

// What is held of the name, if it is held.
fn prefix_held<'a>(held: &'a [HeldName], x: Name) -> Option<&'a Prefix>
    ensures { unwrap_or (option_map (λ p. prefix_of p.now) result) eps_emp ≡ prefixes_held (map held_of held.now) x.0 }
{
    for entry in held {
        if x.0 == entry.name.0 {
            return Some(&*entry.prefix);
        }
    }
    None
}

/// Whether what is held of the name has its tag.
pub fn tag_held(held: &[HeldName], x: Name) -> bool
    ensures { result ≡ has_tag (prefixes_held (map held_of held.now) x.0) }
{
    match prefix_held(held, x) {
        Some(p) => is_tagged(p),
        None => false,
    }
}

/// Whether what is held of the name is whole; of a name that isn't held it is.
pub fn whole_held(held: &[HeldName], x: Name) -> bool
    ensures { result ≡ is_maximal (prefixes_held (map held_of held.now) x.0) }
{
    match prefix_held(held, x) {
        Some(p) => maximal(p),
        None => true,
    }
}

// Whether nothing is held of the name.
fn nothing_held(held: &[HeldName], x: Name) -> bool
    ensures { result ≡ is_empty (prefixes_held (map held_of held.now) x.0) }
{
    match prefix_held(held, x) {
        Some(p) => is_nothing(p),
        None => true,
    }
}

/// The names of which something is held, from before anything was: their types, and which of them stand
/// before which.
#[derive(Drop)]
pub struct Before {
    /// The types.
    pub types: Vec<(Name, Ty)>,
    /// The order: the first name of each entry stands before the second.
    pub order: Vec<(Name, Name)>,
}

/// The names of which something is held, from before anything was. Its only error is want of memory.
pub fn before_held(alloc: Global, scope: &Scope<'_>, held: &[HeldName]) -> Result<Before, Memory>
    ensures { IfOk result (λ b. context_given b.types.items (facts_given b.order.items) ≡ context_held (map held_of held.now) (context_in scope.now).order) }
{
    let names = names_held(alloc, held)?;
    let order = order_held(alloc, scope, held, &names)?;
    let types = types_held(alloc, held)?;
    Ok(Before { types, order })
}

// The order of names of which something is held, where these are the names: what stands before what
// in the scope, where the first is whole or of the second nothing came.
fn order_held(
    alloc: Global,
    scope: &Scope<'_>,
    held: &[HeldName],
    names: &[Name],
) -> Result<Vec<(Name, Name)>, Memory>
    requires { numbers_of names.now ≡ held_names (map held_of held.now) }
    ensures { IfOk result (λ v. (x y : ℕ) → facts_given v.items x y ≡ facts_held (map held_of held.now) (context_in scope.now).order x y) }
{
    let mut facts = Vec::new(alloc);
    for name in names {
        add_facts(scope, held, *name, names, &mut facts)?;
    }
    Ok(facts)
}

// Adds the facts that x stands before one of the names.
fn add_facts(
    scope: &Scope<'_>,
    held: &[HeldName],
    x: Name,
    names: &[Name],
    facts: &mut Vec<(Name, Name)>,
) -> Result<(), Memory>
    ensures { OnOk result ((u v : ℕ) → facts_given facts.new.items u v ≡ (facts_given facts.old.items u v
        || ((u == x.0) && (holds v (numbers_of names.now) && stays_before (map held_of held.now) (context_in scope.now).order x.0 v)))) }
{
    for name in names {
        add_fact(scope, held, x, *name, facts)?;
    }
    Ok(())
}

// Adds the fact that x stands before y, if it does.
fn add_fact(
    scope: &Scope<'_>,
    held: &[HeldName],
    x: Name,
    y: Name,
    facts: &mut Vec<(Name, Name)>,
) -> Result<(), Memory>
    ensures { OnOk result ((u v : ℕ) → facts_given facts.new.items u v ≡ (facts_given facts.old.items u v
        || ((u == x.0) && ((v == y.0) && stays_before (map held_of held.now) (context_in scope.now).order x.0 y.0)))) }
{
    if !is_kept(scope, held, x, y) {
        return Ok(());
    }
    facts.push((x, y))?;
    Ok(())
}

// Whether x stands before y in the scope, and is whole, or of y nothing came.
fn is_kept(scope: &Scope<'_>, held: &[HeldName], x: Name, y: Name) -> bool
    ensures { result ≡ stays_before (map held_of held.now) (context_in scope.now).order x.0 y.0 }
{
    before(scope, x, y) && (whole_held(held, x) || nothing_held(held, y))
}
