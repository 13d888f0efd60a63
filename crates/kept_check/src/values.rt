//! The values of code that isn't reached, and what is held.

ghost use Rattle.std.specs.Prelude.{◌≡◌, ◌↔◌, ℕ, map, Some, IsTrue, IfOk};
ghost use Rattle.std.specs.List.{All};
ghost use Rattle.stream_type.specs.StreamType.{type_of};
ghost use Rattle.stream_prefix.specs.StreamPrefix.{der, IsPrefix};
ghost use Rattle.bunch.specs.Names.{numbers_of};
ghost use Rattle.hist_value.specs.HistType.{past};
ghost use Rattle.hist_value.specs.HistValue.{HasType};
ghost use Rattle.core_term.specs.CoreTerm.{typed_names_of};
ghost use Rattle.core_term.specs.Typing.{Context};
ghost use Rattle.delta_check.specs.Scopes.{context_in, with_values, given_at};
ghost use Rattle.delta_state.specs.StateTree.{free_in_state, held_names};
ghost use Rattle.delta_state.specs.StateTyping.{with_past, marks_held, IsHeld};
ghost use Rattle.kept_state.specs.KeptNames.{known_names};
ghost use Rattle.delta_keep.specs.KeptView.{state_of, known_of, held_of};

use crate::free::free_in;
use crate::names::are_just;
use bunch::Name;
use delta_check::{Scope, stream_type};
use delta_keep::{HeldName, KeptState, Known};
use hist_value::{HTy, has_type, past};
use std::alloc::Global;
use stream_prefix::{derive, is_prefix};
use stream_type::{Memory, Ty, copy, same};

/// The names of values with the types of these. Its only error is want of memory.
pub fn value_types(alloc: Global, known: &[Known]) -> Result<Vec<(Name, HTy)>, Memory>
    ensures { IfOk result (λ v. (c : Context) → with_values v.items c ≡ with_past (map known_of known.now) c) }
{
    let mut types = Vec::new(alloc);
    for entry in known {
        types.push((entry.name, past(alloc, &entry.ty)?))?;
    }
    Ok(types)
}

/// The names of values, in turn. Its only error is want of memory.
pub fn value_names(alloc: Global, known: &[Known]) -> Result<Vec<Name>, Memory>
    ensures { IfOk result (λ v. numbers_of v.items ≡ known_names (map known_of known.now)) }
{
    let mut names = Vec::new(alloc);
    for entry in known {
        names.push(entry.name)?;
    }
    Ok(names)
}

/// Whether each value is of its type. Its only error is want of memory.
pub fn have_types(alloc: Global, known: &[Known]) -> Result<bool, Memory>
    ensures { IfOk result (λ b. IsTrue b ↔ All (λ e. HasType (past e.type) e.value) (map known_of known.now)) }
{
    for entry in known {
        if !has_its_type(alloc, entry)? {
            return Ok(false);
        }
    }
    Ok(true)
}

// Whether the value is of its type.
fn has_its_type(alloc: Global, entry: &Known) -> Result<bool, Memory>
    ensures { IfOk result (λ b. IsTrue b ↔ HasType (past (known_of entry.now).type) (known_of entry.now).value) }
{
    let t = past(alloc, &entry.ty)?;
    Ok(has_type(&entry.value, &t))
}

/// The names of which something is held, in turn. Its only error is want of memory.
pub fn names_held(alloc: Global, held: &[HeldName]) -> Result<Vec<Name>, Memory>
    ensures { IfOk result (λ v. numbers_of v.items ≡ held_names (map held_of held.now)) }
{
    let mut names = Vec::new(alloc);
    for entry in held {
        names.push(entry.name)?;
    }
    Ok(names)
}

/// The types of these names from before anything was held. Its only error is want of memory.
pub fn types_held(alloc: Global, held: &[HeldName]) -> Result<Vec<(Name, Ty)>, Memory>
    ensures { IfOk result (λ v. (x : ℕ) → given_at (typed_names_of v.items) x ≡ marks_held (map held_of held.now) x) }
{
    let mut types = Vec::new(alloc);
    for entry in held {
        types.push((entry.name, copy(alloc, &entry.ty)?))?;
    }
    Ok(types)
}

/// Whether a state holds something of each of its free names, and what it leaves is the type in the
/// scope: `IsHeld` in the specs of delta_state. Its only error is want of memory.
pub fn is_held(
    alloc: Global,
    scope: &Scope<'_>,
    held: &[HeldName],
    s: &KeptState,
) -> Result<bool, Memory>
    ensures { IfOk result (λ b. IsTrue b ↔ IsHeld (context_in scope.now) (free_in_state (state_of s.now)) (map held_of held.now)) }
{
    match free_in(alloc, s) {
        Ok(free) => {
            let fits = is_held_of(alloc, scope, held, &free);
            drop(free);
            fits
        }
        Err(_) => Err(Memory),
    }
}

// The same of a form with these free names.
fn is_held_of(
    alloc: Global,
    scope: &Scope<'_>,
    held: &[HeldName],
    free: &[Name],
) -> Result<bool, Memory>
    ensures { IfOk result (λ b. IsTrue b ↔ IsHeld (context_in scope.now) (numbers_of free.now) (map held_of held.now)) }
{
    let names = names_held(alloc, held)?;
    let fits = are_just(&names, free);
    drop(names);
    if !fits {
        return Ok(false);
    }
    are_left(alloc, scope, held)
}

// Whether what is held of each name is a prefix of its type from before, and leaves its type.
fn are_left(alloc: Global, scope: &Scope<'_>, held: &[HeldName]) -> Result<bool, Memory>
    ensures { IfOk result (λ b. IsTrue b ↔ (All (λ h. IsPrefix h.type h.prefix) (map held_of held.now) × All (λ h. (context_in scope.now).types h.name ≡ Some (der h.prefix h.type)) (map held_of held.now))) }
{
    for entry in held {
        if !is_left(alloc, scope, entry)? {
            return Ok(false);
        }
    }
    Ok(true)
}

// The same of one name.
fn is_left(alloc: Global, scope: &Scope<'_>, h: &HeldName) -> Result<bool, Memory>
    ensures { IfOk result (λ b. IsTrue b ↔ (IsPrefix (held_of h.now).type (held_of h.now).prefix × ((context_in scope.now).types h.now.name.0 ≡ Some (der (held_of h.now).prefix (held_of h.now).type)))) }
{
    if !is_prefix(&h.ty, &h.prefix) {
        return Ok(false);
    }
    match derive(alloc, &h.ty, &h.prefix) {
        Ok(left) => {
            let leaves = is_stream(scope, h.name, &left);
            drop(left);
            Ok(leaves)
        }
        Err(_) => Err(Memory),
    }
}

/// Whether the name is a stream of this type.
pub fn is_stream(scope: &Scope<'_>, x: Name, r: &Ty) -> bool
    ensures { IsTrue result ↔ ((context_in scope.now).types x.0 ≡ Some (type_of r.now)) }
{
    match stream_type(scope, x) {
        Some(t) => same(t, r),
        None => false,
    }
}
