//! What cases and waits hold, and what is left of types.

ghost use Rattle.std.specs.Prelude.{◌≡◌, map, IfOk, OnOk};
ghost use Rattle.stream_type.specs.StreamType.{type_of};
ghost use Rattle.stream_prefix.specs.StreamPrefix.{der, join};
ghost use Rattle.stream_prefix.specs.Tree.{prefix_of};
ghost use Rattle.bunch.specs.Names.{numbers_of};
ghost use Rattle.delta_state.specs.Rest.{taken, held_more};
ghost use Rattle.machine_parts.specs.Entry.{entry_in};
ghost use Rattle.machine_parts.specs.Scope.{types_in, streams_in};

use crate::entry::Entry;
use crate::scope::{Scope, stream_at, type_at};
use bunch::Name;
use in_place::join_behind;
use std::alloc::Global;
use stream_prefix::{Prefix, derive, is_prefix, join};
use stream_type::{Memory, Ty};

/// What is left of a type after a prefix of it. What is no prefix of it counts as want of memory, which no
/// typed program gives.
pub fn left(alloc: Global, t: &Ty, p: &Prefix) -> Result<Ty, Memory>
    ensures { IfOk result (λ r. type_of r ≡ der (prefix_of p.now) (type_of t.now)) }
{
    if is_prefix(t, p) {
        derive(alloc, t, p)
    } else {
        Err(Memory)
    }
}

/// A prefix of a type and what comes after it. What can't come counts as want of memory.
#[tactic(auto, using(crate::proofs::Past::follow))]
#[inline(never)]
pub fn joined(alloc: Global, t: &Ty, p: &Prefix, q: Prefix) -> Result<Prefix, Memory>
    ensures { IfOk result (λ r. prefix_of r ≡ join (prefix_of p.now) (prefix_of q)) }
{
    if !is_prefix(t, p) {
        return Err(Memory);
    }
    let rest = derive(alloc, t, p)?;
    if !is_prefix(&rest, &q) {
        return Err(Memory);
    }
    let first = stream_prefix::copy(alloc, p)?;
    join(alloc, first, q)
}

/// What comes on these names, with their types: `taken` in `delta_state`. Its only error is want of memory.
#[inline(never)]
pub fn taken(alloc: Global, names: &[Name], scope: &Scope<'_>) -> Result<Vec<Entry>, Memory>
    ensures { IfOk result (λ v. map entry_in v.items ≡ taken (numbers_of names.now) (types_in scope.now) (streams_in scope.now)) }
{
    let mut held = Vec::new(alloc);
    for name in names {
        held.push(Entry {
            name: *name,
            ty: stream_type::copy(alloc, type_at(scope, *name, &Ty::Eps))?,
            prefix: stream_prefix::copy(alloc, stream_at(scope, *name, &Prefix::EpsEmp))?,
        })?;
    }
    Ok(held)
}

/// What is held, and behind it what comes: `held_more` in `delta_state`. Its only error is want of memory.
#[inline(never)]
pub fn more(alloc: Global, held: &[Entry], scope: &Scope<'_>) -> Result<Vec<Entry>, Memory>
    ensures { IfOk result (λ v. map entry_in v.items ≡ held_more (map entry_in held.now) (streams_in scope.now)) }
{
    let mut longer = Vec::new(alloc);
    for entry in held {
        longer.push(one_more(alloc, entry, scope)?)?;
    }
    Ok(longer)
}

/// The same in place: what comes is put behind what is held. What can't come counts as want of memory. After an
/// error some of it is changed.
#[inline(never)]
pub fn hold(alloc: Global, held: &mut [Entry], scope: &Scope<'_>) -> Result<(), Memory>
    ensures { OnOk result (map entry_in held.new ≡ held_more (map entry_in held.old) (streams_in scope.now)) }
{
    for entry in held.iter_mut() {
        hold_one(alloc, entry, &*scope)?;
    }
    Ok(())
}

// What comes on a held name, put behind what is held of it.
fn hold_one(alloc: Global, entry: &mut Entry, scope: &Scope<'_>) -> Result<(), Memory>
    ensures { OnOk result (entry_in entry.new ≡ record { name = entry.old.name.0; type = type_of entry.old.ty; prefix = join (prefix_of entry.old.prefix) (streams_in scope.now entry.old.name.0) }) }
{
    let next = stream_at(scope, entry.name, &Prefix::EpsEmp);
    join_behind(alloc, &mut entry.prefix, next)
}

fn one_more(alloc: Global, entry: &Entry, scope: &Scope<'_>) -> Result<Entry, Memory>
    ensures name { IfOk result (λ r. r.name ≡ entry.now.name) }
    ensures ty { IfOk result (λ r. type_of r.ty ≡ type_of entry.now.ty) }
    ensures prefix { IfOk result (λ r. prefix_of r.prefix ≡ join (prefix_of entry.now.prefix) (streams_in scope.now entry.now.name.0)) }
{
    let name = entry.name;
    let ty = stream_type::copy(alloc, &entry.ty)?;
    let next = stream_at(scope, name, &Prefix::EpsEmp);
    let prefix = joined(
        alloc,
        &entry.ty,
        &entry.prefix,
        stream_prefix::copy(alloc, next)?,
    )?;
    Ok(Entry { name, ty, prefix })
}
