//! Scopes: the stream names that a part may use, with what comes on them.

ghost use Rattle.std.specs.Prelude.{◌≡◌, map, OnOk};
ghost use Rattle.bunch.specs.Names.{put};
ghost use Rattle.core_term.specs.Environment.{Environment, NameTypes};
ghost use Rattle.stream_type.specs.StreamType.{type_of, eps};
ghost use Rattle.stream_prefix.specs.StreamPrefix.{eps_emp};
ghost use Rattle.stream_prefix.specs.Tree.{prefix_of};
ghost use Rattle.delta_state.specs.StateMeaning.{types_held, prefixes_held};
ghost use Rattle.machine_parts.specs.Entry.{entry_in};
ghost use Rattle.machine_parts.specs.Scope.{types_in, streams_in, types_over, streams_over};

use crate::entry::Entry;
use bunch::Name;
use std::alloc::Global;
use stream_prefix::Prefix;
use stream_type::{Memory, Ty, copy};

/// The stream names that a part may use, with their types and what comes on them. Contracts see the types
/// by `types_in`, and what comes by `streams_in` (`specs/Scope.antt`).
#[derive(Clone, Copy)]
pub enum Scope<'a> {
    /// These names, of which the first with a name counts.
    Names(&'a [Entry]),
    /// A name before a scope that it hides the name of.
    Stream(Name, &'a Ty, &'a Prefix, &'a Scope<'a>),
    /// Names that were bound in turn before a scope: each hides its name in those before it, and in the scope.
    Lets(&'a [Entry], &'a Scope<'a>),
}

/// The type of a stream name, or `none`.
pub fn type_at<'a>(scope: &'a Scope<'a>, x: Name, none: &'a Ty) -> &'a Ty
    requires { type_of none.now ≡ eps }
    ensures { type_of result.now ≡ types_in scope.now x.0 }
{
    match scope {
        Scope::Names(entries) => type_among(entries, x, none),
        Scope::Stream(y, t, _, outer) => {
            if x.0 == y.0 {
                t
            } else {
                type_at(outer, x, none)
            }
        }
        Scope::Lets(entries, outer) => type_over(entries, x, type_at(outer, x, none)),
    }
}

// The type of the last of these with the name, or `below`.
fn type_over<'a>(entries: &'a [Entry], x: Name, below: &'a Ty) -> &'a Ty
    ensures { (c : NameTypes) → type_of below.now ≡ c x.0 → type_of result.now ≡ types_over entries.now c x.0 }
{
    match entries.split_first() {
        None => below,
        Some((first, rest)) => {
            let found = if x.0 == first.name.0 {
                &first.ty
            } else {
                below
            };
            type_over(rest, x, found)
        }
    }
}

// The type of the first entry with the name, or `none`.
fn type_among<'a>(entries: &'a [Entry], x: Name, none: &'a Ty) -> &'a Ty
    requires { type_of none.now ≡ eps }
    ensures { type_of result.now ≡ types_held (map entry_in entries.now) x.0 }
{
    match entries.split_first() {
        None => none,
        Some((first, rest)) => {
            if x.0 == first.name.0 {
                &first.ty
            } else {
                type_among(rest, x, none)
            }
        }
    }
}

/// What comes on a stream name, or `nothing`.
pub fn stream_at<'a>(scope: &'a Scope<'a>, x: Name, nothing: &'a Prefix) -> &'a Prefix
    requires { prefix_of nothing.now ≡ eps_emp }
    ensures { prefix_of result.now ≡ streams_in scope.now x.0 }
{
    match scope {
        Scope::Names(entries) => stream_among(entries, x, nothing),
        Scope::Stream(y, _, p, outer) => {
            if x.0 == y.0 {
                p
            } else {
                stream_at(outer, x, nothing)
            }
        }
        Scope::Lets(entries, outer) => stream_over(entries, x, stream_at(outer, x, nothing)),
    }
}

// What the last of these with the name has, or `below`.
fn stream_over<'a>(entries: &'a [Entry], x: Name, below: &'a Prefix) -> &'a Prefix
    ensures { (c : Environment) → prefix_of below.now ≡ c x.0 → prefix_of result.now ≡ streams_over entries.now c x.0 }
{
    match entries.split_first() {
        None => below,
        Some((first, rest)) => {
            let found = if x.0 == first.name.0 {
                &first.prefix
            } else {
                below
            };
            stream_over(rest, x, found)
        }
    }
}

// What the first entry with the name has, or `nothing`.
fn stream_among<'a>(entries: &'a [Entry], x: Name, nothing: &'a Prefix) -> &'a Prefix
    requires { prefix_of nothing.now ≡ eps_emp }
    ensures { prefix_of result.now ≡ prefixes_held (map entry_in entries.now) x.0 }
{
    match entries.split_first() {
        None => nothing,
        Some((first, rest)) => {
            if x.0 == first.name.0 {
                &first.prefix
            } else {
                stream_among(rest, x, nothing)
            }
        }
    }
}

/// One name more behind those that were bound before it, with its type and what comes on it. Its only error is
/// want of memory.
#[tactic(auto, using(crate::proofs::Bound::types_over_one, crate::proofs::Bound::streams_over_one))]
pub fn bind(
    alloc: Global,
    entries: &mut Vec<Entry>,
    x: Name,
    t: &Ty,
    p: Box<Prefix>,
) -> Result<(), Memory>
    ensures types { OnOk result ((c : NameTypes) → types_over entries.new.items c ≡ put x.0 (type_of t.now) (types_over entries.old.items c)) }
    ensures streams { OnOk result ((e : Environment) → streams_over entries.new.items e ≡ put x.0 (prefix_of p.value) (streams_over entries.old.items e)) }
{
    let ty = copy(alloc, t)?;
    let prefix = Box::into_inner(p);
    entries.push(Entry {
        name: x,
        ty,
        prefix,
    })?;
    Ok(())
}
