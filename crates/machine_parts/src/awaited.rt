//! What is awaited of the input.

ghost use Rattle.std.specs.Prelude.{◌≡◌, ◌++◌, [], ◌∷◌, map, IfOk, OnOk};
ghost use Rattle.stream_type.specs.StreamType.{type_of};
ghost use Rattle.stream_prefix.specs.Tree.{prefix_of};
ghost use Rattle.bunch.specs.BunchTree.{tree_of};
ghost use Rattle.machine_parts.specs.Entry.{entry_in};
ghost use Rattle.machine_parts.specs.AwaitedTree.{awaited_in, whole_of, still_entries, entries_on, awaited_after};

use crate::entry::Entry;
use bunch::{Bunch, Name};
use in_place::go_behind;
use std::alloc::Global;
use stream_prefix::Prefix;
use stream_type::{Memory, Ty};

/// What is awaited of the input: a tree of the shape of main's context. It doesn't grow with what comes.
/// Contracts see it as an `AwaitedTree` by `awaited_in` (`specs/AwaitedTree.antt`).
#[derive(Drop)]
pub enum Awaited {
    /// No name.
    Nothing,
    /// A name, and what is left of its type.
    Stream(Name, Ty),
    /// Both at once.
    AtOnce(Box<Awaited>, Box<Awaited>),
    /// One after the other: whether the mark between them has come, and both.
    InTurn(bool, Box<Awaited>, Box<Awaited>),
}

/// The whole of a context: `whole_of` in `specs/AwaitedTree.antt`. Its only error is want of memory.
pub fn whole(alloc: Global, b: &Bunch) -> Result<Box<Awaited>, Memory>
    ensures { IfOk result (λ a. awaited_in a.value ≡ whole_of (tree_of b.now)) }
{
    match b {
        Bunch::Empty => Ok(Box::new(alloc, Awaited::Nothing)?),
        Bunch::Leaf(x, t) => {
            let t = stream_type::copy(alloc, t)?;
            Ok(Box::new(alloc, Awaited::Stream(*x, t))?)
        }
        Bunch::Comma(a, b) => {
            let one = whole(alloc, a)?;
            let two = whole(alloc, b)?;
            Ok(Box::new(alloc, Awaited::AtOnce(one, two))?)
        }
        Bunch::Semi(a, b) => {
            let one = whole(alloc, a)?;
            let two = whole(alloc, b)?;
            Ok(Box::new(alloc, Awaited::InTurn(false, one, two))?)
        }
    }
}

/// Each name that is awaited, with its type and its part of what comes: `entries_on` in
/// `specs/AwaitedTree.antt`. What can't come counts as want of memory.
pub fn entries(alloc: Global, a: &Awaited, d: &Prefix) -> Result<Vec<Entry>, Memory>
    ensures { IfOk result (λ v. map entry_in v.items ≡ entries_on (awaited_in a.now) (prefix_of d.now)) }
{
    let mut found = Vec::new(alloc);
    add_entries(alloc, a, d, &mut found)?;
    Ok(found)
}

/// Each name that is awaited, with its type and nothing on it: `still_entries` in `specs/AwaitedTree.antt`. Its
/// only error is want of memory.
pub fn still(alloc: Global, a: &Awaited) -> Result<Vec<Entry>, Memory>
    ensures { IfOk result (λ v. map entry_in v.items ≡ still_entries (awaited_in a.now)) }
{
    let mut found = Vec::new(alloc);
    add_still(alloc, a, &mut found)?;
    Ok(found)
}

// Adds the names with their parts of what comes.
fn add_entries(alloc: Global, a: &Awaited, d: &Prefix, found: &mut Vec<Entry>) -> Result<(), Memory>
    ensures { OnOk result (map entry_in found.new.items ≡ map entry_in found.old.items ++ entries_on (awaited_in a.now) (prefix_of d.now)) }
{
    match a {
        Awaited::Nothing => Ok(()),
        Awaited::Stream(x, t) => {
            let ty = stream_type::copy(alloc, t)?;
            add(*x, ty, stream_prefix::copy(alloc, d)?, found)
        }
        Awaited::AtOnce(a, b) => match d {
            Prefix::Par(d, e) => {
                add_entries(alloc, a, d, found)?;
                add_entries(alloc, b, e, found)
            }
            _ => Err(Memory),
        },
        Awaited::InTurn(true, a, b) => {
            add_still(alloc, a, found)?;
            add_entries(alloc, b, d, found)
        }
        Awaited::InTurn(false, a, b) => match d {
            Prefix::CatFst(d) => {
                add_entries(alloc, a, d, found)?;
                add_still(alloc, b, found)
            }
            Prefix::CatBoth(d, e) => {
                add_entries(alloc, a, d, found)?;
                add_entries(alloc, b, e, found)
            }
            _ => Err(Memory),
        },
    }
}

// Adds the names with nothing on them.
fn add_still(alloc: Global, a: &Awaited, found: &mut Vec<Entry>) -> Result<(), Memory>
    ensures { OnOk result (map entry_in found.new.items ≡ map entry_in found.old.items ++ still_entries (awaited_in a.now)) }
{
    match a {
        Awaited::Nothing => Ok(()),
        Awaited::Stream(x, t) => {
            let ty = stream_type::copy(alloc, t)?;
            add(*x, ty, stream_prefix::empty(alloc, t)?, found)
        }
        Awaited::AtOnce(a, b) => {
            add_still(alloc, a, found)?;
            add_still(alloc, b, found)
        }
        Awaited::InTurn(_, a, b) => {
            add_still(alloc, a, found)?;
            add_still(alloc, b, found)
        }
    }
}

// Adds a name.
fn add(name: Name, ty: Ty, prefix: Prefix, found: &mut Vec<Entry>) -> Result<(), Memory>
    ensures { OnOk result (map entry_in found.new.items ≡ map entry_in found.old.items ++ record { name = name.0; type = type_of ty; prefix = prefix_of prefix } ∷ []) }
{
    found.push(Entry { name, ty, prefix })?;
    Ok(())
}

/// Goes on to what is awaited after this: `awaited_after` in `specs/AwaitedTree.antt`. What can't come counts
/// as want of memory.
pub fn go_on(alloc: Global, a: &mut Awaited, d: &Prefix) -> Result<(), Memory>
    ensures { OnOk result (awaited_in a.new ≡ awaited_after (awaited_in a.old) (prefix_of d.now)) }
{
    match a {
        Awaited::Nothing => Ok(()),
        Awaited::Stream(_, t) => {
            go_behind(alloc, t, d)?;
            Ok(())
        }
        Awaited::AtOnce(a, b) => match d {
            Prefix::Par(d, e) => {
                go_on(alloc, a, d)?;
                go_on(alloc, b, e)
            }
            _ => Err(Memory),
        },
        Awaited::InTurn(cut, a, b) => {
            if *cut {
                return go_on(alloc, b, d);
            }
            match d {
                Prefix::CatFst(d) => go_on(alloc, a, d),
                Prefix::CatBoth(d, e) => {
                    go_on(alloc, a, d)?;
                    *cut = true;
                    go_on(alloc, b, e)
                }
                _ => Err(Memory),
            }
        }
    }
}
