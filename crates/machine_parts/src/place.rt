//! What the machine tells of itself: its state without marks, and its place.

ghost use Rattle.std.specs.Prelude.{◌≡◌, ◌++◌, map, IfOk, OnOk};
ghost use Rattle.stream_type.specs.StreamType.{type_of};
ghost use Rattle.delta_state.specs.StateTree.{held_names};
ghost use Rattle.delta_state.specs.StateMeaning.{types_held};
ghost use Rattle.delta_state.specs.PlaceTree.{place_of};
ghost use Rattle.machine_parts.specs.Entry.{entry_in};
ghost use Rattle.machine_parts.specs.AwaitedTree.{awaited_in, marks_of, place_in};

use crate::awaited::{Awaited, still};
use crate::entry::Entry;
use crate::scope::{Scope, type_at};
use delta_state::Place;
use std::alloc::Global;
use stream_type::{Memory, Ty};

/// The place at which so much is awaited: `place_in` in `specs/AwaitedTree.antt`. Its only error is want of
/// memory.
pub fn place(alloc: Global, a: &Awaited) -> Result<Place, Memory>
    ensures { IfOk result (λ p. place_of p ≡ place_in (awaited_in a.now)) }
{
    let entries = still(alloc, a)?;
    let ins = types_left(alloc, &entries)?;
    let mut cuts = Vec::new(alloc);
    add_marks(a, &mut cuts)?;
    Ok(Place { ins, cuts })
}

// Of each entry the type that stands first with its name.
fn types_left(alloc: Global, entries: &[Entry]) -> Result<Vec<Ty>, Memory>
    ensures { IfOk result (λ v. map type_of v.items ≡ map (types_held (map entry_in entries.now)) (held_names (map entry_in entries.now))) }
{
    let scope = Scope::Names(entries);
    let mut types = Vec::new(alloc);
    for entry in entries {
        types.push(stream_type::copy(alloc, type_at(&scope, entry.name, &Ty::Eps))?)?;
    }
    Ok(types)
}

// Adds of each semicolon whether its mark has come.
fn add_marks(a: &Awaited, marks: &mut Vec<bool>) -> Result<(), Memory>
    ensures { OnOk result (marks.new.items ≡ marks.old.items ++ marks_of (awaited_in a.now)) }
{
    match a {
        Awaited::Nothing | Awaited::Stream(_, _) => Ok(()),
        Awaited::AtOnce(a, b) => {
            add_marks(a, marks)?;
            add_marks(b, marks)
        }
        Awaited::InTurn(cut, a, b) => {
            marks.push(*cut)?;
            add_marks(a, marks)?;
            add_marks(b, marks)
        }
    }
}
