//! States over templates.

ghost use Rattle.std.specs.Prelude.{◌≡◌};

use crate::code::Op;
use bunch::Name;
use hist_value::Value;
use machine_parts::entry::Entry;
use std::mem;
use std::rc::Rc;
use stream_type::Ty;

/// Historical names with their values, the last one first. Contracts see it as a list by `known_in`.
#[cycle(past)]
#[derive(Drop)]
pub enum Past {
    /// No more.
    None,
    /// A name, the type of the stream that was whole, its value, and the older names.
    Known(Name, Ty, Rc<Value>, Rc<Past>),
}

/// Code that isn't reached, the values that it sees, and its depth. Contracts see it as a `LaterTree` by
/// `later_in`.
#[derive(Drop)]
pub struct Later {
    /// The code.
    pub code: Rc<Op>,
    /// The values.
    pub past: Rc<Past>,
    /// How many calls may stand inside one another in it before one gives the empty prefix.
    pub depth: u64,
}

/// A state with its marks. Contracts see it as a `StateTree` by `state_in`; the forms are those of
/// `delta_state::State`.
#[cycle(live)]
#[derive(Drop)]
pub enum Live {
    /// Nothing comes any more; the type is null.
    Sink(Ty),
    /// The rest of the stream of a name.
    Var(Name),
    /// Both at once.
    Par(Box<Live>, Box<Live>),
    /// The rest of the first part, then the second.
    Cat(Box<Live>, Later),
    /// The name, whose type left is the second field, is what the first state gives in the second.
    Let(Name, Ty, Box<Live>, Box<Live>),
    /// `let (x, y) = z`.
    LetPar(Name, Name, Name, Box<Live>),
    /// `let (x; y) = z`, before the mark between the parts.
    LetCat(Name, Name, Name, Box<Live>),
    /// A case on a sum whose side hasn't come.
    CaseSum(Name, Ty, Vec<Entry>, Name, Later, Name, Later),
    /// A case on a star of which neither an item nor the end has come.
    CaseStar(Name, Ty, Vec<Entry>, Later, Name, Name, Later),
    /// A wait whose subject isn't whole.
    Wait(Name, Ty, Vec<Entry>, Later),
    /// A called body on its arguments.
    Frame(Box<Arguments>, Box<Live>),
}

/// The arguments of a call that was made, with the types left of their parameters.
#[cycle(live)]
#[derive(Drop)]
pub enum Arguments {
    /// No more.
    None,
    /// One before others.
    Before(Name, Ty, Box<Live>, Box<Arguments>),
}

/// Puts another state in the place of this one, which goes.
#[inline(never)]
pub fn put(s: &mut Live, other: Live)
    ensures { s.new ≡ other }
{
    drop(mem::replace(s, other));
}
