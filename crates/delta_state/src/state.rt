//! The trees of states.

use bunch::Name;
use core_term::Node;
use hist_value::Value;
use stream_prefix::Prefix;
use stream_type::Ty;

/// A core term that isn't reached yet. Contracts see it as a `PlainLater` by `later_of`
/// (`specs/PlainState.antt`).
#[derive(Drop)]
pub struct Later {
    /// The term.
    pub term: Node,
    /// The historical names that it may use, with their values. Of two entries with one name the first
    /// counts.
    pub past: Vec<(Name, Value)>,
    /// How many calls may stand inside one another in it before one gives the empty prefix.
    pub depth: u64,
}

/// What a case or a wait has taken on each of its free names before it could go on.
pub type Held = Vec<(Name, Prefix)>;

/// A core term that was partly run. Contracts see it as a `PlainState` by `state_of`
/// (`specs/PlainState.antt`).
#[cycle(state)]
#[derive(Drop)]
pub enum State {
    /// Nothing comes any more; the type is null.
    Sink(Ty),
    /// The rest of the stream of a name.
    Var(Name),
    /// Both at once.
    Par(Box<State>, Box<State>),
    /// The rest of the first part, then the second.
    Cat(Box<State>, Later),
    /// The name is what the first state gives in the second.
    Let(Name, Box<State>, Box<State>),
    /// `let (x, y) = z`: the names of both sides, then the subject.
    LetPar(Name, Name, Name, Box<State>),
    /// `let (x; y) = z`, before the mark between the parts: their names, then the subject.
    LetCat(Name, Name, Name, Box<State>),
    /// A case on a sum whose side hasn't come: the subject, the result's type, what is held, and each
    /// branch after its name.
    CaseSum(Name, Ty, Held, Name, Later, Name, Later),
    /// A case on a star of which neither an item nor the end has come: the subject, the result's type,
    /// what is held, the branch at the end, and the branch of an item after the names of the item and of
    /// the rest.
    CaseStar(Name, Ty, Held, Later, Name, Name, Later),
    /// A wait whose subject isn't whole: the subject, the result's type, what is held, and what follows.
    Wait(Name, Ty, Held, Later),
    /// A called body on its arguments.
    Frame(Vec<Argument>, Box<State>),
}

/// An argument of a call that was made.
#[cycle(state)]
#[derive(Drop)]
pub struct Argument {
    /// The parameter that it is for.
    pub name: Name,
    /// What it gives.
    pub state: State,
}
