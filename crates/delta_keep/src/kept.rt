//! The trees of kept states.

use bunch::Name;
use core_term::Node;
use hist_value::Value;
use stream_prefix::Prefix;
use stream_type::Ty;

/// A historical name: its value, and the type of the stream that was whole with this value. Contracts see
/// it by `known_of` (`specs/KeptView.antt`).
#[derive(Drop)]
pub struct Known {
    /// The name.
    pub name: Name,
    /// The type of the stream.
    pub ty: Box<Ty>,
    /// The value.
    pub value: Box<Value>,
}

/// A name of which something is held: its type from before anything was held, and what came since.
/// Contracts see it by `held_of` (`specs/KeptView.antt`).
#[derive(Drop)]
pub struct HeldName {
    /// The name.
    pub name: Name,
    /// Its type before.
    pub ty: Box<Ty>,
    /// What is held.
    pub prefix: Box<Prefix>,
}

/// A core term that isn't reached yet. Contracts see it by `later_of` (`specs/KeptView.antt`).
#[derive(Drop)]
pub struct Waiting {
    /// The term.
    pub code: Box<Node>,
    /// The historical names that it may use. Of two entries with one name the first counts.
    pub past: Vec<Known>,
    /// How many calls may stand inside one another in it before one gives the empty prefix.
    pub depth: u64,
}

/// The state of a kept run, with its marks: the types that stand beside names. Contracts see it as a
/// `StateTree` by `state_of` (`specs/KeptView.antt`); the forms are those of `delta_state::State`.
#[cycle(kept_state)]
#[derive(Drop)]
pub enum KeptState {
    /// Nothing comes any more; the type is null.
    Sink(Box<Ty>),
    /// The rest of the stream of a name.
    Var(Name),
    /// Both at once.
    Par(Box<KeptState>, Box<KeptState>),
    /// The rest of the first part, then the second.
    Cat(Box<KeptState>, Box<Waiting>),
    /// The name, whose type left stands beside it, is what the first state gives in the second.
    Let(Name, Box<Ty>, Box<KeptState>, Box<KeptState>),
    /// `let (x, y) = z`: the names of both sides, then the subject.
    LetPar(Name, Name, Name, Box<KeptState>),
    /// `let (x; y) = z`, before the mark between the parts: their names, then the subject.
    LetCat(Name, Name, Name, Box<KeptState>),
    /// A case on a sum whose side hasn't come: the subject, the result's type, what is held, and each
    /// branch after its name.
    CaseSum(Name, Box<Ty>, Vec<HeldName>, Name, Box<Waiting>, Name, Box<Waiting>),
    /// A case on a star of which neither an item nor the end has come: the subject, the result's type,
    /// what is held, the branch at the end, and the branch of an item after its two names.
    CaseStar(Name, Box<Ty>, Vec<HeldName>, Box<Waiting>, Name, Name, Box<Waiting>),
    /// A wait whose subject isn't whole: the subject, the result's type, what is held, and what follows.
    Wait(Name, Box<Ty>, Vec<HeldName>, Box<Waiting>),
    /// A called body on its arguments.
    Frame(Vec<Argument>, Box<KeptState>),
}

/// An argument of a call that was made.
#[cycle(kept_state)]
#[derive(Drop)]
pub struct Argument {
    /// The parameter that it is for.
    pub name: Name,
    /// What is left of the parameter's type.
    pub ty: Box<Ty>,
    /// What it gives.
    pub state: Box<KeptState>,
}

/// All that a run needs to go on. Contracts see it as a `KeptTree` by `kept_of`, and the places of the
/// nodes of its code by `places_kept` (`specs/KeptView.antt`).
#[derive(Drop)]
pub struct Kept {
    /// How many events were taken.
    pub events: u64,
    /// What is left of the types of main's parameters, in turn.
    pub ins: Vec<Ty>,
    /// Of each semicolon of main's bunch, a form before its parts, whether its mark has come.
    pub cuts: Vec<bool>,
    /// What is left of the type of the output.
    pub out: Box<Ty>,
    /// The state, with its marks.
    pub state: Box<KeptState>,
}

/// Drops a kept state. The crates above call this: one that drops a kept state by itself has the drop of each
/// form of its trees proved once more.
pub fn dismiss(k: Kept) {
    drop(k)
}
