//! How much a state holds, and of how many states it is.

ghost use Rattle.std.specs.Prelude.{◌≡◌, map, length};
ghost use Rattle.stream_prefix.specs.StreamPrefix.{star_emp};
ghost use Rattle.stream_prefix.specs.Tree.{prefix_of, end_of, star_of};
ghost use Rattle.event_word.specs.Canon.{canon};
ghost use Rattle.delta_state.specs.PlainState.{state_of, held_of, argument_of, arguments_from, capped, events_in, events_held, events_held_by, state_count, state_counts};

use crate::state::{Argument, State};
use bunch::Name;
use stream_prefix::{Prefix, StarEnd};

/// The number of events in the canonical words of all that the state holds: `events_held` in
/// `specs/PlainState.antt`, or the greatest number of 64 bits where that is less.
#[cycle(held)]
#[tactic(auto, using(crate::proofs::Rows::rows, crate::proofs::Counts::counts))]
pub fn held_events(s: &State) -> u64
    ensures { result ≡ capped (events_held (state_of s.now)) }
{
    match s {
        State::Sink(_) | State::Var(_) => 0,
        State::Par(a, b) | State::Let(_, a, b) => held_events(a).saturating_add(held_events(b)),
        State::Cat(a, _) | State::LetPar(_, _, _, a) | State::LetCat(_, _, _, a) => held_events(a),
        State::CaseSum(_, _, held, _, _, _, _) => words_len(held),
        State::CaseStar(_, _, held, _, _, _, _) => words_len(held),
        State::Wait(_, _, held, _) => words_len(held),
        State::Frame(arguments, a) => held_by_all(arguments).saturating_add(held_events(a)),
    }
}

// The same of arguments, added up.
#[cycle(held)]
#[tactic(auto, using(crate::proofs::Counts::counts))]
fn held_by_all(arguments: &[Argument]) -> u64
    ensures { result ≡ capped (events_held_by (arguments_from (map argument_of arguments.now))) }
{
    let mut events: u64 = 0;
    for argument in arguments {
        events = events.saturating_add(held_events(&argument.state));
    }
    events
}

// The number of events in the canonical words of held prefixes.
#[tactic(auto, using(crate::proofs::Counts::counts))]
fn words_len(held: &[(Name, Prefix)]) -> u64
    ensures { result ≡ capped (events_in (held_of held.now)) }
{
    let mut events: u64 = 0;
    for (_, prefix) in held {
        events = events.saturating_add(word_len(prefix));
    }
    events
}

/// The number of events in the canonical word of a prefix, or the greatest number of 64 bits where that is
/// less.
#[cycle(word_len)]
#[tactic(auto, using(stream_prefix::proofs::Rows::rows, crate::proofs::Counts::counts))]
pub fn word_len(p: &Prefix) -> u64
    ensures { result ≡ capped (length (canon (prefix_of p.now))) }
{
    match p {
        Prefix::EpsEmp | Prefix::OneEmp | Prefix::IntEmp | Prefix::SumEmp => 0,
        Prefix::OneFull | Prefix::IntFull(_) => 1,
        Prefix::Par(p, q) => word_len(p).saturating_add(word_len(q)),
        Prefix::CatFst(p) => word_len(p),
        Prefix::CatBoth(p, q) => word_len(p).saturating_add(word_len(q)).saturating_add(1),
        Prefix::Inl(p) | Prefix::Inr(p) => word_len(p).saturating_add(1),
        Prefix::Star(items, end) => items_len(items).saturating_add(end_len(end)),
    }
}

// The number of events of whole items: each begins with Item and ends with Cut.
#[cycle(word_len)]
#[tactic(auto, using(crate::proofs::Counts::counts))]
fn items_len(items: &[Prefix]) -> u64
    ensures { result ≡ capped (length (canon (star_of (map prefix_of items.now) star_emp))) }
{
    let mut events: u64 = 0;
    for item in items {
        events = events.saturating_add(word_len(item)).saturating_add(2);
    }
    events
}

// The number of events of what comes after a star's whole items.
#[cycle(word_len)]
#[tactic(auto, using(crate::proofs::Counts::counts))]
fn end_len(end: &StarEnd) -> u64
    ensures { result ≡ capped (length (canon (end_of end.now))) }
{
    match end {
        StarEnd::Emp => 0,
        StarEnd::Done => 1,
        StarEnd::First(p) => word_len(p).saturating_add(1),
    }
}

/// The number of states in the state, with all code that isn't reached counted as one state each:
/// `state_count` in `specs/PlainState.antt`, or the greatest number of 64 bits where that is less.
#[cycle(count)]
#[tactic(auto, using(crate::proofs::Rows::rows, crate::proofs::Counts::counts))]
pub fn count_states(s: &State) -> u64
    ensures { result ≡ capped (state_count (state_of s.now)) }
{
    match s {
        State::Sink(_) | State::Var(_) => 1,
        State::Par(a, b) | State::Let(_, a, b) => {
            count_states(a)
                .saturating_add(count_states(b))
                .saturating_add(1)
        }
        State::Cat(a, _) => count_states(a).saturating_add(2),
        State::LetPar(_, _, _, a) | State::LetCat(_, _, _, a) => count_states(a).saturating_add(1),
        State::CaseSum(_, _, _, _, _, _, _) | State::CaseStar(_, _, _, _, _, _, _) => 3,
        State::Wait(_, _, _, _) => 2,
        State::Frame(arguments, a) => {
            count_all(arguments)
                .saturating_add(count_states(a))
                .saturating_add(1)
        }
    }
}

// The same of arguments, added up.
#[cycle(count)]
#[tactic(auto, using(crate::proofs::Counts::counts))]
fn count_all(arguments: &[Argument]) -> u64
    ensures { result ≡ capped (state_counts (arguments_from (map argument_of arguments.now))) }
{
    let mut states: u64 = 0;
    for argument in arguments {
        states = states.saturating_add(count_states(&argument.state));
    }
    states
}
