//! How much a state with its marks holds, and of how many states it is.

ghost use Rattle.std.specs.Prelude.{◌≡◌};
ghost use Rattle.delta_state.specs.PlainState.{without_marks, arguments_without_marks, capped, events_held, events_held_by, state_count, state_counts};
ghost use Rattle.delta_step.specs.Marked.{state_in, arguments_from};

use crate::marked::{Argument, Marked};
use machine_parts::held::words_len;

/// The number of events in the canonical words of all that the state holds: `events_held` in `delta_state`,
/// or the greatest number of 64 bits where that is less.
#[cycle(held)]
#[tactic(auto, using(crate::proofs::Rows::rows, delta_state::proofs::Counts::counts))]
pub fn held_events(s: &Marked) -> u64
    ensures { result ≡ capped (events_held (without_marks (state_in s.now))) }
{
    match s {
        Marked::Sink(_) | Marked::Var(_) => 0,
        Marked::Par(a, b) | Marked::Let(_, _, a, b) => held_events(a).saturating_add(held_events(
            b,
        )),
        Marked::Cat(a, _) | Marked::LetPar(_, _, _, a) | Marked::LetCat(_, _, _, a) => held_events(
            a,
        ),
        Marked::CaseSum(_, _, held, _, _, _, _) => words_len(held),
        Marked::CaseStar(_, _, held, _, _, _, _) => words_len(held),
        Marked::Wait(_, _, held, _) => words_len(held),
        Marked::Frame(arguments, a) => held_by_all(arguments).saturating_add(held_events(a)),
    }
}

// The same of arguments, added up.
#[cycle(held)]
#[tactic(auto, using(delta_state::proofs::Counts::counts))]
fn held_by_all(arguments: &[Argument]) -> u64
    ensures { result ≡ capped (events_held_by (arguments_without_marks (arguments_from arguments.now))) }
{
    match arguments.split_first() {
        None => 0,
        Some((argument, others)) => {
            held_events(&argument.state).saturating_add(held_by_all(others))
        }
    }
}

/// The number of states in the state, with all code that isn't reached counted as one state each:
/// `state_count` in `delta_state`, or the greatest number of 64 bits where that is less.
#[cycle(count)]
#[tactic(auto, using(crate::proofs::Rows::rows, delta_state::proofs::Counts::counts))]
pub fn count_states(s: &Marked) -> u64
    ensures { result ≡ capped (state_count (without_marks (state_in s.now))) }
{
    match s {
        Marked::Sink(_) | Marked::Var(_) => 1,
        Marked::Par(a, b) | Marked::Let(_, _, a, b) => {
            count_states(a)
                .saturating_add(count_states(b))
                .saturating_add(1)
        }
        Marked::Cat(a, _) => count_states(a).saturating_add(2),
        Marked::LetPar(_, _, _, a) | Marked::LetCat(_, _, _, a) => count_states(a).saturating_add(
            1,
        ),
        Marked::CaseSum(_, _, _, _, _, _, _) | Marked::CaseStar(_, _, _, _, _, _, _) => 3,
        Marked::Wait(_, _, _, _) => 2,
        Marked::Frame(arguments, a) => {
            count_all(arguments)
                .saturating_add(count_states(a))
                .saturating_add(1)
        }
    }
}

// The same of arguments, added up.
#[cycle(count)]
#[tactic(auto, using(delta_state::proofs::Counts::counts))]
fn count_all(arguments: &[Argument]) -> u64
    ensures { result ≡ capped (state_counts (arguments_without_marks (arguments_from arguments.now))) }
{
    match arguments.split_first() {
        None => 0,
        Some((argument, others)) => {
            count_states(&argument.state).saturating_add(count_all(others))
        }
    }
}
