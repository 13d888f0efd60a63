//! How much a state of the compiled machine holds, and of how many states it is.

ghost use Rattle.std.specs.Prelude.{◌≡◌};
ghost use Rattle.delta_state.specs.PlainState.{without_marks, arguments_without_marks, capped, events_held, events_held_by, state_count, state_counts};
ghost use Rattle.template_state.specs.Readers.{state_in, arguments_in};

use crate::live::{Arguments, Live};
use machine_parts::held::words_len;

/// The number of events in the canonical words of all that the state holds: `events_held` in `delta_state`,
/// or the greatest number of 64 bits where that is less.
#[cycle(held)]
#[tactic(auto, using(delta_state::proofs::Counts::counts))]
pub fn held_events(s: &Live) -> u64
    ensures { result ≡ capped (events_held (without_marks (state_in s.now))) }
{
    match s {
        Live::Sink(_) | Live::Var(_) => 0,
        Live::Par(a, b) | Live::Let(_, _, a, b) => held_events(a).saturating_add(held_events(b)),
        Live::Cat(a, _) | Live::LetPar(_, _, _, a) | Live::LetCat(_, _, _, a) => held_events(a),
        Live::CaseSum(_, _, held, _, _, _, _) => words_len(held),
        Live::CaseStar(_, _, held, _, _, _, _) => words_len(held),
        Live::Wait(_, _, held, _) => words_len(held),
        Live::Frame(args, a) => held_by_all(args).saturating_add(held_events(a)),
    }
}

// The same of arguments, added up.
#[cycle(held)]
#[tactic(auto, using(delta_state::proofs::Counts::counts))]
fn held_by_all(args: &Arguments) -> u64
    ensures { result ≡ capped (events_held_by (arguments_without_marks (arguments_in args.now))) }
{
    match args {
        Arguments::None => 0,
        Arguments::Before(_, _, a, others) => held_events(a).saturating_add(held_by_all(others)),
    }
}

/// The number of states in the state, with all code that isn't reached counted as one state each:
/// `state_count` in `delta_state`, or the greatest number of 64 bits where that is less.
#[cycle(count)]
#[tactic(auto, using(delta_state::proofs::Counts::counts))]
pub fn count_states(s: &Live) -> u64
    ensures { result ≡ capped (state_count (without_marks (state_in s.now))) }
{
    match s {
        Live::Sink(_) | Live::Var(_) => 1,
        Live::Par(a, b) | Live::Let(_, _, a, b) => {
            count_states(a)
                .saturating_add(count_states(b))
                .saturating_add(1)
        }
        Live::Cat(a, _) => count_states(a).saturating_add(2),
        Live::LetPar(_, _, _, a) | Live::LetCat(_, _, _, a) => count_states(a).saturating_add(1),
        Live::CaseSum(_, _, _, _, _, _, _) | Live::CaseStar(_, _, _, _, _, _, _) => 3,
        Live::Wait(_, _, _, _) => 2,
        Live::Frame(args, a) => {
            count_all(args)
                .saturating_add(count_states(a))
                .saturating_add(1)
        }
    }
}

// The same of arguments, added up.
#[cycle(count)]
#[tactic(auto, using(delta_state::proofs::Counts::counts))]
fn count_all(args: &Arguments) -> u64
    ensures { result ≡ capped (state_counts (arguments_without_marks (arguments_in args.now))) }
{
    match args {
        Arguments::None => 0,
        Arguments::Before(_, _, a, others) => count_states(a).saturating_add(count_all(others)),
    }
}
