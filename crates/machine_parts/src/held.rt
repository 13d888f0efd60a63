//! How much is held.

ghost use Rattle.std.specs.Prelude.{◌≡◌, map};
ghost use Rattle.delta_state.specs.PlainState.{plain_held, capped, events_in};
ghost use Rattle.machine_parts.specs.Entry.{entry_in};

use crate::entry::Entry;
use delta_state::word_len;

/// The number of events in the canonical words of held prefixes: `events_in` in `delta_state`, or the
/// greatest number of 64 bits where that is less.
#[tactic(auto, using(delta_state::proofs::Counts::counts))]
pub fn words_len(held: &[Entry]) -> u64
    ensures { result ≡ capped (events_in (plain_held (map entry_in held.now))) }
{
    match held.split_first() {
        None => 0,
        Some((entry, others)) => word_len(&entry.prefix).saturating_add(words_len(others)),
    }
}
