//! Laws of bounded machines, each the contract of a function with nothing in it.

ghost use Rattle.std.specs.Prelude.{◌≡◌, ◌≤◌, ℕ, List};
ghost use Rattle.event_word.specs.StreamEvent.{StreamEvent};
ghost use Rattle.core_term.specs.declared.program.Core.{Core};
ghost use Rattle.core_term.specs.CoreTerm.{core_of};
ghost use Rattle.delta_state.specs.PlainState.{capped, events_held};
ghost use Rattle.delta_bound.specs.Refusals.{HasBound};

use machine_bounds::Bounded;

/// A machine that stands after a word for a program of which `bound` answers n holds n events at most: what its
/// `held` answers is `capped (events_held (seen m).state)`.
pub fn held_at_most<M: Bounded>()
    ensures { (m : M) (word : List StreamEvent) (c : Core) (n : ℕ) → M.stands m word → (M.seen m).program ≡ core_of c → HasBound c n → capped (events_held (M.seen m).state) ≤ n }
{}
