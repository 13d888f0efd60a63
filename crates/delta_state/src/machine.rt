//! What a machine owes that runs a program event by event.

ghost use Rattle.std.specs.Prelude.{◌≡◌, ◌++◌, ◌<◌, ◌≤◌, [], ◌∷◌, List, ℕ, IsTrue, IfOk, OnOk, IsErrOf};
ghost use Rattle.stream_prefix.specs.Tree.{prefix_of};
ghost use Rattle.event_word.specs.StreamEvent.{StreamEvent};
ghost use Rattle.core_term.specs.CoreTerm.{core_of, fits_of};
ghost use Rattle.core_term.specs.Meaning.{mean, calls_of, level_of};
ghost use Rattle.delta_state.specs.declared.machine.StepRefusal.TheVariants.{Memory as OutOfMemory};
ghost use Rattle.delta_state.specs.PlainState.{capped, events_held, state_count};
ghost use Rattle.delta_state.specs.MachineView.{MachineView, StandsAfter, Awaits, MayTake, input_of, answer_to, IsCostly, IsDeep};

use core_term::Checked;
use event_word::Event;
use std::alloc::Global;
use stream_prefix::Prefix;
use stream_type::Memory;
use thiserror::Error;

/// Why a machine didn't start, or didn't take an event.
#[derive(Clone, Copy, PartialEq, Eq, Debug, Error)]
pub enum StepRefusal {
    /// Memory ran out.
    #[error("out of memory")]
    Memory,
    /// The start, or this event alone, makes more calls than this budget.
    #[error("more than {0} calls")]
    Budget(u64),
    /// A call at this level, the first that is too deep.
    #[error("a call at level {0}")]
    Deep(u64),
}

impl From<Memory> for StepRefusal {
    ghost from_gives = { λ _ refusal. refusal ≡ OutOfMemory };

    fn from(_: Memory) -> StepRefusal {
        StepRefusal::Memory
    }
}

/// A machine that runs a program event by event. What it is to contracts is a `MachineView`, and what it is
/// to stand for a program after a word is `StandsAfter` (both in `specs/MachineView.antt`).
pub trait Machine: Sized + Drop {
    /// Its program, its state and its place, and what it counts.
    ghost seen: { Self → MachineView };

    /// It stands for its program after this word. A machine may ask more of itself than the law below.
    ghost stands: { Self → List StreamEvent → Type 0 };

    /// Starts the program, and answers what it gives before any event. The budget is the number of calls
    /// that it may make now, and again at each event. `Budget` and `Deep` come only where the program makes
    /// more calls than these, or one at a level above 1,000.
    fn start(alloc: Global, c: &Checked, budget: u64) -> Result<(Self, Prefix), StepRefusal>
        requires fits { IsTrue (fits_of (core_of c.now)) }
        requires budget { budget ≤ 1000000 }
        ensures program { IfOk result (λ r. (seen r.0).program ≡ core_of c.now) }
        ensures budget { IfOk result (λ r. (seen r.0).budget ≡ budget) }
        ensures stands { IfOk result (λ r. stands r.0 []) }
        ensures answer { IfOk result (λ r. prefix_of r.1 ≡ mean (core_of c.now) (input_of (core_of c.now) [])) }
        ensures costly { (n : ℕ) → IsErrOf result (StepRefusal.Budget n) → (n ≡ budget) × (budget < calls_of (core_of c.now) (input_of (core_of c.now) [])) }
        ensures deep { (n : ℕ) → IsErrOf result (StepRefusal.Deep n) → (n ≡ 1001) × (1000 < level_of (core_of c.now) (input_of (core_of c.now) [])) };

    /// Takes an event, and answers what the program says to it. After a refusal the machine is spent: it
    /// can only be dropped. `Budget` and `Deep` come only where this event alone makes more calls than the
    /// budget, or the program on all that has come then makes one at a level above 1,000.
    fn step(&mut self, alloc: Global, x: &Event) -> Result<Prefix, StepRefusal>
        requires { MayTake seen stands self.old x.now }
        ensures program { OnOk result ((seen self.new).program ≡ (seen self.old).program) }
        ensures budget { OnOk result ((seen self.new).budget ≡ (seen self.old).budget) }
        ensures stands { OnOk result ((word : List StreamEvent) → Awaits seen stands self.old word x.now → stands self.new (word ++ x.now ∷ [])) }
        ensures answer { IfOk result (λ p. (word : List StreamEvent) → Awaits seen stands self.old word x.now
            → prefix_of p ≡ answer_to (seen self.old).program word x.now) }
        ensures costly { (n : ℕ) → IsErrOf result (StepRefusal.Budget n) → (n ≡ (seen self.old).budget)
            × ((word : List StreamEvent) → Awaits seen stands self.old word x.now → IsCostly (seen self.old).program n word x.now) }
        ensures deep { (n : ℕ) → IsErrOf result (StepRefusal.Deep n) → (n ≡ 1001)
            × ((word : List StreamEvent) → Awaits seen stands self.old word x.now → IsDeep (seen self.old).program 1000 word x.now) };

    /// The number of events in the canonical words of all that the machine holds, or the greatest number
    /// of 64 bits where that is less.
    fn held(&self) -> u64
        ensures { result ≡ capped (events_held (seen self.now).state) };

    /// The number of states in its state, with all code that isn't reached counted as one state each, or
    /// the greatest number of 64 bits where that is less.
    fn nodes(&self) -> u64
        ensures { result ≡ capped (state_count (seen self.now).state) };

    /// Where it stands after a word, its state stands for the program after that word, and so does its
    /// place.
    ghost stands_after: { (m : Self) (word : List StreamEvent) → stands m word → StandsAfter (seen m) word };
}
