//! What a machine owes that can be kept, and that goes on from what was kept.

ghost use Rattle.std.specs.Prelude.{◌≡◌, ◌++◌, ◌<◌, ◌≤◌, ◌^◌, [], ◌∷◌, List, ℕ, IfOk, OnOk, IsErrOf};
ghost use Rattle.stream_prefix.specs.Tree.{prefix_of};
ghost use Rattle.event_word.specs.StreamEvent.{StreamEvent};
ghost use Rattle.core_term.specs.CoreTerm.{core_of};
ghost use Rattle.delta_state.specs.PlainState.{without_marks};
ghost use Rattle.delta_state.specs.MachineView.{input_of};
ghost use Rattle.delta_state.specs.Stands.{output_left};
ghost use Rattle.kept_state.specs.KeptTree.{KeptTree};
ghost use Rattle.kept_state.specs.KeptTyping.{IsTypedKept};
ghost use Rattle.kept_state.specs.KeptMeaning.{output_since};
ghost use Rattle.kept_state.specs.KeptSince.{place_kept};
ghost use Rattle.kept_state.specs.Laws.{input_since, IsKept, IsKeptSince};
ghost use Rattle.delta_keep.specs.KeptView.{kept_of};
ghost use Rattle.machine_kept.specs.SinceView.{StandsSince, AwaitsSince, MayTakeSince, answer_since, IsCostlySince, IsDeepSince};

use core_term::Checked;
use delta_keep::Kept;
use delta_state::{Machine, StepRefusal};
use event_word::Event;
use std::alloc::Global;
use stream_prefix::Prefix;
use stream_type::Memory;

/// A machine that can be kept, and that goes on from what was kept. Where it goes on from a kept state it stands
/// for that state after the word of what came since (`StandsSince` in `specs/SinceView.antt`).
pub trait Keeping: Machine {
    /// It stands for the kept state after this word. A machine may ask more of itself than the law below.
    ghost since: { Self → KeptTree → List StreamEvent → Type 0 };

    /// What is to be kept of it. Where it stands for its program after a word, or for a kept state after what came since,
    /// and has taken at most 2^41 events in all, what is kept is typed and goes on just as the program does, or as that state
    /// (`IsKept` and `IsKeptSince` in `kept_state`), and its output's type is what is left of theirs. Its only error is want
    /// of memory.
    fn to_kept(&self, alloc: Global) -> Result<Kept, Memory>
        ensures events { IfOk result (λ k. (kept_of k).events ≡ (Self.seen self.now).events) }
        ensures place { IfOk result (λ k. place_kept (kept_of k) ≡ (Self.seen self.now).place) }
        ensures state { IfOk result (λ k. without_marks (kept_of k).state ≡ (Self.seen self.now).state) }
        ensures kept { IfOk result (λ k. (word : List StreamEvent) → Self.stands self.now word → (Self.seen self.now).events ≤ 2 ^ 41
            → IsKept (Self.seen self.now).program (input_of (Self.seen self.now).program word) (kept_of k)) }
        ensures output { IfOk result (λ k. (word : List StreamEvent) → Self.stands self.now word
            → (kept_of k).out ≡ output_left (Self.seen self.now).program (input_of (Self.seen self.now).program word)) }
        ensures kept_again { IfOk result (λ l. (k : KeptTree) (word : List StreamEvent) → since self.now k word → (Self.seen self.now).events ≤ 2 ^ 41
            → IsKeptSince (Self.seen self.now).program k (input_since (Self.seen self.now).program k word) (kept_of l)) }
        ensures output_again { IfOk result (λ l. (k : KeptTree) (word : List StreamEvent) → since self.now k word
            → (kept_of l).out ≡ output_since (Self.seen self.now).program k (input_since (Self.seen self.now).program k word)) };

    /// A machine that goes on from what was kept of a run of the program, or of whatever is typed for it. The budget
    /// is the number of calls that it may make at each event. Its only error is want of memory.
    fn from_kept(alloc: Global, c: &Checked, k: &Kept, budget: u64) -> Result<Self, Memory>
        requires typed { IsTypedKept (core_of c.now) (kept_of k.now) }
        requires budget { budget ≤ 1000000 }
        ensures program { IfOk result (λ m. (Self.seen m).program ≡ core_of c.now) }
        ensures budget { IfOk result (λ m. (Self.seen m).budget ≡ budget) }
        ensures events { IfOk result (λ m. (Self.seen m).events ≡ (kept_of k.now).events) }
        ensures place { IfOk result (λ m. (Self.seen m).place ≡ place_kept (kept_of k.now)) }
        ensures state { IfOk result (λ m. (Self.seen m).state ≡ without_marks (kept_of k.now).state) }
        ensures stands { IfOk result (λ m. Self.since m (kept_of k.now) []) };

    /// Takes an event where it goes on from a kept state, and answers what that says to it. After a refusal the
    /// machine is spent: it can only be dropped. `Budget` and `Deep` come only where this event alone makes more
    /// calls than the budget, or the kept state on all that has come since then makes one at a level above 1,000.
    fn step_since(&mut self, alloc: Global, x: &Event) -> Result<Prefix, StepRefusal>
        requires { MayTakeSince Self.seen since self.old x.now }
        ensures program { OnOk result ((Self.seen self.new).program ≡ (Self.seen self.old).program) }
        ensures budget { OnOk result ((Self.seen self.new).budget ≡ (Self.seen self.old).budget) }
        ensures stands { OnOk result ((k : KeptTree) (word : List StreamEvent) → AwaitsSince Self.seen since self.old k word x.now → since self.new k (word ++ x.now ∷ [])) }
        ensures answer { IfOk result (λ p. (k : KeptTree) (word : List StreamEvent) → AwaitsSince Self.seen since self.old k word x.now
            → prefix_of p ≡ answer_since (Self.seen self.old).program k word x.now) }
        ensures costly { (n : ℕ) → IsErrOf result (StepRefusal.Budget n) → (n ≡ (Self.seen self.old).budget)
            × ((k : KeptTree) (word : List StreamEvent) → AwaitsSince Self.seen since self.old k word x.now → IsCostlySince (Self.seen self.old).program k n word x.now) }
        ensures deep { (n : ℕ) → IsErrOf result (StepRefusal.Deep n) → (n ≡ 1001)
            × ((k : KeptTree) (word : List StreamEvent) → AwaitsSince Self.seen since self.old k word x.now → IsDeepSince (Self.seen self.old).program k 1000 word x.now) };

    /// Where it stands for a kept state after a word, its state does, and so does its place.
    ghost stands_since: { (m : Self) (k : KeptTree) (word : List StreamEvent) → since m k word → StandsSince (Self.seen m) k word };
}
