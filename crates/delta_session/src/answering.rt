//! What a session runs.

ghost use Rattle.std.specs.Prelude.{◌≡◌, ◌++◌, ◌∷◌, [], List, ℕ, IfOk, OnOk, IsErrOf};
ghost use Rattle.stream_prefix.specs.Tree.{prefix_of};
ghost use Rattle.event_word.specs.StreamEvent.{StreamEvent};
ghost use Rattle.core_term.specs.CoreTerm.{CoreProgram};
ghost use Rattle.delta_state.specs.PlainState.{capped, events_held, state_count};
ghost use Rattle.delta_state.specs.MachineView.{MachineView};
ghost use Rattle.delta_session.specs.OneShot.{said_to, IsCostly, IsDeep};
ghost use Rattle.delta_session.specs.Course.{Course, GoesOn, MayAnswer, WhereItAwaits};

use delta_state::StepRefusal;
use event_word::Event;
use std::alloc::Global;
use stream_prefix::Prefix;

/// A machine that answers events one by one, whatever it runs: a program from its start, or one that goes on from a
/// kept state. It stands for a course after a word (`specs/Course.antt`).
pub trait Answers: Sized + Drop {
    /// Its program, its state and its place, and what it counts.
    ghost seen: { Self → MachineView };

    /// It stands for this course after this word.
    ghost stands: { Self → Course → List StreamEvent → Type 0 };

    /// The second runs what the first ran.
    ghost same: { Self → Self → Type 0 };

    /// Takes an event, and answers what is said to it. After a refusal the machine is spent: it can only be dropped.
    /// `Budget` and `Deep` come only where this event alone makes more calls than the budget, or all that has come
    /// then makes one at a level above 1,000.
    fn answer(&mut self, alloc: Global, x: &Event) -> Result<Prefix, StepRefusal>
        requires { MayAnswer stands self.old x.now }
        ensures same { OnOk result (same self.old self.new) }
        ensures stands { OnOk result (WhereItAwaits stands self.old x.now (λ course word. stands self.new course (word ++ x.now ∷ []))) }
        ensures answer { IfOk result (λ p. WhereItAwaits stands self.old x.now (λ course word. prefix_of p ≡ said_to course.gives word x.now)) }
        ensures costly { (n : ℕ) → IsErrOf result (StepRefusal.Budget n) → WhereItAwaits stands self.old x.now (λ course word. (n ≡ course.budget) × IsCostly course.gives n word x.now) }
        ensures deep { (n : ℕ) → IsErrOf result (StepRefusal.Deep n) → WhereItAwaits stands self.old x.now (λ course word. (n ≡ 1001) × IsDeep course.gives 1000 word x.now) };

    /// The number of events in the canonical words of all that the machine holds, or the greatest number
    /// of 64 bits where that is less.
    fn events_held(&self) -> u64
        ensures { result ≡ capped (events_held (seen self.now).state) };

    /// The number of states in its state, with all code that isn't reached counted as one state each, or
    /// the greatest number of 64 bits where that is less.
    fn state_count(&self) -> u64
        ensures { result ≡ capped (state_count (seen self.now).state) };

    /// Where it stands for a course after a word, that goes on.
    ghost goes_on: { (m : Self) (course : Course) (word : List StreamEvent) → stands m course word → GoesOn course word };

    /// It runs what it runs, and so it is over more than one event.
    ghost same_at_first: { (m : Self) → same m m };

    ghost same_throughout: { (a b c : Self) → same a b → same b c → same a c };

    /// What runs the same runs the same program.
    ghost same_program: { (a b : Self) → same a b → (c : CoreProgram) → (seen a).program ≡ c → (seen b).program ≡ c };
}
