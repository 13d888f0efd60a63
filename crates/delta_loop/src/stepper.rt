//! A program that runs event by event, as the loop sees it.

ghost use Rattle.std.specs.Prelude.{◌≡◌, ◌++◌, [], ◌∷◌, List, None, Some, true, IfOk, OnErr, IsErrOf};
ghost use Rattle.event_word.specs.StreamEvent.{StreamEvent};
ghost use Rattle.delta_loop.specs.declared.stepper.StepFault.TheVariants.{Memory as OutOfMemory};
ghost use Rattle.delta_loop.specs.Meaning.{Meaning, Stands, IsCostly, IsDeep};

use event_word::{Event, EventFault};
use std::alloc::Global;
use stream_type::Memory;

/// Why a program didn't take an event.
#[derive(Clone, Copy, Debug, PartialEq, Eq)]
pub enum StepFault {
    /// Memory ran out.
    Memory,
    /// The event isn't admitted.
    Refused(EventFault),
    /// The event alone makes more calls than the program may make.
    Budget,
    /// The event makes a call at a level above 1,000.
    Deep,
}

impl From<Memory> for StepFault {
    ghost from_gives = { λ _ e. e ≡ OutOfMemory };

    fn from(_: Memory) -> StepFault {
        StepFault::Memory
    }
}

/// A program that runs event by event. What it means is a `Meaning` (`specs/Meaning.antt`), whatever its language is.
pub trait Stepper: Sized + Drop {
    /// It stands for a program of this meaning after this word.
    ghost stands: { Self → Meaning → List StreamEvent → Type 0 };

    /// The second runs no other program than the first.
    ghost same_program: { Self → Self → Type 0 };

    /// Takes an event, and answers the bytes that answer it. After a fault it has taken nothing: after
    /// `Refused` it stands for what it stood for, and after want of memory and each other fault for that or
    /// for nothing. It runs no other program than before. Fewer than 2^42 events have come.
    fn step(&mut self, alloc: Global, event: Event) -> Result<Vec<u8>, StepFault>
        requires { Stands stands self.old }
        ensures ok { IfOk result (λ bytes. (P : Meaning) (word : List StreamEvent) → stands self.old P word
            → (P.fault word event ≡ None) × stands self.new P (word ++ event ∷ []) × (bytes.items ≡ P.answer word event)) }
        ensures refused { (fault : EventFault) → IsErrOf result (StepFault.Refused fault) → (P : Meaning) (word : List StreamEvent) → stands self.old P word
            → P.fault word event ≡ Some fault }
        ensures kept { (fault : EventFault) → IsErrOf result (StepFault.Refused fault) → (P : Meaning) (word : List StreamEvent) → stands self.old P word
            → stands self.new P word }
        ensures untaken { OnErr result ((P : Meaning) (word : List StreamEvent) → stands self.new P word → stands self.old P word) }
        ensures costly { IsErrOf result StepFault.Budget → (P : Meaning) (word : List StreamEvent) → stands self.old P word
            → (P.fault word event ≡ None) × IsCostly P word event }
        ensures deep { IsErrOf result StepFault.Deep → (P : Meaning) (word : List StreamEvent) → stands self.old P word
            → (P.fault word event ≡ None) × IsDeep P word event }
        ensures program { same_program self.old self.new };

    /// Whether the input may end here. Where it may, what was answered is whole.
    fn is_finished(&self) -> bool
        ensures finished { (P : Meaning) (word : List StreamEvent) → stands self.now P word → result ≡ P.finishes word }
        ensures whole { (P : Meaning) (word : List StreamEvent) → stands self.now P word → result ≡ true → P.is_whole word ≡ true };

    /// So it is before any event, and over more than one.
    ghost same_at_first: { (m : Self) → same_program m m };

    ghost same_throughout: { (a b c : Self) → same_program a b → same_program b c → same_program a c };
}
