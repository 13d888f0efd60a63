//! A program run on a word.

ghost use Rattle.std.specs.Prelude.{◌≡◌, ◌≤◌, ◌<◌, ◌^◌, ◌++◌, ◌∷◌, [], ℕ, None, IsTrue, IfOk, OnOk, IsErrOf, length};
ghost use Rattle.stream_type.specs.StreamType.{type_of};
ghost use Rattle.stream_prefix.specs.StreamPrefix.{IsPrefix, is_maximal};
ghost use Rattle.stream_prefix.specs.Tree.{prefix_of};
ghost use Rattle.event_word.specs.EventFault.{fault_of};
ghost use Rattle.event_word.specs.Canon.{canon};
ghost use Rattle.event_word.specs.Word.{IsWord};
ghost use Rattle.core_term.specs.CoreTerm.{core_of, fits_of};
ghost use Rattle.core_term.specs.Meaning.{mean};
ghost use Rattle.delta_state.specs.MachineView.{input_of};
ghost use Rattle.delta_state.specs.Stands.{input_type};
ghost use Rattle.delta_session.specs.OneShot.{said_to, IsCostly, IsDeep};
ghost use Rattle.delta_session.specs.Standing.{Stands, WhereItStands, IsOpen};
ghost use Rattle.commands.specs.Stopping.{StopsForCallsAt, StopsForLevelAt};

use crate::fault::WordFault;
use core_term::Checked;
use delta_session::{Answers, FeedRefusal, OpenRefusal, Session};
use delta_state::Machine;
use event_word::Event;
use std::alloc::Global;
use stream_prefix::Prefix;
use stream_type::Memory;

// A word behind another.
fn append(said: &mut Vec<Event>, word: Vec<Event>) -> Result<(), Memory>
    ensures { OnOk result (said.new.items ≡ said.old.items ++ word.items) }
{
    let mut word = word;
    Ok(said.append(&mut word)?)
}

// Feeds an event that may come next, the one of this number, and appends what is answered.
fn feed_one<A: Answers>(
    alloc: Global,
    session: &mut Session<A>,
    event: Event,
    at: u64,
    said: &mut Vec<Event>,
) -> Result<(), WordFault>
    requires open { IsOpen A.stands session.old }
    requires admitted { fault_of event (type_of session.old.rest) ≡ None }
    requires room { session.old.events < 2 ^ 42 }
    ensures stands { OnOk result (WhereItStands A.stands session.old (λ course word. Stands A.stands session.new course (word ++ event ∷ []))) }
    ensures said { OnOk result (WhereItStands A.stands session.old (λ course word. said.new.items ≡ said.old.items ++ canon (said_to course.gives word event))) }
    ensures costly { (n : ℕ) → IsErrOf result (WordFault.Budget n) → (n ≡ at) × WhereItStands A.stands session.old (λ course word. IsCostly course.gives course.budget word event) }
    ensures deep { (n : ℕ) → IsErrOf result (WordFault.Deep n) → (n ≡ at) × WhereItStands A.stands session.old (λ course word. IsDeep course.gives 1000 word event) }
{
    match session.feed(alloc, event) {
        Ok(word) => Ok(append(said, word)?),
        Err(FeedRefusal::Memory) => Err(WordFault::Memory),
        Err(FeedRefusal::Budget(_)) => Err(WordFault::Budget(at)),
        Err(FeedRefusal::Deep(_)) => Err(WordFault::Deep(at)),
        Err(FeedRefusal::Closed(_)) => unreachable!(),
        Err(FeedRefusal::Refused(_)) => unreachable!(),
    }
}

/// Runs a program on a word of its input's type, event by event, with so many calls before any event and again at
/// each event, and answers all that it says: what it gives on the whole word in one look. `Budget` and `Deep` come
/// only where it makes more calls than these, or one at a level above 1,000, and tell the event.
pub fn run_word<M: Machine>(
    alloc: Global,
    checked: &Checked,
    budget: u64,
    word: &[Event],
) -> Result<Prefix, WordFault>
    requires fits { IsTrue (fits_of (core_of checked.now)) }
    requires budget { budget ≤ 1000000 }
    requires word { IsWord (input_type (core_of checked.now)) word.now }
    requires room { length word.now ≤ 2 ^ 42 }
    ensures means { IfOk result (λ p. prefix_of p ≡ mean (core_of checked.now) (input_of (core_of checked.now) word.now)) }
    ensures prefix { IfOk result (λ p. IsPrefix (core_of checked.now).main.result (prefix_of p)) }
    ensures whole { IfOk result (λ p. IsTrue (is_maximal (input_of (core_of checked.now) word.now)) → IsTrue (is_maximal (prefix_of p))) }
    ensures costly { (at : ℕ) → IsErrOf result (WordFault.Budget at) → StopsForCallsAt (core_of checked.now) budget word.now at }
    ensures deep { (at : ℕ) → IsErrOf result (WordFault.Deep at) → StopsForLevelAt (core_of checked.now) 1000 word.now at }
{
    match Session::<M>::open(alloc, checked, budget) {
        Ok((session, said)) => {
            let mut session = session;
            let mut said = said;
            for (at, event) in word.iter().enumerate() {
                feed_one(alloc, &mut session, *event, at as u64, &mut said)?;
            }
            drop(session);
            Ok(event_word::prefix_of(alloc, checked.output(), &said)?)
        }
        Err(OpenRefusal::Memory) => Err(WordFault::Memory),
        Err(OpenRefusal::Budget(_)) => Err(WordFault::Budget(0)),
        Err(OpenRefusal::Deep(_)) => Err(WordFault::Deep(0)),
    }
}
