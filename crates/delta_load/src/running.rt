//! A program run on the load.

ghost use Rattle.std.specs.Prelude.{◌≡◌, ◌≤◌, ◌<◌, ◌^◌, ◌++◌, ◌∷◌, [], List, None, IsTrue, IfOk, OnOk, IsErrOf};
ghost use Rattle.stream_type.specs.StreamType.{type_of};
ghost use Rattle.event_word.specs.StreamEvent.{StreamEvent};
ghost use Rattle.event_word.specs.EventFault.{fault_of};
ghost use Rattle.event_word.specs.Canon.{canon};
ghost use Rattle.core_term.specs.CoreTerm.{CoreProgram, core_of, fits_of};
ghost use Rattle.delta_state.specs.Stands.{input_type};
ghost use Rattle.delta_session.specs.OneShot.{said_to, IsCostly, IsDeep};
ghost use Rattle.delta_session.specs.Standing.{Stands, WhereItStands, IsOpen};
ghost use Rattle.delta_output.specs.Spoken.{spoken};
ghost use Rattle.delta_session.specs.Programs.{one_shot, course_of};
ghost use Rattle.delta_load.specs.Load.{load_type, load};
ghost use Rattle.delta_load.specs.Counting.{totals_of, IsLong};
ghost use Rattle.delta_load.specs.Standing.{IsOnLoad};
ghost use Rattle.delta_load.specs.Stopping.{IsMet, StopsForCalls, StopsForLevel};

use crate::generator::gen_event;
use crate::totals::Totals;
use core_term::Checked;
use delta_session::{Answers, FeedRefusal, OpenRefusal, Session};
use delta_state::Machine;
use event_word::Event;
use std::alloc::Global;

/// The calls that a program may make before any event, and again at each event.
pub const CALLS: u64 = 1_000_000;

/// Why a run on the load didn't come to its end.
#[derive(Clone, Copy, PartialEq, Eq, Debug)]
pub enum LoadFault {
    /// Memory ran out.
    Memory,
    /// Before any event, or at an event alone, the program makes more calls than it may.
    Budget,
    /// The program makes a call at a level above 1,000.
    Deep,
    /// The output has so many bytes that their number has more than 64 bits.
    Long,
}

// Feeds an event that may come next, and counts what is answered.
fn feed_one<A: Answers>(
    alloc: Global,
    session: &mut Session<A>,
    x: Event,
    totals: Totals,
) -> Result<Totals, LoadFault>
    requires open { IsOpen A.stands session.old }
    requires admitted { fault_of x (type_of session.old.rest) ≡ None }
    requires room { session.old.events < 2 ^ 42 }
    ensures stands { OnOk result (WhereItStands A.stands session.old (λ course word. Stands A.stands session.new course (word ++ x ∷ []))) }
    ensures counted { IfOk result (λ t. WhereItStands A.stands session.old (λ course word.
        (before : List StreamEvent) → totals ≡ totals_of before → t ≡ totals_of (before ++ canon (said_to course.gives word x)))) }
    ensures costly { IsErrOf result LoadFault.Budget → WhereItStands A.stands session.old (λ course word. IsCostly course.gives course.budget word x) }
    ensures deep { IsErrOf result LoadFault.Deep → WhereItStands A.stands session.old (λ course word. IsDeep course.gives 1000 word x) }
    ensures long { IsErrOf result LoadFault.Long → WhereItStands A.stands session.old (λ course word.
        (before : List StreamEvent) → totals ≡ totals_of before → IsLong (before ++ canon (said_to course.gives word x))) }
{
    match session.feed(alloc, x) {
        Ok(word) => match totals.with_word(&word) {
            Some(totals) => Ok(totals),
            None => Err(LoadFault::Long),
        },
        Err(FeedRefusal::Memory) => Err(LoadFault::Memory),
        Err(FeedRefusal::Budget(_)) => Err(LoadFault::Budget),
        Err(FeedRefusal::Deep(_)) => Err(LoadFault::Deep),
        Err(FeedRefusal::Closed(_)) => unreachable!(),
        Err(FeedRefusal::Refused(_)) => unreachable!(),
    }
}

// Feeds the whole load to a session that has taken nothing yet, and counts what is answered with what came first.
fn feed_load<A: Answers>(
    alloc: Global,
    session: &mut Session<A>,
    first: Totals,
    start: u64,
    items: u64,
) -> Result<Totals, LoadFault>
    requires begun { IsOnLoad A.stands session.old [] }
    requires start { start ≤ 999999 }
    requires items { items ≤ 10000000 }
    ensures counted { IfOk result (λ t. (c : CoreProgram) → Stands A.stands session.old (course_of c 1000000) [] → first ≡ totals_of (spoken (one_shot c) [])
        → t ≡ totals_of (spoken (one_shot c) (load start items))) }
    ensures costly { IsErrOf result LoadFault.Budget → (c : CoreProgram) → Stands A.stands session.old (course_of c 1000000) [] → IsMet (IsCostly (one_shot c) 1000000) (load start items) }
    ensures deep { IsErrOf result LoadFault.Deep → (c : CoreProgram) → Stands A.stands session.old (course_of c 1000000) [] → IsMet (IsDeep (one_shot c) 1000) (load start items) }
    ensures long { IsErrOf result LoadFault.Long → (c : CoreProgram) → Stands A.stands session.old (course_of c 1000000) [] → first ≡ totals_of (spoken (one_shot c) [])
        → IsLong (spoken (one_shot c) (load start items)) }
{
    let mut totals = first;
    for i in 0..5 * items + 1 {
        match gen_event(start, items, i) {
            Some(x) => totals = feed_one(alloc, session, x, totals)?,
            None => {}
        }
    }
    Ok(totals)
}

/// Runs a program on the whole load of so many items, with a million calls before any event and again at
/// each event, and counts what it puts out: no more is kept than the session and the counts. `Budget` and
/// `Deep` come only where the program on the load makes more calls than these, or one at a level above
/// 1,000, and `Long` only where it puts out 2^64 bytes or more.
pub fn run_load<M: Machine>(
    alloc: Global,
    checked: &Checked,
    start: u64,
    items: u64,
) -> Result<Totals, LoadFault>
    requires start { start ≤ 999999 }
    requires items { items ≤ 10000000 }
    requires fits { IsTrue (fits_of (core_of checked.now)) }
    requires input { input_type (core_of checked.now) ≡ load_type }
    ensures counted { IfOk result (λ t. t ≡ totals_of (spoken (one_shot (core_of checked.now)) (load start items))) }
    ensures costly { IsErrOf result LoadFault.Budget → StopsForCalls (core_of checked.now) 1000000 (load start items) }
    ensures deep { IsErrOf result LoadFault.Deep → StopsForLevel (core_of checked.now) 1000 (load start items) }
    ensures long { IsErrOf result LoadFault.Long → IsLong (spoken (one_shot (core_of checked.now)) (load start items)) }
{
    let (session, first) = match Session::<M>::open(alloc, checked, CALLS) {
        Ok(opened) => opened,
        Err(OpenRefusal::Memory) => return Err(LoadFault::Memory),
        Err(OpenRefusal::Budget(_)) => return Err(LoadFault::Budget),
        Err(OpenRefusal::Deep(_)) => return Err(LoadFault::Deep),
    };
    let mut session = session;
    match Totals::none().with_word(&first) {
        Some(totals) => feed_load(alloc, &mut session, totals, start, items),
        None => Err(LoadFault::Long),
    }
}
