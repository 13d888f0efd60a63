//! A session that is opened and fed lines, and what it must answer.

ghost use Rattle.std.specs.Prelude.{IsTrue, IfOk};
ghost use Rattle.core_term.specs.CoreTerm.{core_of, fits_of};
ghost use Rattle.delta_session.specs.Programs.{IsRunning};
ghost use Rattle.delta_session.specs.Standing.{IsKept};

use core_term::Checked;
use delta_session::{Answers, FeedRefusal, OpenRefusal, Session};
use delta_state::Machine;
use event_text::{read_line, write_line};
use event_word::Event;
use std::alloc::Global;
use std::test::Fail;

/// More events than any session here takes.
pub const ROOM: u64 = 1_000_000;

/// A line, and the lines that answer it or why it isn't taken.
pub type Turn = (&'static str, Result<&'static str, FeedRefusal>);

/// A program, the calls that it may make, what it says first, and what it answers line by line.
#[derive(Clone, Copy)]
pub struct Talk {
    pub text: &'static str,
    pub budget: u64,
    pub opening: Result<&'static str, OpenRefusal>,
    pub turns: &'static [Turn],
    /// The number of events that are accepted, and of those that are held then.
    pub events: u64,
    pub held: u64,
    /// Whether nothing more is awaited then.
    pub is_whole: bool,
}

// Whether these are the lines of a word.
fn has_lines(alloc: Global, word: &[Event], lines: &str) -> Result<bool, Fail> {
    let mut found = String::new(alloc);
    for x in word {
        write_line(x, &mut found)?;
    }
    Ok(found.as_str() == lines)
}

// Feeds a line to a session, and answers whether that is what it says to it.
fn feed<A: Answers>(alloc: Global, session: &mut Session<A>, turn: Turn) -> Result<bool, Fail>
    requires kept { IsKept A.stands session.old }
    ensures kept { IsKept A.stands session.new }
{
    if session.events() >= ROOM {
        return Ok(false);
    }
    let x = read_line(turn.0.as_bytes())?;
    match (session.feed(alloc, x), turn.1) {
        (Ok(word), Ok(lines)) => has_lines(alloc, &word, lines),
        (Err(found), Err(refusal)) => Ok(found == refusal),
        _ => Ok(false),
    }
}

// Feeds lines to a session, and answers whether that is what it says to each.
fn feed_all<A: Answers>(
    alloc: Global,
    session: &mut Session<A>,
    turns: &[Turn],
) -> Result<bool, Fail>
    requires kept { IsKept A.stands session.old }
    ensures kept { IsKept A.stands session.new }
{
    let mut all = true;
    for turn in turns {
        let right = feed(alloc, session, *turn)?;
        all = all && right;
    }
    Ok(all)
}

// Whether a session that said this first goes on as the talk does, and stands so at its end.
fn goes_on<A: Answers>(
    alloc: Global,
    session: &mut Session<A>,
    first: &[Event],
    talk: &Talk,
) -> Result<bool, Fail>
    requires kept { IsKept A.stands session.old }
{
    let begins = match talk.opening {
        Ok(lines) => has_lines(alloc, first, lines)?,
        Err(_) => false,
    };
    let answers = feed_all(alloc, session, talk.turns)?;
    let counted = session.events() == talk.events && session.held() == talk.held;
    let is_whole = stream_type::null(session.rest());
    Ok(begins && answers && counted && is_whole == talk.is_whole)
}

/// A session of the program that may make so many calls, of a million at most, and what it says first.
pub fn open<M: Machine>(
    alloc: Global,
    checked: &Checked,
    budget: u64,
) -> Result<(Session<M>, Vec<Event>), OpenRefusal>
    requires { IsTrue (fits_of (core_of checked.now)) }
    ensures { IfOk result (λ r. IsKept (IsRunning M.seen M.stands) r.0) }
{
    Session::<M>::open(alloc, checked, budget.min(1_000_000))
}

/// Whether a session of the program goes as the talk does.
pub fn goes<M: Machine>(alloc: Global, checked: &Checked, talk: &Talk) -> Result<bool, Fail>
    requires { IsTrue (fits_of (core_of checked.now)) }
{
    match open::<M>(alloc, checked, talk.budget) {
        Ok((session, first)) => {
            let mut session = session;
            goes_on(alloc, &mut session, &first, talk)
        }
        Err(refusal) => match talk.opening {
            Err(expected) => Ok(refusal == expected),
            Ok(_) => Ok(false),
        },
    }
}
