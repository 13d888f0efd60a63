//! Rows of talks with sessions, on the machine that the command runs and on the plain one.

use crate::talking::{Talk, goes};
use checked_program::{accept, dismiss};
use core_term::{Checked, fits};
use delta_code::Coded;
use delta_session::{Cause, FeedRefusal, OpenRefusal};
use delta_step::Tree;
use event_word::EventFault;
use std::alloc::Global;
use std::test::Fail;

const DOUBLE: &str =
    "fun twice(xs : Int*) : Int* = case xs of { nil => nil | y :: ys => wait y in ({y * 2} :: twice(ys)) }
main(xs : Int*) : Int* = twice(xs)";

const DOWN: &str = "fun down{n : Int}(u : 1) : Int = if n < 1 then {7} else down{n - 1}(u)
main(x : Int) : Int = wait x in down{x}(())";

const CHOICE: &str =
    "main(z : 1 + 1, y : Int) : Int + Int = case z of { inl a => inl y | inr b => inr y }";

// Three parts beside each other, one of which uses two names.
const BESIDE: &str =
    "fun twice(xs : Int*) : Int* = case xs of { nil => nil | y :: ys => wait y in ({y * 2} :: twice(ys)) }
main(xs : Int*, (z : 1 + 1, y : Int), ys : Int*) : Int* || (Int + Int) || Int* =
  (twice(xs), (case z of { inl a => inl y | inr b => inr y }, twice(ys)))";

// The program of one number, before it came.
const TALK: Talk = Talk {
    text: "main(x : Int) : Int = x",
    budget: 1_000_000,
    opening: Ok(""),
    turns: &[],
    events: 0,
    held: 0,
    is_whole: false,
};

const TALKS: &[Talk] = &[
    Talk {
        turns: &[
            (
                "L int 4",
                Err(FeedRefusal::Refused(EventFault::WrongStep(0))),
            ),
            ("int 4", Ok("int 4\n")),
            ("int 4", Err(FeedRefusal::Refused(EventFault::Ended(0)))),
        ],
        events: 1,
        is_whole: true,
        ..TALK
    },
    Talk {
        text: "main(x : Int; y : Int) : Int . Int = (x; y)",
        budget: 0,
        turns: &[
            ("cut", Err(FeedRefusal::Refused(EventFault::EarlyCut(0)))),
            ("F int 1", Ok("F int 1\ncut\n")),
            ("cut", Ok("")),
            ("int 2", Ok("int 2\n")),
        ],
        events: 3,
        is_whole: true,
        ..TALK
    },
    Talk {
        text: "main() : 1 = ()",
        opening: Ok("one\n"),
        is_whole: true,
        ..TALK
    },
    Talk {
        text: DOUBLE,
        budget: 1,
        turns: &[
            ("item", Ok("")),
            ("F int 3", Ok("item\nF int 6\ncut\n")),
            ("cut", Ok("")),
            ("end", Ok("end\n")),
        ],
        events: 4,
        is_whole: true,
        ..TALK
    },
    // A case holds what comes beside it until its tag is there.
    Talk {
        text: CHOICE,
        turns: &[("R int 5", Ok(""))],
        events: 1,
        held: 1,
        ..TALK
    },
    Talk {
        text: CHOICE,
        turns: &[
            ("R int 5", Ok("")),
            ("L inl", Ok("inl\nint 5\n")),
            ("L one", Ok("")),
        ],
        events: 3,
        is_whole: true,
        ..TALK
    },
    // A part is left as it is until something comes on a name of its own, whichever part comes in between.
    Talk {
        text: BESIDE,
        turns: &[
            ("R L R int 5", Ok("")),
            ("R R item", Ok("")),
            ("R R F int 3", Ok("R R item\nR R F int 6\nR R cut\n")),
            ("L item", Ok("")),
            ("R R cut", Ok("")),
            ("L F int 1", Ok("L item\nL F int 2\nL cut\n")),
            ("R L L inl", Ok("R L inl\nR L int 5\n")),
            ("R R item", Ok("")),
            ("L cut", Ok("")),
            ("R L L one", Ok("")),
            ("R R F int 4", Ok("R R item\nR R F int 8\nR R cut\n")),
            ("L end", Ok("L end\n")),
            ("R R cut", Ok("")),
            ("R R end", Ok("R R end\n")),
        ],
        events: 14,
        is_whole: true,
        ..TALK
    },
    Talk {
        text: BESIDE,
        turns: &[
            ("L item", Ok("")),
            ("R L R int 5", Ok("")),
            ("R R item", Ok("")),
        ],
        events: 3,
        held: 1,
        ..TALK
    },
];

// Programs that make too many calls: one at its only event, one before any.
const CLOSED: &[Talk] = &[
    Talk {
        text: DOWN,
        budget: 1,
        turns: &[
            ("int 100000", Err(FeedRefusal::Budget(1))),
            ("int 1", Err(FeedRefusal::Closed(Cause::Budget(1)))),
            ("L int 4", Err(FeedRefusal::Closed(Cause::Budget(1)))),
        ],
        ..TALK
    },
    Talk {
        text: DOWN,
        budget: 101,
        turns: &[("int 100", Ok("int 7\n"))],
        events: 1,
        is_whole: true,
        ..TALK
    },
    Talk {
        text: "fun loop(x : Int) : Int = loop(x)\nmain(x : Int) : Int = loop(x)",
        budget: 3,
        opening: Err(OpenRefusal::Budget(3)),
        ..TALK
    },
];

// A nest of calls with as many levels as there may be, and one with a level more, of which no session is opened.
const NESTS: &[Talk] = &[
    Talk {
        text: "fun nest{n : Int}(x : Int) : Int = if n < 1 then x else let y = nest{n - 1}(x) in y
main(x : Int) : Int = nest{1000}(x)",
        turns: &[("int 4", Ok("int 4\n"))],
        events: 1,
        is_whole: true,
        ..TALK
    },
    Talk {
        text: "fun nest{n : Int}(x : Int) : Int = if n < 1 then x else let y = nest{n - 1}(x) in y
main(x : Int) : Int = nest{1001}(x)",
        opening: Err(OpenRefusal::Deep(1001)),
        ..TALK
    },
];

// Whether a talk of the program with this core goes so on both machines.
fn core_goes_on(alloc: Global, checked: &Checked, talk: &Talk) -> Result<bool, Fail> {
    if !fits(checked.core()) {
        return Ok(false);
    }
    Ok(goes::<Coded>(alloc, checked, talk)? && goes::<Tree>(alloc, checked, talk)?)
}

// Whether it goes so on both machines.
fn goes_on_both(alloc: Global, talk: &Talk) -> Result<bool, Fail> {
    match accept(alloc, talk.text.as_bytes()) {
        Ok(accepted) => {
            let found = core_goes_on(alloc, &accepted.checked, talk);
            dismiss(accepted);
            found
        }
        Err(fault) => Err(fault.into()),
    }
}

// The number of talks before the first that goes otherwise, or none.
fn first_other(alloc: Global, talks: &[Talk]) -> Result<Option<usize>, Fail> {
    for k in 0..talks.len() {
        if !goes_on_both(alloc, &talks[k])? {
            return Ok(Some(k));
        }
    }
    Ok(None)
}

#[test]
fn sessions_answer_events(rt: HostRuntime) -> Result<(), Fail> {
    assert_eq!(rt; first_other(rt.alloc(), TALKS)?, None);
    Ok(())
}

#[test]
fn too_many_calls_close_a_session(rt: HostRuntime) -> Result<(), Fail> {
    assert_eq!(rt; first_other(rt.alloc(), CLOSED)?, None);
    Ok(())
}

// Both machines go as deep as the levels.
#[test]
fn nests_have_a_thousand_levels(rt: HostRuntime) -> Result<(), Fail> {
    for talk in NESTS {
        assert!(rt; goes_on_both(rt.alloc(), talk)?, "{}", talk.text);
    }
    Ok(())
}
