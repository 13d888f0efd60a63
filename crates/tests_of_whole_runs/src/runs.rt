//! Programs run event by event. Inputs and outputs are event lines; each output was worked out by hand.

use crate::outside::{self, answers, answers_whole, frames_of, link, runs_on};
use delta_code::Coded;
use delta_runner::{Begins, Runner};
use delta_state::Machine;
use delta_step::Tree;
use learned_runner::Learner;
use port::{MemLink, Move};
use std::alloc::Global;
use std::test::Fail;

const ONE: &str = "main(x : Int) : Int = x";

const SWAP: &str = "main(x : Int, y : Int) : Int || Int = (y, x)";

const IN_TURN: &str = "main(x : Int; y : Int) : Int . Int = (x; y)";

const DOUBLE: &str =
    "fun twice(xs : Int*) : Int* = case xs of { nil => nil | y :: ys => wait y in ({y * 2} :: twice(ys)) }
main(xs : Int*) : Int* = twice(xs)";

const COPY: &str =
    "fun copy(xs : Int*) : Int* = case xs of { nil => nil | y :: ys => y :: copy(ys) }
main(xs : Int*) : Int* = copy(xs)";

const SUMS: &str =
    "fun sums{n : Int}(xs : Int*) : Int* = case xs of { nil => nil | y :: ys => wait y in ({n + y} :: sums{n + y}(ys)) }
main(xs : Int*) : Int* = sums{0}(xs)";

// A nest at each item, of few levels and of many: a step of few calls is learned, and one of many isn't.
const NEST_AT_EACH: &str =
    "fun nest{n : Int}(x : Int) : Int = if n < 1 then x else let y = nest{n - 1}(x) in y
fun each(xs : Int*) : Int* =
  case xs of { nil => nil | y :: ys => wait y in let z = nest{y}({y * 2}) in z :: each(ys) }
main(xs : Int*) : Int* = each(xs)";

const ALARM: &str = "fun watch(xs : Int*) : Int* || 1* =
  case xs of {
    nil => (nil, nil)
  | y :: ys => wait y in
      let (good, alarms) = watch(ys) in
      ({y} :: good, if 100 < y then (() :: alarms) else alarms)
  }
main(xs : Int*) : Int* || 1* = watch(xs)";

const TOTAL: &str = "main(xs : Int*) : Int = wait xs in {fold xs from 0 with a, y . a + y}";

const CHOICE: &str =
    "main(z : 1 + 1, y : Int) : Int + Int = case z of { inl a => inl y | inr b => inr y }";

const FIRST: &str = "main(xs : Int*) : Int + 1 = case xs of { nil => inr () | y :: ys => inl y }";

const LOOP: &str = "fun loop(x : Int) : Int = loop(x)
main(x : Int) : Int = loop(x)";

const DOWN: &str = "fun down{n : Int}(u : 1) : Int = if n < 1 then {7} else down{n - 1}(u)
main(x : Int) : Int = wait x in down{x}(())";

// `nest` calls itself in the head of a let, one level deeper each time; main's own call stands at level 0.
const NEST: &str =
    "fun nest{n : Int}(x : Int) : Int = if n < 1 then x else let y = nest{n - 1}(x) in y
main(x : Int) : Int = nest{200}(x)";

// As many levels as there may be, and one more.
const DEEPEST: &str =
    "fun nest{n : Int}(x : Int) : Int = if n < 1 then x else let y = nest{n - 1}(x) in y
main(x : Int) : Int = nest{1000}(x)";

const TOO_DEEP: &str =
    "fun nest{n : Int}(x : Int) : Int = if n < 1 then x else let y = nest{n - 1}(x) in y
main(x : Int) : Int = nest{1001}(x)";

// The same with a chain of items in front of each call.
const DEEP_CHAINS: &str = "fun nest{n : Int}(u : 1) : Int* =
  if n < 1 then nil
  else {1} :: {2} :: {3} :: {4} :: {5} :: {6} :: {7} :: {8} :: (nest{n - 1}(u) : Int*)
main(x : Int) : Int = let y = nest{999}(()) in x";

// The same with lets and an `if` after another in front of each call, and with the call in an argument.
const DEEP_CHOICES: &str = "fun nest{n : Int}(x : Int) : Int =
  let a = x in let b = x in let c = x in let d = x in
  if n < 1 then a
  else if n < 0 then b
  else if n < -1 then c
  else if n < -2 then d
  else let y = nest{n - 1}(x) in y
main(x : Int) : Int = nest{1000}(x)";

const DEEP_ARGUMENTS: &str = "fun same(x : Int) : Int = x
fun nest{n : Int}(x : Int) : Int = if n < 1 then x else same(nest{n - 1}(x))
main(x : Int) : Int = nest{1000}(x)";

// A nest of calls, each behind a let and four destructurings, which all wait for y. Its state nests too deep to be
// saved.
const HELD_NEST: &str = "type Five = (((Int || Int) || Int) || Int) || Int
fun five(y : Int) : Five = wait y in {((((y, y), y), y), y)}
fun nest{n : Int}(y : Int) : Int =
  if n < 1 then y
  else let u = five(y) in let (a, b) = u in let (c, d) = a in let (e, f) = c in let (g, h) = e in nest{n - 1}(g)
main(x : Int; y : Int) : Int = wait x in nest{x}(y)";

const AFTER_NOTHING: &str = "main(x : eps; y : Int) : Int = y";

const THREE: &str = "item\nF int 3\ncut\nend\n";

const SIX: &str = "item\nF int 6\ncut\nend\n";

/// What a run is given, and what must come of it.
#[derive(Clone, Copy)]
struct Row {
    /// The words, parted by spaces.
    words: &'static str,
    /// The text of the file `program`.
    text: &'static str,
    /// The lines of the events that come.
    input: &'static str,
    /// The lines of the events that are put out; nothing where not even the header is.
    output: Option<&'static str>,
    note: &'static str,
    status: u8,
}

const ROW: Row = Row {
    words: "run program",
    text: ONE,
    input: "int 7\n",
    output: Some("int 7\n"),
    note: "",
    status: 0,
};

// The bytes that a row's run must write.
fn due(alloc: Global, row: &Row) -> Result<Vec<u8>, Fail> {
    match row.output {
        Some(lines) => frames_of(alloc, lines),
        None => Ok(Vec::new(alloc)),
    }
}

// Whether a row's run writes and answers what it must: whole on the compiled machine alone, or in pieces of several
// sizes on the plain one too. That one goes deeper at each call.
fn holds(alloc: Global, row: &Row, has_many_calls: bool) -> Result<bool, Fail> {
    let frames = frames_of(alloc, row.input)?;
    let output = due(alloc, row)?;
    let made = outside::Row {
        words: row.words,
        text: row.text.as_bytes(),
        input: &frames,
        output: &output,
        note: row.note,
        status: row.status,
    };
    let found = if has_many_calls {
        answers_whole(alloc, &made)
    } else {
        answers(alloc, &made)
    };
    drop(output);
    drop(frames);
    found
}

// The number of rows before the first that doesn't hold, or none.
fn first_wrong(alloc: Global, rows: &[Row], has_many_calls: bool) -> Result<Option<usize>, Fail> {
    for k in 0..rows.len() {
        if !holds(alloc, &rows[k], has_many_calls)? {
            return Ok(Some(k));
        }
    }
    Ok(None)
}

const EVENT_BY_EVENT: &[Row] = &[
    ROW,
    Row {
        text: SWAP,
        input: "L int 1\nR int 2\n",
        output: Some("R int 1\nL int 2\n"),
        ..ROW
    },
    Row {
        text: SWAP,
        input: "R int 2\nL int 1\n",
        output: Some("L int 2\nR int 1\n"),
        ..ROW
    },
    Row {
        text: IN_TURN,
        input: "F int 1\ncut\nint 2\n",
        output: Some("F int 1\ncut\nint 2\n"),
        ..ROW
    },
    Row {
        text: CHOICE,
        input: "R int 5\nL inl\nL one\n",
        output: Some("inl\nint 5\n"),
        ..ROW
    },
    Row {
        text: "main(x : Int) : Int || Int = (x, x)",
        input: "int 4\n",
        output: Some("L int 4\nR int 4\n"),
        ..ROW
    },
    Row {
        text: "main() : 1 = ()",
        input: "",
        output: Some("one\n"),
        ..ROW
    },
    Row {
        text: AFTER_NOTHING,
        input: "cut\nint 5\n",
        output: Some("int 5\n"),
        ..ROW
    },
    Row {
        text: "main(x : 1; y : 1) : 1 . 1 = let z = (() : 1) in (z; x)",
        input: "F one\ncut\none\n",
        output: Some("F one\ncut\none\n"),
        ..ROW
    },
    Row {
        text: "main(x : Int, y : Int) : Int = let (a, b) = ((y, x) : Int || Int) in b",
        input: "L int 4\nR int 5\n",
        output: Some("int 4\n"),
        ..ROW
    },
    Row {
        text: "type N = Int\nmain(x : N) : N = let x = x in x",
        input: "int 4\n",
        output: Some("int 4\n"),
        ..ROW
    },
    Row {
        text: NEST,
        input: "int 4\n",
        output: Some("int 4\n"),
        ..ROW
    },
    Row {
        text: "main() : Int = if 1 < 2 then {7} else {8}",
        input: "",
        output: Some("int 7\n"),
        ..ROW
    },
    Row {
        text: "main(x : Int, y : Int) : Int || Int = let z = x in (z, y)",
        input: "R int 5\nL int 4\n",
        output: Some("R int 5\nL int 4\n"),
        ..ROW
    },
];

const FEEDS: &[Row] = &[
    Row {
        text: DOUBLE,
        input: THREE,
        output: Some(SIX),
        ..ROW
    },
    Row {
        text: DOUBLE,
        input: "end\n",
        output: Some("end\n"),
        ..ROW
    },
    Row {
        text: COPY,
        input: THREE,
        output: Some(THREE),
        ..ROW
    },
    Row {
        text: SUMS,
        input: "item\nF int 2\ncut\nitem\nF int 3\ncut\nend\n",
        output: Some("item\nF int 2\ncut\nitem\nF int 5\ncut\nend\n"),
        ..ROW
    },
    Row {
        text: NEST_AT_EACH,
        input: "item\nF int 3\ncut\nitem\nF int 40\ncut\nitem\nF int 3\ncut\nitem\nF int 50\ncut\nitem\nF int 40\ncut\nend\n",
        output: Some(
            "item\nF int 6\ncut\nitem\nF int 80\ncut\nitem\nF int 6\ncut\nitem\nF int 100\ncut\nitem\nF int 80\ncut\nend\n",
        ),
        ..ROW
    },
    Row {
        text: TOTAL,
        input: "item\nF int 9223372036854775807\ncut\nitem\nF int 1\ncut\nend\n",
        output: Some("int 9223372036854775807\n"),
        ..ROW
    },
    Row {
        text: FIRST,
        input: THREE,
        output: Some("inl\nint 3\n"),
        ..ROW
    },
    Row {
        text: FIRST,
        input: "end\n",
        output: Some("inr\none\n"),
        ..ROW
    },
    Row {
        text: ALARM,
        input: "item\nF int 7\ncut\nitem\nF int 200\ncut\nend\n",
        output: Some(
            "L item\nL F int 7\nL cut\nL item\nL F int 200\nL cut\nR item\nR F one\nR cut\nL end\nR end\n",
        ),
        ..ROW
    },
];

const STOPPED: Row = Row {
    output: Some(""),
    status: 5,
    ..ROW
};

const BUDGETS: &[Row] = &[
    Row {
        words: "run program --budget 3",
        text: LOOP,
        note: "delta: stopped: Budget at 0\n",
        ..STOPPED
    },
    Row {
        words: "run program --budget 1",
        text: DOUBLE,
        input: THREE,
        output: Some(SIX),
        ..ROW
    },
    Row {
        words: "run program --budget 0",
        text: DOUBLE,
        input: THREE,
        note: "delta: stopped: Budget at 0\n",
        ..STOPPED
    },
    Row {
        words: "run program --budget 1",
        text: COPY,
        input: THREE,
        output: Some(THREE),
        ..ROW
    },
    Row {
        words: "run program --budget 100",
        text: DOWN,
        input: "int 100\n",
        note: "delta: stopped: Budget at 4\n",
        ..STOPPED
    },
    Row {
        words: "run program --budget 101",
        text: DOWN,
        input: "int 100\n",
        ..ROW
    },
    Row {
        text: DOWN,
        input: "int 100\n",
        ..ROW
    },
];

const MANY_CALLS: &[Row] = &[
    Row {
        text: DOWN,
        input: "int 100000\n",
        ..ROW
    },
    Row {
        words: "run program --budget 100001",
        text: DOWN,
        input: "int 100000\n",
        ..ROW
    },
    Row {
        words: "run program --budget 100000",
        text: DOWN,
        input: "int 100000\n",
        note: "delta: stopped: Budget at 4\n",
        ..STOPPED
    },
];

const NESTS: &[Row] = &[
    Row {
        text: DEEPEST,
        input: "int 4\n",
        output: Some("int 4\n"),
        ..ROW
    },
    Row {
        text: DEEP_CHAINS,
        input: "int 4\n",
        output: Some("int 4\n"),
        ..ROW
    },
    Row {
        text: DEEP_CHOICES,
        input: "int 4\n",
        output: Some("int 4\n"),
        ..ROW
    },
    Row {
        text: DEEP_ARGUMENTS,
        input: "int 4\n",
        output: Some("int 4\n"),
        ..ROW
    },
    Row {
        text: HELD_NEST,
        input: "F int 900\ncut\nint 5\n",
        output: Some("int 5\n"),
        ..ROW
    },
    Row {
        text: TOO_DEEP,
        input: "int 4\n",
        note: "delta: stopped: Deep at 0\n",
        ..STOPPED
    },
];

const OPEN: Row = Row {
    note: "delta: input open\n",
    status: 6,
    ..ROW
};

const ENDS: &[Row] = &[
    Row {
        input: "",
        output: Some(""),
        ..OPEN
    },
    Row {
        text: DOUBLE,
        input: "item\nF int 3\n",
        output: Some("item\nF int 6\ncut\n"),
        ..OPEN
    },
    Row {
        text: IN_TURN,
        input: "cut\n",
        output: Some(""),
        note: "delta: input refused: EarlyCut at 4\n",
        status: 4,
        ..ROW
    },
    Row {
        input: "L int 4\n",
        output: Some(""),
        note: "delta: input refused: WrongStep at 4\n",
        status: 4,
        ..ROW
    },
    Row {
        input: "int 7\nint 7\n",
        note: "delta: input refused: Ended at 14\n",
        status: 4,
        ..ROW
    },
    Row {
        text: AFTER_NOTHING,
        input: "int 5\n",
        output: Some(""),
        note: "delta: input refused: WrongLeaf at 4\n",
        status: 4,
        ..ROW
    },
];

const REFUSED: Row = Row {
    output: None,
    status: 3,
    ..ROW
};

const REFUSALS: &[Row] = &[
    Row {
        text: "main(x : Int, y : Int) : Int . Int = (x; y)",
        note: "delta: program refused: OutOfOrder at 37\n",
        ..REFUSED
    },
    Row {
        text: "fun f(a : 1; b : 1) : 1 = a\nmain(x : 1; y : 1) : 1 = f(x, ())",
        note: "delta: program refused: Jumpy at 53\n",
        ..REFUSED
    },
    Row {
        text: "main(x : eps, y : Int) : Int = wait x in y",
        note: "delta: program refused: WaitNull at 31\n",
        ..REFUSED
    },
    Row {
        text: "main() : Int******************************** = nil",
        note: "delta: program refused: WideOutput at 0\n",
        ..REFUSED
    },
    Row {
        text: "main(x : Int) : Int = twice(x)",
        note: "delta: program refused: NoFunction at 22\n",
        ..REFUSED
    },
];

// The lines that are put out before the read with this number.
fn lines_before(alloc: Global, turns: &[(&str, &str)], reads: usize) -> Result<String, Fail> {
    let mut lines = String::new(alloc);
    for k in 0..turns.len() {
        if k <= reads {
            lines.push_str(turns[k].1)?;
        }
    }
    Ok(lines)
}

// The pieces of an input: the header, and the frames of each turn's lines.
fn pieces_of(alloc: Global, turns: &[(&str, &str)]) -> Result<Vec<Vec<u8>>, Fail> {
    let mut pieces: Vec<Vec<u8>> = Vec::new(alloc);
    for (lines, _) in turns {
        let frames = frames_of(alloc, lines)?;
        let header = if pieces.is_empty() {
            0
        } else {
            frames.len().min(4)
        };
        pieces.push(frames[header..].to_vec(alloc)?)?;
    }
    Ok(pieces)
}

// Whether these bytes are what is due before the read with this number.
fn is_due(alloc: Global, turns: &[(&str, &str)], reads: usize, bytes: &[u8]) -> Result<bool, Fail> {
    let lines = lines_before(alloc, turns, reads)?;
    let frames = frames_of(alloc, &lines);
    drop(lines);
    let frames = frames?;
    Ok(frames.as_slice() == bytes)
}

// Whether all that is due for what was read was written before each further read.
fn is_prompt(alloc: Global, turns: &[(&str, &str)], link: &MemLink) -> Result<bool, Fail> {
    let mut bytes: Vec<u8> = Vec::new(alloc);
    let mut reads: usize = 0;
    let mut all = true;
    for step in link.log() {
        match step {
            Move::Out(piece) => bytes.extend_from_slice(piece.as_slice())?,
            Move::In(_) => {
                all = all && (reads == 0 || is_due(alloc, turns, reads - 1, &bytes)?);
                reads = reads.saturating_add(1);
            }
        }
    }
    Ok(all && reads > turns.len())
}

// Whether a program over a feed that is held open answers each turn's lines by those beside them, on one machine.
fn talks_on<B: Begins, M: Machine>(
    alloc: Global,
    text: &str,
    turns: &[(&str, &str)],
) -> Result<bool, Fail> {
    let pieces = pieces_of(alloc, turns)?;
    let mut link = MemLink::new(alloc, pieces, Vec::new(alloc), Vec::new(alloc), 4096);
    let _done = runs_on::<B, M>(
        alloc,
        "run program",
        text.as_bytes(),
        &mut link,
        &[],
        ("", 0),
    )?;
    let prompt = is_prompt(alloc, turns, &link);
    drop(link);
    prompt
}

// A program, and what it puts out at each turn: before any event first, then for the lines that come next.
type Talk = (&'static str, &'static [(&'static str, &'static str)]);

const SIDES: &[Talk] = &[
    (
        SWAP,
        &[
            ("", ""),
            ("L int 1\n", "R int 1\n"),
            ("R int 2\n", "L int 2\n"),
        ],
    ),
    (
        SWAP,
        &[
            ("", ""),
            ("R int 2\n", "L int 2\n"),
            ("L int 1\n", "R int 1\n"),
        ],
    ),
    (
        "main(x : Int, y : Int) : Int || Int = let z = x in (z, y)",
        &[
            ("", ""),
            ("R int 5\n", "R int 5\n"),
            ("L int 4\n", "L int 4\n"),
        ],
    ),
    (
        "main(x : Int, y : Int) : Int = let (a, b) = ((y, x) : Int || Int) in b",
        &[("", ""), ("L int 4\n", "int 4\n"), ("R int 5\n", "")],
    ),
    (
        CHOICE,
        &[
            ("", ""),
            ("R int 5\n", ""),
            ("L inl\n", "inl\nint 5\n"),
            ("L one\n", ""),
        ],
    ),
];

const IN_ORDER: &[Talk] = &[
    (
        IN_TURN,
        &[
            ("", ""),
            ("F int 1\n", "F int 1\ncut\n"),
            ("cut\n", ""),
            ("int 2\n", "int 2\n"),
        ],
    ),
    (
        AFTER_NOTHING,
        &[("", ""), ("cut\n", ""), ("int 5\n", "int 5\n")],
    ),
    (
        "main(x : 1; y : 1) : 1 . 1 = let z = (() : 1) in (z; x)",
        &[
            ("", "F one\ncut\n"),
            ("F one\n", "one\n"),
            ("cut\n", ""),
            ("one\n", ""),
        ],
    ),
    (FIRST, &[("", ""), ("end\n", "inr\none\n")]),
    (
        FIRST,
        &[
            ("", ""),
            ("item\n", "inl\n"),
            ("F int 3\n", "int 3\n"),
            ("cut\n", ""),
            ("end\n", ""),
        ],
    ),
];

const FEED_TURNS: &[Talk] = &[
    (
        DOUBLE,
        &[
            ("", ""),
            ("item\n", ""),
            ("F int 3\n", "item\nF int 6\ncut\n"),
            ("cut\n", ""),
            ("end\n", "end\n"),
        ],
    ),
    (
        COPY,
        &[
            ("", ""),
            ("item\n", "item\n"),
            ("F int 3\n", "F int 3\ncut\n"),
            ("cut\n", ""),
            ("end\n", "end\n"),
        ],
    ),
    (
        SUMS,
        &[
            ("", ""),
            ("item\n", ""),
            ("F int 2\n", "item\nF int 2\ncut\n"),
            ("cut\nitem\n", ""),
            ("F int 3\n", "item\nF int 5\ncut\n"),
            ("cut\n", ""),
            ("end\n", "end\n"),
        ],
    ),
    (
        TOTAL,
        &[
            ("", ""),
            ("item\nF int 9223372036854775807\ncut\n", ""),
            ("item\nF int 1\ncut\n", ""),
            ("end\n", "int 9223372036854775807\n"),
        ],
    ),
];

// The number of talks before the first that goes otherwise, or none.
fn first_other(alloc: Global, talks: &[Talk]) -> Result<Option<usize>, Fail> {
    for k in 0..talks.len() {
        let (text, turns) = talks[k];
        if !talks_on::<Learner, Coded>(alloc, text, turns)?
            || !talks_on::<Runner<Tree>, Tree>(alloc, text, turns)?
        {
            return Ok(Some(k));
        }
    }
    Ok(None)
}

#[test]
fn each_event_is_answered_before_the_next(rt: HostRuntime) -> Result<(), Fail> {
    for talks in [SIDES, IN_ORDER, FEED_TURNS] {
        assert_eq!(rt; first_other(rt.alloc(), talks)?, None);
    }
    Ok(())
}

// Whether a run that is stopped before any event, and told so, reads nothing.
fn reads_nothing(alloc: Global, line: &str, text: &str, note: &str) -> Result<bool, Fail> {
    let mut link = link(alloc, b"DEV1", 4096, 4096)?;
    let end = (note, 5);
    let told = runs_on::<Learner, Coded>(alloc, line, text.as_bytes(), &mut link, &[], end);
    let mut none = true;
    for step in link.log() {
        none = none && matches!(step, Move::Out(_));
    }
    drop(link);
    Ok(told? && none)
}

// Runs that are stopped before any event: their words, programs and notes.
const STOPPED_FIRST: &[(&str, &str, &str)] = &[
    (
        "run program --budget 3",
        LOOP,
        "delta: stopped: Budget at 0\n",
    ),
    (
        "run program --budget 0",
        DOUBLE,
        "delta: stopped: Budget at 0\n",
    ),
    ("run program", TOO_DEEP, "delta: stopped: Deep at 0\n"),
];

#[test]
fn a_stop_before_any_event_reads_nothing(rt: HostRuntime) -> Result<(), Fail> {
    for (line, text, note) in STOPPED_FIRST {
        assert!(rt; reads_nothing(rt.alloc(), line, text, note)?, "{text}");
    }
    Ok(())
}

// What the rows of each table show, on both machines.
const TABLES: &[(&str, &[Row])] = &[
    ("programs answer events", EVENT_BY_EVENT),
    ("programs run over feeds", FEEDS),
    ("budgets are renewed", BUDGETS),
    ("inputs end early or wrongly", ENDS),
    ("texts are refused", REFUSALS),
];

#[test]
fn rows_hold(rt: HostRuntime) -> Result<(), Fail> {
    for (name, rows) in TABLES {
        assert_eq!(rt; first_wrong(rt.alloc(), rows, false)?, None, "{name}");
    }
    Ok(())
}

// The same of programs that make many calls.
const DEEP_TABLES: &[(&str, &[Row])] = &[
    ("many calls at one level are one event", MANY_CALLS),
    ("a nest has a thousand levels", NESTS),
];

#[test]
fn rows_with_many_calls_hold(rt: HostRuntime) -> Result<(), Fail> {
    for (name, rows) in DEEP_TABLES {
        assert_eq!(rt; first_wrong(rt.alloc(), rows, true)?, None, "{name}");
    }
    Ok(())
}
