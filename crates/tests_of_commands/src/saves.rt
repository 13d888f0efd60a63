//! Runs that leave their state, and runs that go on from it, by the commands `save` and `resume`.

use crate::outside::{self, link, take_written, tells_on};
use delta_code::Coded;
use port::{MemShelf, Shelf};
use std::alloc::Global;
use std::test::Fail;

// A program that doubles each number of a feed.
const DOUBLE: &[u8] =
    b"fun twice(xs : Int*) : Int* = case xs of { nil => nil | y :: ys => wait y in ({y * 2} :: twice(ys)) }
main(xs : Int*) : Int* = twice(xs)
";

// The frames of `item`, `F int 3`, `cut`, `item`, `F int 4`, `cut` and `end`, and where each of them ends,
// with a part without events first.
const FEED: &[u8] =
    b"DEV1\0\x15\x01\x03\x11\0\0\0\0\0\0\0\x03\0\x14\0\x15\x01\x03\x11\0\0\0\0\0\0\0\x04\0\x14\0\x16";

const ENDS: &[usize] = &[4, 4, 6, 17, 19, 21, 32, 34];

// What is said of the whole feed.
const DOUBLED: &[u8] =
    b"DEV1\0\x15\x01\x03\x11\0\0\0\0\0\0\0\x06\0\x14\0\x15\x01\x03\x11\0\0\0\0\0\0\0\x08\0\x14\0\x16";

// Two numbers in turn, as they come.
const TWO: &[u8] = b"main(x : Int . Int) : Int . Int = x";

// The frames of `F int 4`, `cut` and `int 5`, and where the first two of them end, with such a part
// first.
const BOTH: &[u8] = b"DEV1\x01\x03\x11\0\0\0\0\0\0\0\x04\0\x14\0\x11\0\0\0\0\0\0\0\x05";

const ENDS_OF_TWO: &[usize] = &[4, 4, 15, 17];

// One number, as it comes.
const SAME: &[u8] = b"main(x : Int) : Int = x";

// What is kept of it before any event: its types, and its name as its state.
const FRESH: &[u8] = b"DST\x01\0\0\0\0\0\0\0\0\0\0\0\x01\x02\0\0\0\0\x02\x01\0\0\0\0";

// The frame of the number 4.
const FOUR: &[u8] = b"DEV1\0\x11\0\0\0\0\0\0\0\x04";

// A shelf that holds these texts as the files `program` and `state`, and a third file.
fn shelf_of<'x>(alloc: Global, text: &'x [u8], state: &'x [u8]) -> Result<MemShelf, Fail> {
    outside::shelf_of(
        alloc,
        &[("program", text), ("state", state), ("other", b"other")],
    )
}

// Whether a line over the shelf and an input is answered by this note and this status. Adds what it writes.
fn goes(
    alloc: Global,
    line: &str,
    shelf: &mut MemShelf,
    input: &[u8],
    said: &mut Vec<u8>,
    end: (&str, u8),
) -> Result<bool, Fail> {
    let mut link = link(alloc, input, 4096, 4096)?;
    let told = tells_on::<Coded>(alloc, line, shelf, &mut link, end);
    let taken = take_written(&link, said);
    drop(link);
    let told = told?;
    taken?;
    Ok(told)
}

// A header, and these bytes behind it.
fn behind_header(alloc: Global, rest: &[u8]) -> Result<Vec<u8>, Fail> {
    let mut bytes = b"DEV1".to_vec(alloc)?;
    bytes.extend_from_slice(rest)?;
    Ok(bytes)
}

// Whether a file holds these bytes.
fn holds(shelf: &mut MemShelf, name: &str, bytes: &[u8]) -> bool {
    match shelf.read(name) {
        Ok(held) => held.as_slice() == bytes,
        Err(_) => false,
    }
}

// How a run ends that awaits more, and one that is done.
const OPEN: (&str, u8) = ("delta: input open\n", 6);

const DONE: (&str, u8) = ("", 0);

// Whether a line over the shelf and the frames of a part of a feed is answered so. Adds what it writes.
fn goes_on(
    alloc: Global,
    line: &str,
    shelf: &mut MemShelf,
    part: &[u8],
    said: &mut Vec<u8>,
    end: (&str, u8),
) -> Result<bool, Fail> {
    let input = behind_header(alloc, part)?;
    let went = goes(alloc, line, shelf, &input, said, end);
    drop(input);
    went
}

// Whether runs over the parts of a feed up to each place, of which each but the first goes on from the state of the one
// before, and one over the rest, end as they must. Adds what they write.
fn all_go_on(
    alloc: Global,
    shelf: &mut MemShelf,
    feed: &[u8],
    places: &[usize],
    said: &mut Vec<u8>,
) -> Result<bool, Fail> {
    let mut line = "save program state";
    let mut start = 4;
    let mut well = true;
    for place in places {
        let part = feed.get(start..*place).unwrap_or(b"");
        well = well && goes_on(alloc, line, shelf, part, said, OPEN)?;
        line = "save program state state";
        start = *place;
    }
    let rest = feed.get(start..).unwrap_or(b"");
    Ok(well && goes_on(alloc, "resume program state", shelf, rest, said, DONE)?)
}

// Whether these runs write together what one run writes, and change no other file.
fn is_joined(
    alloc: Global,
    text: &[u8],
    feed: &[u8],
    places: &[usize],
    output: &[u8],
) -> Result<bool, Fail> {
    let mut shelf = shelf_of(alloc, text, b"")?;
    let mut said = Vec::new(alloc);
    let well = all_go_on(alloc, &mut shelf, feed, places, &mut said);
    let others = holds(&mut shelf, "other", b"other") && holds(&mut shelf, "program", text);
    let same = said.as_slice() == output;
    drop(said);
    drop(shelf);
    Ok(well? && others && same)
}

#[test]
fn a_feed_is_cut_everywhere(rt: HostRuntime) -> Result<(), Fail> {
    assert!(rt; is_joined(rt.alloc(), DOUBLE, FEED, ENDS, DOUBLED)?);
    assert!(rt; is_joined(rt.alloc(), TWO, BOTH, ENDS_OF_TWO, BOTH)?);
    Ok(())
}

#[test]
fn a_feed_is_cut_anywhere(rt: HostRuntime) -> Result<(), Fail> {
    for place in ENDS {
        assert!(rt;
            is_joined(rt.alloc(), DOUBLE, FEED, &[*place], DOUBLED)?,
            "{place}"
        );
    }
    for place in ENDS_OF_TWO {
        assert!(rt;
            is_joined(rt.alloc(), TWO, BOTH, &[*place], BOTH)?,
            "{place}"
        );
    }
    Ok(())
}

// What is kept of the program of one number once it came: nothing is left of the input or of the output.
const FINISHED: &[u8] = b"DST\x01\0\0\0\0\0\0\0\x01\0\0\0\x01\0\0\0\0\0\0\0\0";

// Whether a line over a program, a state and an input is answered so, and leaves this state and all else as it was.
// Adds what it writes.
fn leaves(
    alloc: Global,
    line: &str,
    (text, state, input): (&[u8], &[u8], &[u8]),
    said: &mut Vec<u8>,
    end: (&str, u8),
    left: &[u8],
) -> Result<bool, Fail> {
    let mut shelf = shelf_of(alloc, text, state)?;
    let went = goes(alloc, line, &mut shelf, input, said, end);
    let kept = holds(&mut shelf, "state", left) && holds(&mut shelf, "other", b"other");
    drop(shelf);
    Ok(went? && kept)
}

// Whether a run of the program of one number, from its start and from the file of the state, ends so and leaves these
// bytes.
fn leaves_either_way(
    alloc: Global,
    input: &[u8],
    end: (&str, u8),
    state: &[u8],
) -> Result<bool, Fail> {
    let mut said = Vec::new(alloc);
    let given = (SAME, FRESH, input);
    let first = leaves(alloc, "save program state", given, &mut said, end, state)?;
    let again = leaves(
        alloc,
        "save program state state",
        given,
        &mut said,
        end,
        state,
    )?;
    Ok(first && again)
}

#[test]
fn what_goes_on_and_what_is_done_is_kept(rt: HostRuntime) -> Result<(), Fail> {
    assert!(rt; leaves_either_way(rt.alloc(), b"DEV1", OPEN, FRESH)?);
    assert!(rt; leaves_either_way(rt.alloc(), FOUR, DONE, FINISHED)?);
    Ok(())
}

// A state of the program of one number, the input of a run that goes on from it, and what that must answer.
struct Row {
    words: &'static str,
    state: &'static [u8],
    input: &'static [u8],
    output: &'static [u8],
    status: u8,
    note: &'static str,
}

const RESUMED: Row = Row {
    words: "resume program state",
    state: FRESH,
    input: FOUR,
    output: b"\0\x11\0\0\0\0\0\0\0\x04",
    status: 0,
    note: "",
};

const REFUSED: Row = Row {
    output: b"",
    status: 10,
    ..RESUMED
};

const ROWS: &[Row] = &[
    RESUMED,
    Row {
        input: b"DEV1",
        output: b"",
        status: 6,
        note: "delta: input open\n",
        ..RESUMED
    },
    Row {
        input: b"DEV1\0\x14",
        output: b"",
        status: 4,
        note: "delta: input refused: WrongLeaf at 4\n",
        ..RESUMED
    },
    // The type of the output is another.
    Row {
        state: b"DST\x01\0\0\0\0\0\0\0\0\0\0\0\x01\x02\0\0\0\0\x01\x01\0\0\0\0",
        note: "delta: state refused: Untyped at 0\n",
        ..REFUSED
    },
    Row {
        state: b"DST\x02",
        note: "delta: state refused: Version at 2\n",
        ..REFUSED
    },
    // The last byte is missing.
    Row {
        state: b"DST\x01\0\0\0\0\0\0\0\0\0\0\0\x01\x02\0\0\0\0\x02\x01\0\0\0",
        note: "delta: state refused: Form at 26\n",
        ..REFUSED
    },
    Row {
        state: b"",
        note: "delta: state refused: Form at 0\n",
        ..REFUSED
    },
    Row {
        words: "resume program gone",
        status: 7,
        note: "delta: outside fault: file\n",
        ..REFUSED
    },
    // A run that goes on from a state judges it as one that is resumed.
    Row {
        words: "save program other state",
        state: b"DST\x02",
        note: "delta: state refused: Version at 2\n",
        ..REFUSED
    },
    Row {
        words: "save program other gone",
        status: 7,
        note: "delta: outside fault: file\n",
        ..REFUSED
    },
    // 2^41 events came before, and one more comes.
    Row {
        words: "save program other state",
        state: b"DST\x01\0\0\x02\0\0\0\0\0\0\0\0\x01\x02\0\0\0\0\x02\x01\0\0\0\0",
        note: "delta: state refused: Large at 1048576\n",
        status: 10,
        ..RESUMED
    },
    Row {
        words: "resume program state --budget 1000001",
        status: 2,
        note: "delta: usage\n",
        ..REFUSED
    },
];

// Whether the words answer as the row says, and leave the files as they are.
fn answers(alloc: Global, row: &Row) -> Result<bool, Fail> {
    let mut said = Vec::new(alloc);
    let given = (SAME, row.state, row.input);
    let went = leaves(
        alloc,
        row.words,
        given,
        &mut said,
        (row.note, row.status),
        row.state,
    );
    let same = said.as_slice() == row.output;
    drop(said);
    Ok(went? && same)
}

#[test]
fn a_state_is_judged(rt: HostRuntime) -> Result<(), Fail> {
    for row in ROWS {
        assert!(rt; answers(rt.alloc(), row)?, "{}", row.words);
    }
    Ok(())
}

// Whether a run that ends so leaves the file of the state as it is.
fn leaves_nothing(
    alloc: Global,
    line: &str,
    text: &[u8],
    input: &[u8],
    end: (&str, u8),
) -> Result<bool, Fail> {
    let mut said = Vec::new(alloc);
    let stays = leaves(
        alloc,
        line,
        (text, b"before", input),
        &mut said,
        end,
        b"before",
    );
    drop(said);
    stays
}

// Runs of the program that doubles that don't end well: their words, their input, their notes and their statuses.
const STOPPED: &[(&str, &[u8], &str, u8)] = &[
    (
        "save program state",
        b"DEV1\0\x14",
        "delta: input refused: WrongLeaf at 4\n",
        4,
    ),
    (
        "save program state --budget 0",
        FEED,
        "delta: stopped: Budget at 0\n",
        5,
    ),
    (
        "save other state",
        FEED,
        "delta: program refused: Expected at 0\n",
        3,
    ),
    (
        "save program state state",
        FEED,
        "delta: state refused: Form at 0\n",
        10,
    ),
    ("save program state state state", FEED, "delta: usage\n", 2),
];

#[test]
fn a_run_that_stops_leaves_nothing(rt: HostRuntime) -> Result<(), Fail> {
    for (line, input, note, status) in STOPPED {
        assert!(rt;
            leaves_nothing(rt.alloc(), line, DOUBLE, input, (note, *status))?,
            "{line}"
        );
    }
    Ok(())
}

// A nest of calls, each behind a let and four destructurings, which all wait for y. What is left of it before y came
// nests six times as deep as there are calls.
const NEST: &[u8] = b"type Five = (((Int || Int) || Int) || Int) || Int
fun five(y : Int) : Five = wait y in {((((y, y), y), y), y)}
fun nest{n : Int}(y : Int) : Int =
  if n < 1 then y
  else let u = five(y) in let (a, b) = u in let (c, d) = a in let (e, f) = c in let (g, h) = e in nest{n - 1}(g)
main(x : Int; y : Int) : Int = wait x in nest{x}(y)";

// The frames of `F int 900`.
const NINE_HUNDRED: &[u8] = b"DEV1\x01\x03\x11\0\0\0\0\0\0\x03\x84";

// Its state nests too deep to be read. The tests of whole runs go over this program to its end.
#[test]
fn no_state_is_left_that_is_too_deep(rt: HostRuntime) -> Result<(), Fail> {
    let end = ("delta: no memory\n", 8);
    assert!(rt; leaves_nothing(rt.alloc(), "save program state", NEST, NINE_HUNDRED, end)?);
    Ok(())
}
