//! Whole runs over a shelf, a link and a sink in memory.

use crate::outside::{Row, answers, are_written, runs_on};
use delta_code::Coded;
use delta_runner::{Begins, Runner};
use delta_state::Machine;
use delta_step::Tree;
use learned_runner::Learner;
use port::MemLink;
use std::alloc::Global;
use std::test::Fail;

const ONE: &[u8] = b"main(x : Int) : Int = x\n";

const SWAP: &[u8] = b"main(x : Int, y : Int) : Int || Int = (y, x)\n";

const TWICE: &[u8] = b"main(x : Int) : Int || Int = (x, x)\n";

const LET: &[u8] = b"main(z : (Int || Int)) : Int || Int = let (a, b) = z in (b, (a))\n";

const DOUBLE: &[u8] =
    b"fun twice(xs : Int*) : Int* = case xs of { nil => nil | y :: ys => wait y in {y * 2} :: twice(ys) }
main(xs : Int*) : Int* = twice(xs)
";

const THREE: &[u8] = b"DEV1\0\x15\x01\x03\x11\0\0\0\0\0\0\0\x03\0\x14\0\x16";

// The first 16 of those bytes.
const CUT: &[u8] = b"DEV1\0\x15\x01\x03\x11\0\0\0\0\0\0\0";

const SIX: &[u8] = b"DEV1\0\x15\x01\x03\x11\0\0\0\0\0\0\0\x06\0\x14\0\x16";

const SEVEN: &[u8] = b"DEV1\0\x11\0\0\0\0\0\0\0\x07";

const LEFT_THEN_RIGHT: &[u8] = b"DEV1\x01\x01\x11\0\0\0\0\0\0\0\x01\x01\x02\x11\0\0\0\0\0\0\0\x02";

const RIGHT_THEN_LEFT: &[u8] = b"DEV1\x01\x02\x11\0\0\0\0\0\0\0\x02\x01\x01\x11\0\0\0\0\0\0\0\x01";

const ROW: Row = Row {
    words: "run program",
    text: ONE,
    input: SEVEN,
    output: b"DEV1",
    note: "",
    status: 0,
};

// The number of rows before the first that is answered otherwise, or none.
fn first_wrong(alloc: Global, rows: &[Row]) -> Result<Option<usize>, Fail> {
    for k in 0..rows.len() {
        if !answers(alloc, &rows[k])? {
            return Ok(Some(k));
        }
    }
    Ok(None)
}

const RUNS: &[Row] = &[
    Row {
        output: SEVEN,
        ..ROW
    },
    Row {
        words: "gen 996 3",
        output: b"items 3 in 16 96 out 4 21 last 0\n",
        ..ROW
    },
    Row {
        words: "gen 1 2",
        output: b"items 2 in 11 66 out 1 6 last none\n",
        ..ROW
    },
    Row {
        words: "gen 0 0",
        output: b"items 0 in 1 6 out 1 6 last none\n",
        ..ROW
    },
    Row {
        text: SWAP,
        input: LEFT_THEN_RIGHT,
        output: b"DEV1\x01\x02\x11\0\0\0\0\0\0\0\x01\x01\x01\x11\0\0\0\0\0\0\0\x02",
        ..ROW
    },
    Row {
        text: SWAP,
        input: RIGHT_THEN_LEFT,
        output: b"DEV1\x01\x01\x11\0\0\0\0\0\0\0\x02\x01\x02\x11\0\0\0\0\0\0\0\x01",
        ..ROW
    },
    Row {
        text: LET,
        input: RIGHT_THEN_LEFT,
        output: b"DEV1\x01\x01\x11\0\0\0\0\0\0\0\x02\x01\x02\x11\0\0\0\0\0\0\0\x01",
        ..ROW
    },
    Row {
        text: TWICE,
        input: SEVEN,
        output: b"DEV1\x01\x01\x11\0\0\0\0\0\0\0\x07\x01\x02\x11\0\0\0\0\0\0\0\x07",
        ..ROW
    },
    Row {
        input: b"DEV2",
        note: "delta: input open\n",
        status: 6,
        ..ROW
    },
    Row {
        input: b"DEV1",
        note: "delta: input open\n",
        status: 6,
        ..ROW
    },
];

const REFUSED: Row = Row { status: 4, ..ROW };

const REFUSALS: &[Row] = &[
    Row {
        input: b"",
        note: "delta: input refused: Truncated at 0\n",
        ..REFUSED
    },
    Row {
        input: b"DEV1\0\x11\0\0\0\0\0\0\0",
        note: "delta: input refused: Truncated at 13\n",
        ..REFUSED
    },
    Row {
        input: b"DEV1\x01\x01\x11\0\0\0\0\0\0\0\x07",
        note: "delta: input refused: WrongStep at 4\n",
        ..REFUSED
    },
    Row {
        input: b"DEV1\0\x11\0\0\0\0\0\0\0\x07\0\x11\0\0\0\0\0\0\0\x07",
        output: SEVEN,
        note: "delta: input refused: Ended at 14\n",
        ..REFUSED
    },
    Row {
        input: b"DEV3",
        note: "delta: input refused: BadMagic at 3\n",
        ..REFUSED
    },
    Row {
        input: b"DEV1\x20",
        note: "delta: input refused: LongPath at 4\n",
        ..REFUSED
    },
    Row {
        input: b"DEV1\x01\x07",
        note: "delta: input refused: BadStep at 5\n",
        ..REFUSED
    },
    Row {
        input: b"DEV1\0\x20",
        note: "delta: input refused: BadLeaf at 5\n",
        ..REFUSED
    },
];

const NONE: Row = Row { output: b"", ..ROW };

const USAGE: Row = Row {
    note: "delta: usage\n",
    status: 2,
    ..NONE
};

const FAULTS: &[Row] = &[
    Row { words: "", ..USAGE },
    Row {
        words: "run",
        ..USAGE
    },
    Row {
        words: "run program program",
        ..USAGE
    },
    Row {
        words: "run program --budget x",
        ..USAGE
    },
    Row {
        words: "gen 1",
        ..USAGE
    },
    Row {
        words: "run gone",
        note: "delta: outside fault: file\n",
        status: 7,
        ..NONE
    },
    Row {
        text: b"main(x : Int, y : 1) : Int || Int = (y, x)\n",
        note: "delta: program refused: Mismatch at 37\n",
        status: 3,
        ..NONE
    },
];

// A run with calls that fail, by their numbers from 0, and the note and the status of that.
#[derive(Clone, Copy)]
struct Failing {
    words: &'static str,
    text: &'static [u8],
    /// The pieces of the input.
    pieces: &'static [&'static [u8]],
    /// How many bytes one write takes at most.
    most: u64,
    fail_reads: &'static [u64],
    fail_writes: &'static [u64],
    fail_notes: &'static [u64],
    output: &'static [u8],
    note: &'static str,
}

const FAILING: Failing = Failing {
    words: "run program",
    text: ONE,
    pieces: &[SEVEN],
    most: 4096,
    fail_reads: &[],
    fail_writes: &[],
    fail_notes: &[],
    output: b"DEV1",
    note: "",
};

const FAILINGS: &[Failing] = &[
    Failing {
        pieces: &[b"DEV1\0\x11\0", b"\0\0\0\0\0\0\x07"],
        fail_reads: &[1],
        note: INPUT_FAULT,
        ..FAILING
    },
    Failing {
        most: 4,
        fail_writes: &[2],
        output: b"DEV1\0\x11\0\0",
        note: OUTPUT_FAULT,
        ..FAILING
    },
    Failing {
        text: DOUBLE,
        pieces: &[TO_NUMBER, b"\0\x14\0\x16"],
        fail_reads: &[1],
        output: SIX_UNENDED,
        note: INPUT_FAULT,
        ..FAILING
    },
    // What is due for the first two pieces is written before the third, which can't be read.
    Failing {
        text: DOUBLE,
        pieces: &[
            b"DEV1\0\x15",
            b"\x01\x03\x11\0\0\0\0\0\0\0\x03",
            b"\0\x14\0\x16",
        ],
        fail_reads: &[2],
        output: SIX_UNENDED,
        note: INPUT_FAULT,
        ..FAILING
    },
    Failing {
        text: DOUBLE,
        pieces: &[THREE],
        most: 4,
        fail_writes: &[2],
        output: b"DEV1\0\x15\x01\x03",
        note: OUTPUT_FAULT,
        ..FAILING
    },
    Failing {
        pieces: &[b"DEV1"],
        fail_notes: &[0],
        ..FAILING
    },
    Failing {
        words: "eval program",
        text: DOUBLE,
        pieces: &[THREE],
        most: 2,
        fail_writes: &[1],
        output: b"DE",
        note: OUTPUT_FAULT,
        ..FAILING
    },
];

const INPUT_FAULT: &str = "delta: outside fault: input\n";

const OUTPUT_FAULT: &str = "delta: outside fault: output\n";

// The bytes of the frames of a number to be doubled up to its own, and what is due for these.
const TO_NUMBER: &[u8] = b"DEV1\0\x15\x01\x03\x11\0\0\0\0\0\0\0\x03";

const SIX_UNENDED: &[u8] = b"DEV1\0\x15\x01\x03\x11\0\0\0\0\0\0\0\x06\0\x14";

// The link of a failing run.
fn link_of(alloc: Global, row: &Failing) -> Result<MemLink, Fail> {
    let fail_reads = row.fail_reads.to_vec(alloc)?;
    let fail_writes = row.fail_writes.to_vec(alloc)?;
    let mut pieces = Vec::new(alloc);
    for piece in row.pieces {
        pieces.push(piece.to_vec(alloc)?)?;
    }
    Ok(MemLink::new(alloc, pieces, fail_reads, fail_writes, row.most.max(1)))
}

// Whether a failing run writes and answers what it must, on one machine.
fn fails_on<B: Begins, M: Machine>(alloc: Global, row: &Failing) -> Result<bool, Fail> {
    let mut link = link_of(alloc, row)?;
    let end = (row.note, 7);
    let told = runs_on::<B, M>(alloc, row.words, row.text, &mut link, row.fail_notes, end);
    let said = are_written(&link, row.output);
    drop(link);
    Ok(told? && said)
}

#[test]
fn failed_calls_are_told(rt: HostRuntime) -> Result<(), Fail> {
    for row in FAILINGS {
        assert!(rt;
            fails_on::<Learner, Coded>(rt.alloc(), row)?,
            "{}",
            row.words
        );
        assert!(rt;
            fails_on::<Runner<Tree>, Tree>(rt.alloc(), row)?,
            "{}",
            row.words
        );
    }
    Ok(())
}

const IN_TURN: &[u8] = b"main(x : Int; y : Int) : Int . Int = (x; y)";

const IN_TURN_FRAMES: &[u8] = b"DEV2\x01\xc0\x11\0\0\0\0\0\0\0\x01\0\x14\0\x11\0\0\0\0\0\0\0\x02";

const LONG: Row = Row {
    text: SWAP,
    input: LEFT_THEN_RIGHT,
    output: b"DEV2\x01\x80\x11\0\0\0\0\0\0\0\x01\x01\x40\x11\0\0\0\0\0\0\0\x02",
    ..ROW
};

const LONG_FRAMES: &[Row] = &[
    Row {
        words: "run program --v2",
        ..LONG
    },
    Row {
        words: "run --v2 --budget=5 -- program",
        ..LONG
    },
    Row {
        words: "run program --v2",
        text: IN_TURN,
        input: IN_TURN_FRAMES,
        output: IN_TURN_FRAMES,
        ..ROW
    },
    Row {
        text: IN_TURN,
        input: b"DEV2\x01\xc1",
        note: "delta: input refused: BadStep at 5\n",
        status: 4,
        ..ROW
    },
    Row {
        text: IN_TURN,
        input: b"DEV2\x01\0",
        note: "delta: input refused: BadStep at 5\n",
        status: 4,
        ..ROW
    },
    Row {
        text: IN_TURN,
        input: b"DEV2\x40",
        note: "delta: input refused: LongPath at 4\n",
        status: 4,
        ..ROW
    },
];

const LINES: &[Row] = &[
    Row {
        words: "text --frames",
        input: b"item\nF int 3\n",
        output: b"DEV1\0\x15\x01\x03\x11\0\0\0\0\0\0\0\x03",
        ..ROW
    },
    Row {
        words: "text --frames",
        input: b"LLLLLLLLLLLLLLLLLLLLLLLLLLLLLLLLLLLLLLLLLLLLLLLLLLLLLLLLLLLLLLLLLLLLLLLLLLLLLLLLLLLLLLLLLLLLLLLLLLLLLLLLLLLLLLLLLLLLLLLLLLLLLLLLLLLLLLLLLLLLLLLLLLLLLLLLLLLLLLLLLLLLLLLLLLLLLLLLLLLLLLLLLLLLLLLLLLLLLLLLLLLLLLLLLLLLLLLLLLLLLLLLLLLLLLLLLLLLLLLLLLLLLLLLLLLLLLLLL\n",
        note: "delta: input refused: LongLine at 0\n",
        status: 4,
        ..ROW
    },
    Row {
        words: "text --frames",
        input: b"end\ncat",
        output: b"DEV1\0\x16",
        note: "delta: input refused: BadWord at 4\n",
        status: 4,
        ..ROW
    },
    Row {
        words: "text --v2 --frames",
        input: b"L F one",
        output: b"DEV2\x02\x70\x10",
        ..ROW
    },
];

const TWO_LINES: Row = Row {
    words: "text",
    input: b"DEV1\0\x15\x01\x03\x11\0\0\0\0\0\0\0\x03",
    output: b"item\nF int 3\n",
    ..ROW
};

const FRAMES: &[Row] = &[
    TWO_LINES,
    Row {
        words: "text",
        input: b"DEV1\0\x15\0",
        output: b"item\n",
        note: "delta: input refused: Truncated at 7\n",
        status: 4,
        ..ROW
    },
];

const FINE: Row = Row {
    words: "check program",
    ..NONE
};

const CHECKS: &[Row] = &[
    FINE,
    Row { text: SWAP, ..FINE },
    Row {
        text: TWICE,
        ..FINE
    },
    Row { text: LET, ..FINE },
    Row {
        text: DOUBLE,
        ..FINE
    },
    Row {
        text: b"main(x : Int, y : Int) : Int . Int = (x; y)",
        note: "delta: program refused: OutOfOrder at 37\n",
        status: 3,
        ..FINE
    },
    Row {
        text: b"main(x : Int) : Int = twice(x)",
        note: "delta: program refused: NoFunction at 22\n",
        status: 3,
        ..FINE
    },
    Row {
        text: b"fun twice(xs : Int*) : Int* = case xs of { nil => nil | y :: ys => wait y in ({y * 2} :: twice(ys)) }\nmain(xs : Int*) : Int* = twice(zs)",
        note: "delta: program refused: Unbound at 133\n",
        status: 3,
        ..FINE
    },
];

const PRINTS: &[Row] = &[
    Row {
        words: "print program",
        output: b"main (x : Int) : Int = x\n",
        ..ROW
    },
    Row {
        words: "print program",
        text: DOUBLE,
        output: b"fun twice (xs : Int*) : Int* = case xs of { nil => nil | y :: ys => wait y in { y * 2 } :: twice (ys) }\nmain (xs : Int*) : Int* = twice (xs)\n",
        ..ROW
    },
];

const DOUBLED: Row = Row {
    words: "eval program",
    text: DOUBLE,
    input: THREE,
    output: SIX,
    ..ROW
};

const MEANINGS: &[Row] = &[
    DOUBLED,
    Row {
        words: "eval program --budget 2",
        ..DOUBLED
    },
    Row {
        words: "eval --budget=1 program",
        output: b"",
        note: "delta: stopped: Budget at 0\n",
        status: 5,
        ..DOUBLED
    },
    Row {
        words: "eval program",
        text: SWAP,
        input: RIGHT_THEN_LEFT,
        output: b"DEV1\x01\x01\x11\0\0\0\0\0\0\0\x02\x01\x02\x11\0\0\0\0\0\0\0\x01",
        ..ROW
    },
    Row {
        input: CUT,
        output: b"",
        note: "delta: input refused: Truncated at 16\n",
        status: 4,
        ..DOUBLED
    },
];

const WIDE: Row = Row {
    words: "eval program --v2",
    text: b"type A = Int****************************************\nmain() : A*********************** = nil",
    input: b"DEV1",
    output: b"DEV2\0\x16",
    ..ROW
};

const WIDE_OUTPUTS: &[Row] = &[
    WIDE,
    Row {
        words: "eval program",
        output: b"",
        note: "delta: program refused: WideOutput at 53\n",
        status: 3,
        ..WIDE
    },
    Row {
        text: b"type A = Int****************************************\nmain() : A************************ = nil",
        output: b"",
        note: "delta: program refused: TooTall at 62\n",
        status: 3,
        ..WIDE
    },
    Row {
        words: "eval program",
        text: b"main() : Int******************************** = nil",
        output: b"",
        note: "delta: program refused: WideOutput at 0\n",
        status: 3,
        ..WIDE
    },
    Row {
        words: "run program --v2",
        ..WIDE
    },
    Row {
        words: "run program",
        output: b"",
        note: "delta: program refused: WideOutput at 53\n",
        status: 3,
        ..WIDE
    },
];

// What the rows of each table show.
const TABLES: &[(&str, &[Row])] = &[
    ("programs run", RUNS),
    ("inputs are refused", REFUSALS),
    ("faults are told", FAULTS),
    ("version two is written", LONG_FRAMES),
    ("lines become frames", LINES),
    ("frames become lines", FRAMES),
    ("texts are checked", CHECKS),
    ("texts are printed", PRINTS),
    ("meanings are written", MEANINGS),
    ("wide outputs want long frames", WIDE_OUTPUTS),
];

#[test]
fn rows_are_answered(rt: HostRuntime) -> Result<(), Fail> {
    for (name, rows) in TABLES {
        assert_eq!(rt; first_wrong(rt.alloc(), rows)?, None, "{name}");
    }
    Ok(())
}
