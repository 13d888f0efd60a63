//! The doubling program, its input, and what each command must write and answer where that input is cut off, a byte of
//! it is changed, or a read fails. Each row was worked out from the definitions, by hand.

use crate::outside::{Answer, Given};

/// A program that doubles each number of a feed.
pub const DOUBLE: &[u8] =
    b"fun twice(xs : Int*) : Int* = case xs of { nil => nil | y :: ys => wait y in ({y * 2} :: twice(ys)) }
main(xs : Int*) : Int* = twice(xs)
";

/// Its canonical text.
pub const PRINTED: &[u8] =
    b"fun twice (xs : Int*) : Int* = case xs of { nil => nil | y :: ys => wait y in { y * 2 } :: twice (ys) }
main (xs : Int*) : Int* = twice (xs)
";

/// A derivation of it.
pub const STEPS: &[u8] = b"rule\nrule\nrule\ndrop l\nunit .\nrule\nrule\nrule\nrule\nrule\nrule\n";

/// The frames of `item`, `F int 3`, `cut` and `end`; those of the events begin at 4, 6, 17 and 19.
pub const THREE: &[u8] = b"DEV1\0\x15\x01\x03\x11\0\0\0\0\0\0\0\x03\0\x14\0\x16";

// The header, and what is said once `item`, `F int 3` and `cut` came.
const HEADER: &[u8] = b"DEV1";

const ITEM: &[u8] = b"DEV1\0\x15";

const NUMBER: &[u8] = b"DEV1\0\x15\x01\x03\x11\0\0\0\0\0\0\0\x03";

const CUT: &[u8] = b"DEV1\0\x15\x01\x03\x11\0\0\0\0\0\0\0\x03\0\x14";

// What is said of the first number.
const DOUBLED: &[u8] = b"DEV1\0\x15\x01\x03\x11\0\0\0\0\0\0\0\x06\0\x14";

/// What is said of the whole feed.
pub const SIX: &[u8] = b"DEV1\0\x15\x01\x03\x11\0\0\0\0\0\0\0\x06\0\x14\0\x16";

/// A command over the feed, and what it must write and answer.
pub struct Command {
    pub given: Given<'static>,
    /// What it writes where all goes well.
    pub whole: &'static [u8],
    /// Its answers by the number of bytes that come.
    pub cuts: &'static [Answer<'static>],
    /// Its answers by the byte that is set to FF.
    pub changes: &'static [Answer<'static>],
    /// What is written where a read of one byte fails: its number is below the one that stands here.
    pub reads: &'static [(usize, &'static [u8])],
}

/// `run` over the feed, with nothing that fails.
pub const GIVEN: Given<'static> = Given {
    words: "run program",
    text: DOUBLE,
    proof: STEPS,
    input: THREE,
    piece: 4096,
    most: 4096,
    fail_calls: &[],
    fail_reads: &[],
    fail_writes: &[],
    fail_notes: &[],
};

const RUN_CUTS: &[Answer<'static>] = &[
    (HEADER, 4, "delta: input refused: Truncated at 0\n"),
    (HEADER, 4, "delta: input refused: Truncated at 1\n"),
    (HEADER, 4, "delta: input refused: Truncated at 2\n"),
    (HEADER, 4, "delta: input refused: Truncated at 3\n"),
    (HEADER, 6, "delta: input open\n"),
    (HEADER, 4, "delta: input refused: Truncated at 5\n"),
    (HEADER, 6, "delta: input open\n"),
    (HEADER, 4, "delta: input refused: Truncated at 7\n"),
    (HEADER, 4, "delta: input refused: Truncated at 8\n"),
    (HEADER, 4, "delta: input refused: Truncated at 9\n"),
    (HEADER, 4, "delta: input refused: Truncated at 10\n"),
    (HEADER, 4, "delta: input refused: Truncated at 11\n"),
    (HEADER, 4, "delta: input refused: Truncated at 12\n"),
    (HEADER, 4, "delta: input refused: Truncated at 13\n"),
    (HEADER, 4, "delta: input refused: Truncated at 14\n"),
    (HEADER, 4, "delta: input refused: Truncated at 15\n"),
    (HEADER, 4, "delta: input refused: Truncated at 16\n"),
    (DOUBLED, 6, "delta: input open\n"),
    (DOUBLED, 4, "delta: input refused: Truncated at 18\n"),
    (DOUBLED, 6, "delta: input open\n"),
    (DOUBLED, 4, "delta: input refused: Truncated at 20\n"),
    (SIX, 0, ""),
];

// From the ninth byte on the number is another, and so is the one that is twice as great.
const RUN_CHANGES: &[Answer<'static>] = &[
    (HEADER, 4, "delta: input refused: BadMagic at 0\n"),
    (HEADER, 4, "delta: input refused: BadMagic at 1\n"),
    (HEADER, 4, "delta: input refused: BadMagic at 2\n"),
    (HEADER, 4, "delta: input refused: BadMagic at 3\n"),
    (HEADER, 4, "delta: input refused: LongPath at 4\n"),
    (HEADER, 4, "delta: input refused: BadLeaf at 5\n"),
    (HEADER, 4, "delta: input refused: LongPath at 6\n"),
    (HEADER, 4, "delta: input refused: BadStep at 7\n"),
    (HEADER, 4, "delta: input refused: BadLeaf at 8\n"),
    (
        b"DEV1\0\x15\x01\x03\x11\xfe\0\0\0\0\0\0\x06\0\x14\0\x16",
        0,
        "",
    ),
    (
        b"DEV1\0\x15\x01\x03\x11\x01\xfe\0\0\0\0\0\x06\0\x14\0\x16",
        0,
        "",
    ),
    (
        b"DEV1\0\x15\x01\x03\x11\0\x01\xfe\0\0\0\0\x06\0\x14\0\x16",
        0,
        "",
    ),
    (
        b"DEV1\0\x15\x01\x03\x11\0\0\x01\xfe\0\0\0\x06\0\x14\0\x16",
        0,
        "",
    ),
    (
        b"DEV1\0\x15\x01\x03\x11\0\0\0\x01\xfe\0\0\x06\0\x14\0\x16",
        0,
        "",
    ),
    (
        b"DEV1\0\x15\x01\x03\x11\0\0\0\0\x01\xfe\0\x06\0\x14\0\x16",
        0,
        "",
    ),
    (
        b"DEV1\0\x15\x01\x03\x11\0\0\0\0\0\x01\xfe\x06\0\x14\0\x16",
        0,
        "",
    ),
    (
        b"DEV1\0\x15\x01\x03\x11\0\0\0\0\0\0\x01\xfe\0\x14\0\x16",
        0,
        "",
    ),
    (DOUBLED, 4, "delta: input refused: LongPath at 17\n"),
    (DOUBLED, 4, "delta: input refused: BadLeaf at 18\n"),
    (DOUBLED, 4, "delta: input refused: LongPath at 19\n"),
    (DOUBLED, 4, "delta: input refused: BadLeaf at 20\n"),
];

const RUN: Command = Command {
    given: GIVEN,
    whole: SIX,
    cuts: RUN_CUTS,
    changes: RUN_CHANGES,
    reads: &[(17, HEADER), (21, DOUBLED), (22, SIX)],
};

const EVAL_CUTS: &[Answer<'static>] = &[
    (b"", 4, "delta: input refused: Truncated at 0\n"),
    (b"", 4, "delta: input refused: Truncated at 1\n"),
    (b"", 4, "delta: input refused: Truncated at 2\n"),
    (b"", 4, "delta: input refused: Truncated at 3\n"),
    (HEADER, 6, "delta: input open\n"),
    (b"", 4, "delta: input refused: Truncated at 5\n"),
    (HEADER, 6, "delta: input open\n"),
    (b"", 4, "delta: input refused: Truncated at 7\n"),
    (b"", 4, "delta: input refused: Truncated at 8\n"),
    (b"", 4, "delta: input refused: Truncated at 9\n"),
    (b"", 4, "delta: input refused: Truncated at 10\n"),
    (b"", 4, "delta: input refused: Truncated at 11\n"),
    (b"", 4, "delta: input refused: Truncated at 12\n"),
    (b"", 4, "delta: input refused: Truncated at 13\n"),
    (b"", 4, "delta: input refused: Truncated at 14\n"),
    (b"", 4, "delta: input refused: Truncated at 15\n"),
    (b"", 4, "delta: input refused: Truncated at 16\n"),
    (DOUBLED, 6, "delta: input open\n"),
    (b"", 4, "delta: input refused: Truncated at 18\n"),
    (DOUBLED, 6, "delta: input open\n"),
    (b"", 4, "delta: input refused: Truncated at 20\n"),
    (SIX, 0, ""),
];

const EVAL_CHANGES: &[Answer<'static>] = &[
    (b"", 4, "delta: input refused: BadMagic at 0\n"),
    (b"", 4, "delta: input refused: BadMagic at 1\n"),
    (b"", 4, "delta: input refused: BadMagic at 2\n"),
    (b"", 4, "delta: input refused: BadMagic at 3\n"),
    (b"", 4, "delta: input refused: LongPath at 4\n"),
    (b"", 4, "delta: input refused: BadLeaf at 5\n"),
    (b"", 4, "delta: input refused: LongPath at 6\n"),
    (b"", 4, "delta: input refused: BadStep at 7\n"),
    (b"", 4, "delta: input refused: BadLeaf at 8\n"),
    (
        b"DEV1\0\x15\x01\x03\x11\xfe\0\0\0\0\0\0\x06\0\x14\0\x16",
        0,
        "",
    ),
    (
        b"DEV1\0\x15\x01\x03\x11\x01\xfe\0\0\0\0\0\x06\0\x14\0\x16",
        0,
        "",
    ),
    (
        b"DEV1\0\x15\x01\x03\x11\0\x01\xfe\0\0\0\0\x06\0\x14\0\x16",
        0,
        "",
    ),
    (
        b"DEV1\0\x15\x01\x03\x11\0\0\x01\xfe\0\0\0\x06\0\x14\0\x16",
        0,
        "",
    ),
    (
        b"DEV1\0\x15\x01\x03\x11\0\0\0\x01\xfe\0\0\x06\0\x14\0\x16",
        0,
        "",
    ),
    (
        b"DEV1\0\x15\x01\x03\x11\0\0\0\0\x01\xfe\0\x06\0\x14\0\x16",
        0,
        "",
    ),
    (
        b"DEV1\0\x15\x01\x03\x11\0\0\0\0\0\x01\xfe\x06\0\x14\0\x16",
        0,
        "",
    ),
    (
        b"DEV1\0\x15\x01\x03\x11\0\0\0\0\0\0\x01\xfe\0\x14\0\x16",
        0,
        "",
    ),
    (b"", 4, "delta: input refused: LongPath at 17\n"),
    (b"", 4, "delta: input refused: BadLeaf at 18\n"),
    (b"", 4, "delta: input refused: LongPath at 19\n"),
    (b"", 4, "delta: input refused: BadLeaf at 20\n"),
];

// Nothing is written before the input's end.
const EVAL: Command = Command {
    given: Given {
        words: "eval program",
        ..GIVEN
    },
    whole: SIX,
    cuts: EVAL_CUTS,
    changes: EVAL_CHANGES,
    reads: &[(22, b"")],
};

// The lines of the events, one after the other.
const ONE_LINE: &[u8] = b"item\n";

const TWO_LINES: &[u8] = b"item\nF int 3\n";

const THREE_LINES: &[u8] = b"item\nF int 3\ncut\n";

/// The lines of the whole feed.
pub const LINES: &[u8] = b"item\nF int 3\ncut\nend\n";

const TEXT_CUTS: &[Answer<'static>] = &[
    (b"", 4, "delta: input refused: Truncated at 0\n"),
    (b"", 4, "delta: input refused: Truncated at 1\n"),
    (b"", 4, "delta: input refused: Truncated at 2\n"),
    (b"", 4, "delta: input refused: Truncated at 3\n"),
    (b"", 0, ""),
    (b"", 4, "delta: input refused: Truncated at 5\n"),
    (ONE_LINE, 0, ""),
    (ONE_LINE, 4, "delta: input refused: Truncated at 7\n"),
    (ONE_LINE, 4, "delta: input refused: Truncated at 8\n"),
    (ONE_LINE, 4, "delta: input refused: Truncated at 9\n"),
    (ONE_LINE, 4, "delta: input refused: Truncated at 10\n"),
    (ONE_LINE, 4, "delta: input refused: Truncated at 11\n"),
    (ONE_LINE, 4, "delta: input refused: Truncated at 12\n"),
    (ONE_LINE, 4, "delta: input refused: Truncated at 13\n"),
    (ONE_LINE, 4, "delta: input refused: Truncated at 14\n"),
    (ONE_LINE, 4, "delta: input refused: Truncated at 15\n"),
    (ONE_LINE, 4, "delta: input refused: Truncated at 16\n"),
    (TWO_LINES, 0, ""),
    (TWO_LINES, 4, "delta: input refused: Truncated at 18\n"),
    (THREE_LINES, 0, ""),
    (THREE_LINES, 4, "delta: input refused: Truncated at 20\n"),
    (LINES, 0, ""),
];

const TEXT_CHANGES: &[Answer<'static>] = &[
    (b"", 4, "delta: input refused: BadMagic at 0\n"),
    (b"", 4, "delta: input refused: BadMagic at 1\n"),
    (b"", 4, "delta: input refused: BadMagic at 2\n"),
    (b"", 4, "delta: input refused: BadMagic at 3\n"),
    (b"", 4, "delta: input refused: LongPath at 4\n"),
    (b"", 4, "delta: input refused: BadLeaf at 5\n"),
    (ONE_LINE, 4, "delta: input refused: LongPath at 6\n"),
    (ONE_LINE, 4, "delta: input refused: BadStep at 7\n"),
    (ONE_LINE, 4, "delta: input refused: BadLeaf at 8\n"),
    (b"item\nF int -72057594037927933\ncut\nend\n", 0, ""),
    (b"item\nF int 71776119061217283\ncut\nend\n", 0, ""),
    (b"item\nF int 280375465082883\ncut\nend\n", 0, ""),
    (b"item\nF int 1095216660483\ncut\nend\n", 0, ""),
    (b"item\nF int 4278190083\ncut\nend\n", 0, ""),
    (b"item\nF int 16711683\ncut\nend\n", 0, ""),
    (b"item\nF int 65283\ncut\nend\n", 0, ""),
    (b"item\nF int 255\ncut\nend\n", 0, ""),
    (TWO_LINES, 4, "delta: input refused: LongPath at 17\n"),
    (TWO_LINES, 4, "delta: input refused: BadLeaf at 18\n"),
    (THREE_LINES, 4, "delta: input refused: LongPath at 19\n"),
    (THREE_LINES, 4, "delta: input refused: BadLeaf at 20\n"),
];

const TEXT: Command = Command {
    given: Given {
        words: "text",
        ..GIVEN
    },
    whole: LINES,
    cuts: TEXT_CUTS,
    changes: TEXT_CHANGES,
    reads: &[
        (6, b""),
        (17, ONE_LINE),
        (19, TWO_LINES),
        (21, THREE_LINES),
        (22, LINES),
    ],
};

// The last line needs no line feed.
const FRAMES_CUTS: &[Answer<'static>] = &[
    (HEADER, 0, ""),
    (HEADER, 4, "delta: input refused: BadWord at 0\n"),
    (HEADER, 4, "delta: input refused: BadWord at 0\n"),
    (HEADER, 4, "delta: input refused: BadWord at 0\n"),
    (ITEM, 0, ""),
    (ITEM, 0, ""),
    (ITEM, 4, "delta: input refused: NoLeaf at 5\n"),
    (ITEM, 4, "delta: input refused: NoLeaf at 5\n"),
    (ITEM, 4, "delta: input refused: BadWord at 5\n"),
    (ITEM, 4, "delta: input refused: BadWord at 5\n"),
    (ITEM, 4, "delta: input refused: NoLeaf at 5\n"),
    (ITEM, 4, "delta: input refused: NoLeaf at 5\n"),
    (NUMBER, 0, ""),
    (NUMBER, 0, ""),
    (NUMBER, 4, "delta: input refused: BadWord at 13\n"),
    (NUMBER, 4, "delta: input refused: BadWord at 13\n"),
    (CUT, 0, ""),
    (CUT, 0, ""),
    (CUT, 4, "delta: input refused: BadWord at 17\n"),
    (CUT, 4, "delta: input refused: BadWord at 17\n"),
    (THREE, 0, ""),
    (THREE, 0, ""),
];

const FRAMES_CHANGES: &[Answer<'static>] = &[
    (HEADER, 4, "delta: input refused: BadWord at 0\n"),
    (HEADER, 4, "delta: input refused: BadWord at 0\n"),
    (HEADER, 4, "delta: input refused: BadWord at 0\n"),
    (HEADER, 4, "delta: input refused: BadWord at 0\n"),
    (HEADER, 4, "delta: input refused: BadWord at 0\n"),
    (ITEM, 4, "delta: input refused: BadWord at 5\n"),
    (ITEM, 4, "delta: input refused: BadWord at 5\n"),
    (ITEM, 4, "delta: input refused: BadWord at 5\n"),
    (ITEM, 4, "delta: input refused: BadWord at 5\n"),
    (ITEM, 4, "delta: input refused: BadWord at 5\n"),
    (ITEM, 4, "delta: input refused: BadWord at 5\n"),
    (ITEM, 4, "delta: input refused: BadWord at 5\n"),
    (ITEM, 4, "delta: input refused: BadWord at 5\n"),
    (NUMBER, 4, "delta: input refused: BadWord at 13\n"),
    (NUMBER, 4, "delta: input refused: BadWord at 13\n"),
    (NUMBER, 4, "delta: input refused: BadWord at 13\n"),
    (NUMBER, 4, "delta: input refused: BadWord at 13\n"),
    (CUT, 4, "delta: input refused: BadWord at 17\n"),
    (CUT, 4, "delta: input refused: BadWord at 17\n"),
    (CUT, 4, "delta: input refused: BadWord at 17\n"),
    (CUT, 4, "delta: input refused: BadWord at 17\n"),
];

const FRAMES: Command = Command {
    given: Given {
        words: "text --frames",
        input: LINES,
        ..GIVEN
    },
    whole: THREE,
    cuts: FRAMES_CUTS,
    changes: FRAMES_CHANGES,
    reads: &[
        (5, HEADER),
        (13, ITEM),
        (17, NUMBER),
        (21, CUT),
        (22, THREE),
    ],
};

// It writes what `run` writes, and leaves its state in the file `proof`.
const SAVE: Command = Command {
    given: Given {
        words: "save program proof",
        ..GIVEN
    },
    ..RUN
};

const COMMANDS: &[Command] = &[RUN, EVAL, TEXT, FRAMES, SAVE];

/// The commands that read the feed. Tests ask here for them: a table that is a constant is written out in the proof of
/// each function that names it.
pub fn commands() -> &'static [Command] {
    COMMANDS
}

/// `print`, which reads no input.
pub const PRINT: Given<'static> = Given {
    words: "print program",
    ..GIVEN
};

/// `check`, which reads no input and writes nothing.
pub const CHECK: Given<'static> = Given {
    words: "check program",
    ..GIVEN
};

/// `bound`, which reads no input.
pub const BOUND: Given<'static> = Given {
    words: "bound program",
    ..GIVEN
};

/// The line that it writes.
pub const ONE_EVENT: &[u8] = b"bound 1\n";

/// `derive`, which reads no input and writes nothing.
pub const DERIVE: Given<'static> = Given {
    words: "derive program proof",
    ..GIVEN
};

/// `resume` of a program of one number, from its state before any event: its types, and its name as its state.
pub const RESUME: Given<'static> = Given {
    words: "resume program proof",
    text: b"main(x : Int) : Int = x",
    proof: b"DST\x01\0\0\0\0\0\0\0\0\0\0\0\x01\x02\0\0\0\0\x02\x01\0\0\0\0",
    input: b"DEV1\0\x11\0\0\0\0\0\0\0\x04",
    ..GIVEN
};

/// What it writes.
pub const FOUR: &[u8] = b"\0\x11\0\0\0\0\0\0\0\x04";

/// `gen` over three items, which reads neither a file nor an input.
pub const GEN: Given<'static> = Given {
    words: "gen 996 3",
    ..GIVEN
};

/// The line that it writes.
pub const SUMMARY: &[u8] = b"items 3 in 16 96 out 4 21 last 0\n";
