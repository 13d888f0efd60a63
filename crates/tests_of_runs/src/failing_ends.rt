//! The reads and the writes of the link failing in turn, the shelf failing, and the sink failing before or in a note.

use crate::outside::{Answer, Given, breaks_off, holds};
use crate::tables::{
    BOUND, CHECK, Command, DERIVE, FOUR, GEN, GIVEN, LINES, ONE_EVENT, PRINT, PRINTED, RESUME, SIX,
    SUMMARY, THREE, commands,
};
use std::alloc::Global;
use std::test::Fail;

// What is written before the read with a number.
fn written_before(command: &Command, read: usize) -> &'static [u8] {
    for (below, bytes) in command.reads {
        if read < *below {
            return bytes;
        }
    }
    command.whole
}

// Whether a command answers as it must where a read fails, for each of them: pieces have one byte.
fn answers_failing_reads(alloc: Global, command: &Command) -> Result<bool, Fail> {
    let mut all = true;
    for read in 0..=command.given.input.len() {
        let given = Given {
            piece: 1,
            fail_reads: &[read as u64],
            ..command.given
        };
        let answer = (
            written_before(command, read),
            7,
            "delta: outside fault: input\n",
        );
        all = all && holds(alloc, &given, answer)?;
    }
    Ok(all)
}

#[test]
fn reads_fail_in_turn(rt: HostRuntime) -> Result<(), Fail> {
    for command in commands() {
        assert!(rt;
            answers_failing_reads(rt.alloc(), command)?,
            "{}",
            command.given.words
        );
    }
    Ok(())
}

// Whether a command that writes these bytes in all answers as it must where a write fails, for each of them:
// writes take one byte.
fn answers_failing_writes(alloc: Global, given: &Given<'_>, whole: &[u8]) -> Result<bool, Fail> {
    let mut all = true;
    for write in 0..whole.len() {
        let given = Given {
            most: 1,
            fail_writes: &[write as u64],
            ..*given
        };
        let answer = (&whole[..write], 7, "delta: outside fault: output\n");
        all = all && holds(alloc, &given, answer)?;
    }
    Ok(all)
}

#[test]
fn writes_fail_in_turn(rt: HostRuntime) -> Result<(), Fail> {
    for command in commands() {
        let (given, whole) = (&command.given, command.whole);
        assert!(rt;
            answers_failing_writes(rt.alloc(), given, whole)?,
            "{}",
            given.words
        );
    }
    assert!(rt; answers_failing_writes(rt.alloc(), &PRINT, PRINTED)?);
    assert!(rt; answers_failing_writes(rt.alloc(), &GEN, SUMMARY)?);
    assert!(rt; answers_failing_writes(rt.alloc(), &BOUND, ONE_EVENT)?);
    assert!(rt; answers_failing_writes(rt.alloc(), &RESUME, FOUR)?);
    Ok(())
}

// A command, and what it must write and answer.
type Row = (Given<'static>, Answer<'static>);

// The shelf's first call fails.
const WITHOUT_FILES: Given<'static> = Given {
    fail_calls: &[0],
    ..GIVEN
};

const NO_FILE: Answer<'static> = (b"", 7, "delta: outside fault: file\n");

const CALLS: &[Row] = &[
    (WITHOUT_FILES, NO_FILE),
    (
        Given {
            words: "eval program",
            ..WITHOUT_FILES
        },
        NO_FILE,
    ),
    (
        Given {
            words: "print program",
            ..WITHOUT_FILES
        },
        NO_FILE,
    ),
    (
        Given {
            words: "check program",
            ..WITHOUT_FILES
        },
        NO_FILE,
    ),
    (
        Given {
            words: "bound program",
            ..WITHOUT_FILES
        },
        NO_FILE,
    ),
    (
        Given {
            words: "derive program proof",
            ..WITHOUT_FILES
        },
        NO_FILE,
    ),
    (
        Given {
            fail_calls: &[1],
            ..DERIVE
        },
        NO_FILE,
    ),
    (
        Given {
            words: "derive program gone",
            ..GIVEN
        },
        NO_FILE,
    ),
    (
        Given {
            words: "save program proof",
            ..WITHOUT_FILES
        },
        NO_FILE,
    ),
    // All is written before the state is.
    (
        Given {
            words: "save program proof",
            fail_calls: &[1],
            ..GIVEN
        },
        (SIX, 7, "delta: outside fault: file\n"),
    ),
    (
        Given {
            fail_calls: &[0],
            ..RESUME
        },
        NO_FILE,
    ),
    (
        Given {
            fail_calls: &[1],
            ..RESUME
        },
        NO_FILE,
    ),
    (
        Given {
            words: "resume program gone",
            ..RESUME
        },
        NO_FILE,
    ),
    (RESUME, (FOUR, 0, "")),
    // The state to go on from is read before anything is written, and all is written before the next one is.
    (
        Given {
            words: "save program proof proof",
            fail_calls: &[1],
            ..RESUME
        },
        NO_FILE,
    ),
    (
        Given {
            words: "save program proof proof",
            fail_calls: &[2],
            ..RESUME
        },
        (FOUR, 7, "delta: outside fault: file\n"),
    ),
    // The state for what is no program isn't read.
    (
        Given {
            text: b"\xff",
            fail_calls: &[1],
            ..RESUME
        },
        (b"", 3, "delta: program refused: BadUtf8 at 0\n"),
    ),
    // A state that is refused is told with nothing read.
    (
        Given {
            proof: b"DST\x02",
            fail_reads: &[0],
            fail_writes: &[0],
            ..RESUME
        },
        (b"", 10, "delta: state refused: Version at 2\n"),
    ),
    // The derivation of what is no program isn't read.
    (
        Given {
            text: b"\xff",
            fail_calls: &[1],
            ..DERIVE
        },
        (b"", 3, "delta: program refused: BadUtf8 at 0\n"),
    ),
    (
        Given {
            words: "run gone",
            ..GIVEN
        },
        NO_FILE,
    ),
    (
        Given {
            words: "text",
            ..WITHOUT_FILES
        },
        (LINES, 0, ""),
    ),
    (
        Given {
            words: "text --frames",
            input: LINES,
            ..WITHOUT_FILES
        },
        (THREE, 0, ""),
    ),
    (
        Given {
            fail_reads: &[0],
            ..PRINT
        },
        (PRINTED, 0, ""),
    ),
    (
        Given {
            fail_reads: &[0],
            fail_writes: &[0],
            ..CHECK
        },
        (b"", 0, ""),
    ),
    (
        Given {
            fail_reads: &[0],
            ..BOUND
        },
        (ONE_EVENT, 0, ""),
    ),
    (
        Given {
            fail_reads: &[0],
            fail_writes: &[0],
            ..DERIVE
        },
        (b"", 0, ""),
    ),
    (
        Given {
            fail_calls: &[0],
            fail_reads: &[0],
            ..GEN
        },
        (SUMMARY, 0, ""),
    ),
];

// Whether each row's command writes and answers what it must.
fn hold(alloc: Global, rows: &[Row]) -> Result<bool, Fail> {
    let mut all = true;
    for (given, answer) in rows {
        all = all && holds(alloc, given, *answer)?;
    }
    Ok(all)
}

#[test]
fn shelf_fails(rt: HostRuntime) -> Result<(), Fail> {
    assert!(rt; hold(rt.alloc(), CALLS)?);
    Ok(())
}

// The sink fails at once.
const SILENT: Given<'static> = Given {
    fail_notes: &[0],
    ..GIVEN
};

// A program that holds a whole feed, so that it has no bound.
const TOTAL: &[u8] = b"main(xs : Int*) : Int = wait xs in {fold xs from 0 with a, y . a + y}";

// Where there is no note status 6 is 7, and each other one stays.
const SILENCED: &[Row] = &[
    (SILENT, (SIX, 0, "")),
    (
        Given {
            input: b"DEV1",
            ..SILENT
        },
        (b"DEV1", 7, ""),
    ),
    (
        Given {
            input: b"",
            ..SILENT
        },
        (b"DEV1", 4, ""),
    ),
    (
        Given {
            words: "run program --budget 0",
            ..SILENT
        },
        (b"DEV1", 5, ""),
    ),
    (
        Given {
            words: "run program program",
            ..SILENT
        },
        (b"", 2, ""),
    ),
    (
        Given {
            fail_reads: &[0],
            ..SILENT
        },
        (b"DEV1", 7, ""),
    ),
    (
        Given {
            words: "eval program",
            input: b"DEV1",
            ..SILENT
        },
        (b"DEV1", 7, ""),
    ),
    (
        Given {
            words: "eval program --budget 1",
            ..SILENT
        },
        (b"", 5, ""),
    ),
    (
        Given {
            words: "text",
            input: b"DEV1\0",
            ..SILENT
        },
        (b"", 4, ""),
    ),
    (
        Given {
            words: "text --frames",
            input: b"end\ncat",
            ..SILENT
        },
        (b"DEV1\0\x16", 4, ""),
    ),
    (
        Given {
            words: "print program",
            text: b"main",
            ..SILENT
        },
        (b"", 3, ""),
    ),
    (
        Given {
            words: "check program",
            text: b"main",
            ..SILENT
        },
        (b"", 3, ""),
    ),
    (
        Given {
            words: "bound program",
            text: TOTAL,
            ..SILENT
        },
        (b"", 12, ""),
    ),
    (
        Given {
            words: "derive program proof",
            proof: b"",
            ..SILENT
        },
        (b"", 11, ""),
    ),
    (
        Given {
            words: "gen 996 3",
            fail_writes: &[0],
            ..SILENT
        },
        (b"", 7, ""),
    ),
    (
        Given {
            words: "save program proof",
            input: b"DEV1",
            ..SILENT
        },
        (b"DEV1", 7, ""),
    ),
    (
        Given {
            words: "resume program proof",
            ..SILENT
        },
        (b"", 10, ""),
    ),
    (
        Given {
            input: b"DEV1",
            fail_notes: &[0],
            ..RESUME
        },
        (b"", 7, ""),
    ),
];

#[test]
fn sink_fails_at_once(rt: HostRuntime) -> Result<(), Fail> {
    assert!(rt; hold(rt.alloc(), SILENCED)?);
    Ok(())
}

// Commands with a note; the sink fails at one of its writes.
const NOTED: &[Row] = &[
    (
        Given {
            input: b"",
            ..GIVEN
        },
        (b"DEV1", 4, "delta: input refused: Truncated at 0\n"),
    ),
    (
        Given {
            words: "run program --budget 0",
            ..GIVEN
        },
        (b"DEV1", 5, "delta: stopped: Budget at 0\n"),
    ),
    (
        Given {
            words: "eval program --budget 1",
            ..GIVEN
        },
        (b"", 5, "delta: stopped: Budget at 0\n"),
    ),
    (
        Given {
            words: "text",
            input: b"DEV1\0",
            ..GIVEN
        },
        (b"", 4, "delta: input refused: Truncated at 5\n"),
    ),
    (
        Given {
            words: "text --frames",
            input: b"end\ncat",
            ..GIVEN
        },
        (b"DEV1\0\x16", 4, "delta: input refused: BadWord at 4\n"),
    ),
    (
        Given {
            text: b"\xff",
            ..PRINT
        },
        (b"", 3, "delta: program refused: BadUtf8 at 0\n"),
    ),
    (
        Given {
            text: b"\xff",
            ..CHECK
        },
        (b"", 3, "delta: program refused: BadUtf8 at 0\n"),
    ),
    (
        Given {
            text: TOTAL,
            ..BOUND
        },
        (b"", 12, "delta: no bound: Unbounded at 24\n"),
    ),
    (
        Given {
            proof: b"",
            ..DERIVE
        },
        (b"", 11, "delta: derivation refused: Short at 0\n"),
    ),
    (
        Given {
            proof: b"",
            ..RESUME
        },
        (b"", 10, "delta: state refused: Form at 0\n"),
    ),
];

// How many pieces each of these notes has at least.
const PIECES: u64 = 4;

// Whether a row's command writes and answers what it must where the sink fails at a piece of the note, for each of the
// first of them: a part of the note is told, and more of it at each later piece.
fn breaks_off_in_turn(alloc: Global, row: &Row) -> Result<bool, Fail> {
    let mut all = true;
    let mut least = 0;
    for piece in 0..PIECES {
        let given = Given {
            fail_notes: &[piece],
            ..row.0
        };
        match breaks_off(alloc, &given, row.1)? {
            Some(said) => {
                all = all && said >= least;
                least = said.saturating_add(1);
            }
            None => all = false,
        }
    }
    Ok(all)
}

#[test]
fn sink_fails_in_a_note(rt: HostRuntime) -> Result<(), Fail> {
    for row in NOTED {
        assert!(rt; breaks_off_in_turn(rt.alloc(), row)?, "{}", row.0.words);
    }
    Ok(())
}
