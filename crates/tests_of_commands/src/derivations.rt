//! Derivations of programs, checked by the command `derive`.

use crate::outside::{Row, answers, answers_on};
use delta_code::Coded;
use std::alloc::Global;
use std::test::Fail;

const IN_TURN: &str = "main(x : Int; y : Int) : Int . Int = (x; y)";

const BESIDE: &str = "main(x : Int; y : Int) : Int || Int = (x, y)";

const SWAP: &str = "main(x : Int, y : Int) : Int || Int = (y, x)";

const STUCK: &str = "main(x : 1; y : 1) : 1 . 1 = let z = (() : 1) in (x; z)";

const THREE: &str = "rule\nrule\nrule\n";

const LOOSENED: &str = "loosen .\nrule\nrule\nrule\n";

// Programs, derivations, and what is told of each: nothing where it is one of the program.
const ROWS: &[(&str, &str, &str)] = &[
    (IN_TURN, THREE, ""),
    (BESIDE, LOOSENED, ""),
    (
        "main(x : Int, y : Int) : Int . Int = (x; y)",
        THREE,
        "delta: derivation refused: BadRule at 0\n",
    ),
    (SWAP, LOOSENED, "delta: derivation refused: BadStep at 0\n"),
    (
        STUCK,
        "rule r\nrule\nrule\nrule\nrule\n",
        "delta: derivation refused: BadRule at 0\n",
    ),
    (
        STUCK,
        "rule .\nrule\nrule\n",
        "delta: derivation refused: BadRule at 2\n",
    ),
    (
        IN_TURN,
        "loosen l\n",
        "delta: derivation refused: BadStep at 0\n",
    ),
    (
        IN_TURN,
        LOOSENED,
        "delta: derivation refused: BadRule at 1\n",
    ),
    (
        IN_TURN,
        "rules\n",
        "delta: derivation refused: BadLine at 0\n",
    ),
    (IN_TURN, "rule\n", "delta: derivation refused: Short at 1\n"),
    (
        IN_TURN,
        "rule\nrule\nrule\nrule\n",
        "delta: derivation refused: Long at 3\n",
    ),
];

const DERIVED: Row = Row {
    words: "derive program a",
    text: IN_TURN,
    first: THREE,
    second: "",
    output: "",
    note: "",
    status: 0,
};

#[test]
fn derivations_are_judged(rt: HostRuntime) -> Result<(), Fail> {
    for (text, first, note) in ROWS {
        let row = Row {
            text,
            first,
            note,
            status: if note.is_empty() { 0 } else { 11 },
            ..DERIVED
        };
        assert!(rt; answers(rt.alloc(), &row)?, "{text} {first}");
    }
    Ok(())
}

// Words, derivations, what is told, and the status.
const OTHER_ENDS: &[(&str, &str, &str, u8)] = &[
    ("derive program -- a", THREE, "", 0),
    ("derive b a", THREE, REFUSED, 3),
    ("derive b a", "rules", REFUSED, 3),
    ("derive program", THREE, "delta: usage\n", 2),
    ("derive program a a", THREE, "delta: usage\n", 2),
    ("derive program a --budget 5", THREE, "delta: usage\n", 2),
];

const REFUSED: &str = "delta: program refused: Unbound at 22\n";

#[test]
fn programs_and_words_are_judged_first(rt: HostRuntime) -> Result<(), Fail> {
    for (words, first, note, status) in OTHER_ENDS {
        let row = Row {
            words,
            first,
            second: "main(x : Int) : Int = y",
            note,
            status: *status,
            ..DERIVED
        };
        assert!(rt; answers(rt.alloc(), &row)?, "{words} {first}");
    }
    Ok(())
}

// Whether a derivation of one byte more than there may be is refused.
fn is_too_long(alloc: Global) -> Result<bool, Fail> {
    let mut proof = String::new(alloc);
    for _ in 0..1_048_577 {
        proof.push('r')?;
    }
    let row = Row {
        first: proof.as_str(),
        note: "delta: derivation refused: LongText at 1048576\n",
        status: 11,
        ..DERIVED
    };
    let refused = answers_on::<Coded>(alloc, &row, 4096);
    drop(proof);
    refused
}

#[test]
fn long_derivation_is_refused(rt: HostRuntime) -> Result<(), Fail> {
    assert!(rt; is_too_long(rt.alloc())?);
    Ok(())
}
