//! The examples of `docs/REFUSALS.md` for status 3 to 5, row by row.

use crate::outside::tells;
use std::alloc::Global;
use std::test::Fail;

const ONE: &str = "main(x : Int) : Int = x";

const IN_TURN: &str = "main(x : Int; y : Int) : Int . Int = (x; y)";

const LOOP: &str = "fun loop(x : Int) : Int = loop(x)\nmain(x : Int) : Int = loop(x)";

const NEST: &str =
    "fun nest{n : Int}(x : Int) : Int = if n < 1 then x else let y = nest{n - 1}(x) in y
main(x : Int) : Int = nest{1001}(x)";

// Types of which each is twice the one before it.
const DOUBLED_TYPES: &str = "type A1 = Int || Int
type A2 = A1 || A1
type A3 = A2 || A2
type A4 = A3 || A3
type A5 = A4 || A4
type A6 = A5 || A5
type A7 = A6 || A6
type A8 = A7 || A7
type A9 = A8 || A8
type A10 = A9 || A9
type A11 = A10 || A10
type A12 = A11 || A11
main() : 1 = ()";

// A text that is checked, and what is told of it.
#[derive(Clone, Copy)]
struct Text {
    text: &'static str,
    note: &'static str,
}

const TEXTS: &[Text] = &[
    Text {
        text: "main(x : Int) : Int = x # y",
        note: "delta: program refused: BadChar at 24\n",
    },
    Text {
        text: "main() : Int = {9223372036854775808}",
        note: "delta: program refused: BigNumber at 16\n",
    },
    Text {
        text: "main(x : Int) : Int = x)",
        note: "delta: program refused: Expected at 23\n",
    },
    Text {
        text: "fun f(x : Int) : Int = x",
        note: "delta: program refused: NoMain at 24\n",
    },
    Text {
        text: "main(x : Int, x : Int) : Int = x",
        note: "delta: program refused: Twice at 14\n",
    },
    Text {
        text: "main(x : Int) : Int = y",
        note: "delta: program refused: Unbound at 22\n",
    },
    Text {
        text: "main(x : Int) : Int = f(x)",
        note: "delta: program refused: NoFunction at 22\n",
    },
    Text {
        text: "main(x : Number) : Int = x",
        note: "delta: program refused: NoType at 9\n",
    },
    Text {
        text: DOUBLED_TYPES,
        note: "delta: program refused: TooWide at 226\n",
    },
    Text {
        text: "main(x : Int) : 1 = x",
        note: "delta: program refused: Mismatch at 20\n",
    },
    Text {
        text: "main(x : Int, y : Int) : Int . Int = (x; y)",
        note: "delta: program refused: OutOfOrder at 37\n",
    },
    Text {
        text: "fun f(a : 1; b : 1) : 1 = a\nmain(x : 1; y : 1) : 1 = f(x, ())",
        note: "delta: program refused: Jumpy at 53\n",
    },
    Text {
        text: "main(x : eps, y : Int) : Int = wait x in y",
        note: "delta: program refused: WaitNull at 31\n",
    },
    Text {
        text: "main(x : Int) : Int = wait x in x",
        note: "delta: program refused: NotStream at 32\n",
    },
    Text {
        text: "main(x : Int) : Int = wait x in {x < 1}",
        note: "delta: program refused: History at 32\n",
    },
    Text {
        text: "fun f(x : Int) : Int = x\nmain(x : Int) : Int = f(x, x)",
        note: "delta: program refused: Arity at 47\n",
    },
];

// The number of texts before the first of which something else is told, or none.
fn first_wrong(alloc: Global, texts: &[Text]) -> Result<Option<usize>, Fail> {
    for k in 0..texts.len() {
        let row = texts[k];
        if !tells(
            alloc,
            "check program",
            row.text.as_bytes(),
            b"",
            row.note.as_bytes(),
        )? {
            return Ok(Some(k));
        }
    }
    Ok(None)
}

#[test]
fn texts_are_refused(rt: HostRuntime) -> Result<(), Fail> {
    assert_eq!(rt; first_wrong(rt.alloc(), TEXTS)?, None);
    Ok(())
}

// A text of a front, a part that stands so often, and an end.
fn repeated(
    alloc: Global,
    front: &str,
    part: &str,
    count: usize,
    end: &str,
) -> Result<String, Fail> {
    let mut text = String::from_str(alloc, front)?;
    for _ in 0..count {
        text.push_str(part)?;
    }
    text.push_str(end)?;
    Ok(text)
}

// A text of so many functions, whose lines have 25 bytes each.
fn functions(alloc: Global, count: u64) -> Result<String, Fail> {
    let mut text = String::new(alloc);
    for k in 0..count.min(1_001) {
        writeln!(text, "fun f{}(x : 1) : 1 = x", 1_000 + k)?;
    }
    text.push_str("main(x : 1) : 1 = x")?;
    Ok(text)
}

// Whether a thousand functions are accepted, and the name of one more is refused.
fn a_thousand_functions_do(alloc: Global) -> Result<bool, Fail> {
    let (most, many) = (functions(alloc, 1_000)?, functions(alloc, 1_001)?);
    let note = b"delta: program refused: Many at 25004\n";
    let fine = tells(alloc, "check program", most.as_bytes(), b"", b"")?;
    Ok(fine && tells(alloc, "check program", many.as_bytes(), b"", note)?)
}

// Whether these long texts are refused for what is too much in them.
fn limits_hold(alloc: Global) -> Result<bool, Fail> {
    let long = repeated(alloc, "", " ", 1_048_577, "")?;
    let marks = repeated(alloc, "main(x : Int) : Int = ", "(", 64, "x")?;
    let first = repeated(alloc, "type A = Int", "*", 40, "\nmain() : A")?;
    let tall = repeated(alloc, first.as_str(), "*", 24, " = nil")?;
    let wide = repeated(alloc, first.as_str(), "*", 23, " = nil")?;
    Ok(
        tells(
            alloc,
            "check program",
            long.as_bytes(),
            b"",
            b"delta: program refused: LongText at 1048576\n",
        )? && tells(
            alloc,
            "check program",
            marks.as_bytes(),
            b"",
            b"delta: program refused: Deep at 86\n",
        )? && tells(
            alloc,
            "check program",
            tall.as_bytes(),
            b"",
            b"delta: program refused: TooTall at 62\n",
        )? && tells(
            alloc,
            "run program",
            wide.as_bytes(),
            b"",
            b"delta: program refused: WideOutput at 53\n",
        )?,
    )
}

#[test]
fn limits_are_told(rt: HostRuntime) -> Result<(), Fail> {
    assert!(rt; limits_hold(rt.alloc())?);
    assert!(rt; a_thousand_functions_do(rt.alloc())?);
    assert!(rt;
        tells(
            rt.alloc(),
            "check program",
            b"m\xc3(",
            b"",
            b"delta: program refused: BadUtf8 at 1\n"
        )?
    );
    Ok(())
}

// A command line on a text and an input, and what is told.
#[derive(Clone, Copy)]
struct Input {
    words: &'static str,
    text: &'static str,
    input: &'static [u8],
    note: &'static str,
}

const FRAMES: Input = Input {
    words: "run program",
    text: ONE,
    input: b"",
    note: "",
};

const LINES: Input = Input {
    words: "text --frames",
    ..FRAMES
};

const INPUTS: &[Input] = &[
    Input {
        input: b"DEV3",
        note: "delta: input refused: BadMagic at 3\n",
        ..FRAMES
    },
    Input {
        input: b"DEV1\x20",
        note: "delta: input refused: LongPath at 4\n",
        ..FRAMES
    },
    Input {
        input: b"DEV1\x01\x07",
        note: "delta: input refused: BadStep at 5\n",
        ..FRAMES
    },
    Input {
        input: b"DEV1\x00\x20",
        note: "delta: input refused: BadLeaf at 5\n",
        ..FRAMES
    },
    Input {
        input: b"DEV1\x00\x11",
        note: "delta: input refused: Truncated at 6\n",
        ..FRAMES
    },
    Input {
        input: b"DEV1\x00\x11\x00\x00\x00\x00\x00\x00\x00\x04\x00\x11\x00\x00\x00\x00\x00\x00\x00\x04",
        note: "delta: input refused: Ended at 14\n",
        ..FRAMES
    },
    Input {
        input: b"DEV1\x01\x01\x11\x00\x00\x00\x00\x00\x00\x00\x04",
        note: "delta: input refused: WrongStep at 4\n",
        ..FRAMES
    },
    Input {
        input: b"DEV1\x00\x10",
        note: "delta: input refused: WrongLeaf at 4\n",
        ..FRAMES
    },
    Input {
        text: IN_TURN,
        input: b"DEV1\x00\x14",
        note: "delta: input refused: EarlyCut at 4\n",
        ..FRAMES
    },
    Input {
        input: b"cat\n",
        note: "delta: input refused: BadWord at 0\n",
        ..LINES
    },
    Input {
        input: b"int 9223372036854775808\n",
        note: "delta: input refused: BigNumber at 0\n",
        ..LINES
    },
    Input {
        input: b"L L L L L L L L L L L L L L L L L L L L L L L L L L L L L L L L one\n",
        note: "delta: input refused: LongPath at 0\n",
        ..LINES
    },
    Input {
        input: b"L\n",
        note: "delta: input refused: NoLeaf at 0\n",
        ..LINES
    },
    Input {
        input: b"one \n",
        note: "delta: input refused: Extra at 0\n",
        ..LINES
    },
    Input {
        words: "run program --budget 3",
        text: LOOP,
        note: "delta: stopped: Budget at 0\n",
        ..FRAMES
    },
    Input {
        text: NEST,
        note: "delta: stopped: Deep at 0\n",
        ..FRAMES
    },
    Input {
        words: "run",
        note: "delta: usage\n",
        ..FRAMES
    },
    Input {
        input: b"DEV1",
        note: "delta: input open\n",
        ..FRAMES
    },
    Input {
        words: "run gone",
        note: "delta: outside fault: file\n",
        ..FRAMES
    },
];

// The number of inputs before the first of which something else is told, or none.
fn first_other(alloc: Global, inputs: &[Input]) -> Result<Option<usize>, Fail> {
    for k in 0..inputs.len() {
        let row = inputs[k];
        if !tells(
            alloc,
            row.words,
            row.text.as_bytes(),
            row.input,
            row.note.as_bytes(),
        )? {
            return Ok(Some(k));
        }
    }
    Ok(None)
}

#[test]
fn inputs_are_refused(rt: HostRuntime) -> Result<(), Fail> {
    assert_eq!(rt; first_other(rt.alloc(), INPUTS)?, None);
    Ok(())
}

// Whether a line of so many bytes is refused as too long.
fn long_line_is_told(alloc: Global) -> Result<bool, Fail> {
    let line = repeated(alloc, "", "a", 257, "\n")?;
    tells(
        alloc,
        "text --frames",
        b"",
        line.as_bytes(),
        b"delta: input refused: LongLine at 0\n",
    )
}

#[test]
fn long_lines_are_refused(rt: HostRuntime) -> Result<(), Fail> {
    assert!(rt; long_line_is_told(rt.alloc())?);
    Ok(())
}
