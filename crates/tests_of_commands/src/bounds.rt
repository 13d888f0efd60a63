//! How many events programs can ever hold back, told by the command `bound`.

use crate::outside::{Row, answers, first_wrong, leaves_front};
use std::alloc::Global;
use std::test::Fail;

const DOUBLE: &str =
    "fun twice(xs : Int*) : Int* = case xs of { nil => nil | y :: ys => wait y in ({y * 2} :: twice(ys)) }
main(xs : Int*) : Int* = twice(xs)
";

const SIDES: &str =
    "main(z : 1 + 1, y : Int) : Int + Int = case z of { inl a => inl y | inr b => inr y }";

const IN_TURN: &str =
    "main(z : 1 + 1; y : Int) : Int + Int = case z of { inl a => inl y | inr b => inr y }";

const TOTAL: &str = "main(xs : Int*) : Int = wait xs in {fold xs from 0 with a, y . a + y}";

const GROWING: &str =
    "fun g(z : 1 + 1, y : Int) : Int = let a = (case z of { inl u => y | inr u => y } : Int) in g(z, a)
main(z : 1 + 1, y : Int) : Int = g(z, y)
";

const SUMS: &str = "fun sums{n : Int}(xs : Int*) : Int* =
  case xs of { nil => nil | y :: ys => wait y in ({n + y} :: sums{n + y}(ys)) }
main(xs : Int*) : Int* = sums{0}(xs)";

const ALARM: &str = "fun watch(xs : Int*) : Int* || 1* =
  case xs of {
    nil => (nil, nil)
  | y :: ys => wait y in
      let (good, alarms) = watch(ys) in
      ({y} :: good, if 100 < y then (() :: alarms) else alarms)
  }
main(xs : Int*) : Int* || 1* = watch(xs)";

const BOUNDED: Row = Row {
    words: "bound program",
    text: DOUBLE,
    first: "",
    second: "",
    output: "bound 1\n",
    note: "",
    status: 0,
};

const UNBOUNDED: Row = Row {
    output: "",
    note: "delta: no bound: Unbounded at 24\n",
    status: 12,
    ..BOUNDED
};

// Programs, and how many events each can hold back.
const BOUNDS: &[(&str, &str)] = &[
    (DOUBLE, "bound 1\n"),
    (SIDES, "bound 1\n"),
    (IN_TURN, "bound 0\n"),
    ("main(x : Int, y : Int) : Int = wait x in y", "bound 2\n"),
    ("main(x : Int, y : Int) : Int || Int = (y, x)", "bound 0\n"),
    (
        "main(z : (Int || Int)) : Int || Int = let (a, b) = z in (b, a)",
        "bound 0\n",
    ),
    (
        "main(z : 1 + 1, y : Int) : Int = case z of { inl a => y | inr b => {0} }",
        "bound 1\n",
    ),
    (SUMS, "bound 1\n"),
    (ALARM, "bound 1\n"),
];

#[test]
fn bounds_are_told(rt: HostRuntime) -> Result<(), Fail> {
    for (text, output) in BOUNDS {
        let row = Row {
            text,
            output,
            ..BOUNDED
        };
        assert!(rt; answers(rt.alloc(), &row)?, "{text}");
    }
    Ok(())
}

const USAGE: Row = Row {
    words: "bound",
    note: "delta: usage\n",
    status: 2,
    ..UNBOUNDED
};

const OTHER_ENDS: &[Row] = &[
    Row {
        words: "bound -- program",
        ..BOUNDED
    },
    Row {
        text: TOTAL,
        ..UNBOUNDED
    },
    Row {
        text: GROWING,
        note: "delta: no bound: Cycle at 34\n",
        ..UNBOUNDED
    },
    Row {
        text: "main(x : Int) : Int = y",
        note: "delta: program refused: Unbound at 22\n",
        status: 3,
        ..UNBOUNDED
    },
    USAGE,
    Row {
        words: "bound program program",
        ..USAGE
    },
    Row {
        words: "bound program --budget 5",
        ..USAGE
    },
    Row {
        words: "bound program --v2",
        ..USAGE
    },
];

#[test]
fn programs_without_a_bound_are_refused(rt: HostRuntime) -> Result<(), Fail> {
    assert_eq!(rt; first_wrong(rt.alloc(), OTHER_ENDS)?, None);
    Ok(())
}

// A function that calls the one before it ten times, of which each call holds what that holds.
fn ten_calls(alloc: Global, number: u32) -> Result<String, Fail> {
    let before = number.saturating_sub(1);
    let mut text = format!(in alloc; "fun f{number}(z : 1 + 1, y : Int) : Int = ")?;
    for k in 0..9 {
        let call = format!(in alloc; "let a{k} = f{before}(z, y) in ")?;
        text.push_str(&call)?;
    }
    let last = format!(in alloc; "f{before}(z, y)\n")?;
    text.push_str(&last)?;
    Ok(text)
}

// A program that holds ten times as much for each of its functions but one.
fn large_program(alloc: Global, functions: u32) -> Result<String, Fail> {
    let mut text = String::from_str(
        alloc,
        "fun f0(z : 1 + 1, y : Int) : Int = case z of { inl u => y | inr u => y }\n",
    )?;
    for number in 1..functions {
        let function = ten_calls(alloc, number)?;
        text.push_str(&function)?;
    }
    let last = functions.saturating_sub(1);
    let main = format!(in alloc; "main(z : 1 + 1, y : Int) : Int = f{last}(z, y)\n")?;
    text.push_str(&main)?;
    Ok(text)
}

// Whether a program of so many functions is answered so.
fn is_large(alloc: Global, functions: u32, row: &Row) -> Result<bool, Fail> {
    let text = large_program(alloc, functions)?;
    let large = Row {
        text: text.as_str(),
        ..*row
    };
    let answered = answers(alloc, &large);
    drop(text);
    answered
}

const BELOW: Row = Row {
    output: "bound 100000000000000000\n",
    ..BOUNDED
};

const ABOVE: Row = Row {
    note: "delta: no bound: Large at 0\n",
    ..UNBOUNDED
};

#[test]
fn bound_stays_below_its_limit(rt: HostRuntime) -> Result<(), Fail> {
    assert!(rt; is_large(rt.alloc(), 18, &BELOW)?);
    assert!(rt; is_large(rt.alloc(), 19, &ABOVE)?);
    Ok(())
}

#[test]
fn failed_write_tells_nothing(rt: HostRuntime) -> Result<(), Fail> {
    assert!(rt; leaves_front(rt.alloc(), &BOUNDED, 0, "")?);
    Ok(())
}
