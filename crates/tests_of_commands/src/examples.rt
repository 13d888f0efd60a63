//! Programs evaluated on inputs and their fronts. Inputs and outputs are event lines; each output was
//! worked out by hand.

use crate::outside::{frames_of, run};
use std::alloc::Global;
use std::test::Fail;

const SWAP: &str = "main(x : Int, y : Int) : Int || Int = (y, x)";

const SIDES: &str = "main(z : (Int || Int)) : Int || Int = let (a, b) = z in (b, a)";

const TWICE: &str = "main(x : Int) : Int || Int = (x, x)";

const IN_TURN: &str = "main(x : Int; y : Int) : Int . Int = (x; y)";

const DOUBLE: &str = "// Each number of a feed, doubled.
fun twice(xs : Int*) : Int* =
  case xs of { nil => nil | y :: ys => wait y in ({y * 2} :: twice(ys)) }
main(xs : Int*) : Int* = twice(xs)";

const SUMS: &str = "// The sum of the numbers so far, at each number.
fun sums{n : Int}(xs : Int*) : Int* =
  case xs of { nil => nil | y :: ys => wait y in ({n + y} :: sums{n + y}(ys)) }
main(xs : Int*) : Int* = sums{0}(xs)";

const ALARM: &str = "// Passes each reading on, and beside it an alarm for each that is above 100.
fun watch(xs : Int*) : Int* || 1* =
  case xs of {
    nil => (nil, nil)
  | y :: ys => wait y in
      let (good, alarms) = watch(ys) in
      ({y} :: good, if 100 < y then (() :: alarms) else alarms)
  }
main(xs : Int*) : Int* || 1* = watch(xs)";

const CHOICE: &str = "main(z : (1 + Int), w : Int) : Int = case z of { inl a => w | inr b => b }";

const TOTAL: &str = "main(xs : Int*) : Int = wait xs in {fold xs from 0 with a, y . a + y}";

const COPY: &str =
    "fun copy(xs : Int*) : Int* = case xs of { nil => nil | y :: ys => y :: copy(ys) }
main(xs : Int*) : Int* = copy(xs)";

// Whether these frames have these lines.
fn have_lines(alloc: Global, frames: &[u8], lines: &str) -> Result<bool, Fail> {
    let (_, found) = run(alloc, "text", b"", frames)?;
    Ok(found.as_slice() == lines.as_bytes())
}

// Whether a program is evaluated on the frames of lines to the frames of such lines.
fn gives(alloc: Global, text: &str, input: &str, output: &str) -> Result<bool, Fail> {
    let frames = frames_of(alloc, input)?;
    let (status, evaluated) = run(alloc, "eval program", text.as_bytes(), &frames)?;
    Ok((status == 0 || status == 6) && have_lines(alloc, &evaluated, output)?)
}

// Whether each program gives the lines behind it on the lines between.
fn give(alloc: Global, rows: &[(&str, &str, &str)]) -> Result<bool, Fail> {
    let mut all = true;
    for (text, input, output) in rows {
        all = all && gives(alloc, text, input, output)?;
    }
    Ok(all)
}

// Whether a text is accepted.
fn is_accepted(alloc: Global, text: &str) -> Result<bool, Fail> {
    let (status, _) = run(alloc, "check program", text.as_bytes(), b"")?;
    Ok(status == 0)
}

const PROGRAMS: &[&str] = &[
    SWAP, SIDES, TWICE, IN_TURN, DOUBLE, SUMS, ALARM, CHOICE, TOTAL, COPY,
];

#[test]
fn examples_are_accepted(rt: HostRuntime) -> Result<(), Fail> {
    for text in PROGRAMS {
        assert!(rt; is_accepted(rt.alloc(), text)?);
    }
    Ok(())
}

const SIDE_BY_SIDE: &[(&str, &str, &str)] = &[
    (SWAP, "R int 2\n", "L int 2\n"),
    (SWAP, "R int 2\nL int 1\n", "L int 2\nR int 1\n"),
    (SWAP, "L int 1\nR int 2\n", "L int 2\nR int 1\n"),
    (SIDES, "L int 1\nR int 2\n", "L int 2\nR int 1\n"),
    (TWICE, "int 7\n", "L int 7\nR int 7\n"),
    (IN_TURN, "F int 1\n", "F int 1\ncut\n"),
    (IN_TURN, "F int 1\ncut\nint 2\n", "F int 1\ncut\nint 2\n"),
    (CHOICE, "R int 5\n", ""),
    (CHOICE, "R int 5\nL inl\n", "int 5\n"),
    (CHOICE, "L inr\nL int 6\n", "int 6\n"),
];

#[test]
fn order_of_sides_is_free(rt: HostRuntime) -> Result<(), Fail> {
    assert!(rt; give(rt.alloc(), SIDE_BY_SIDE)?);
    Ok(())
}

const FEEDS: &[(&str, &str, &str)] = &[
    (DOUBLE, "", ""),
    (DOUBLE, "item\n", ""),
    (DOUBLE, "item\nF int 3\n", "item\nF int 6\ncut\n"),
    (DOUBLE, "item\nF int 3\ncut\n", "item\nF int 6\ncut\n"),
    (
        DOUBLE,
        "item\nF int 3\ncut\nend\n",
        "item\nF int 6\ncut\nend\n",
    ),
    (COPY, "item\n", "item\n"),
    (
        COPY,
        "item\nF int 7\ncut\nend\n",
        "item\nF int 7\ncut\nend\n",
    ),
    (
        SUMS,
        "item\nF int 2\ncut\nitem\nF int 3\ncut\nend\n",
        "item\nF int 2\ncut\nitem\nF int 5\ncut\nend\n",
    ),
    (
        TOTAL,
        "item\nF int 9223372036854775807\ncut\nitem\nF int 1\ncut\n",
        "",
    ),
    (
        TOTAL,
        "item\nF int 9223372036854775807\ncut\nitem\nF int 1\ncut\nend\n",
        "int 9223372036854775807\n",
    ),
];

#[test]
fn feeds_are_answered_as_far_as_they_came(rt: HostRuntime) -> Result<(), Fail> {
    assert!(rt; give(rt.alloc(), FEEDS)?);
    Ok(())
}

#[test]
fn alarm_stands_beside_the_readings(rt: HostRuntime) -> Result<(), Fail> {
    let input = "item\nF int 7\ncut\nitem\nF int 200\ncut\nend\n";
    let output =
        "L item\nL F int 7\nL cut\nL item\nL F int 200\nL cut\nL end\nR item\nR F one\nR cut\nR end\n";
    assert!(rt; gives(rt.alloc(), ALARM, input, output)?);
    Ok(())
}

// Whether one number can't be doubled with one call, and can with two.
fn is_spent(alloc: Global) -> Result<bool, Fail> {
    let frames = frames_of(alloc, "item\nF int 3\ncut\nend\n")?;
    let (spent, bytes) = run(alloc, "eval --budget 1 program", DOUBLE.as_bytes(), &frames)?;
    let (status, _) = run(alloc, "eval --budget 2 program", DOUBLE.as_bytes(), &frames)?;
    Ok(spent == 5 && bytes.is_empty() && status == 0)
}

#[test]
fn budget_is_for_the_whole(rt: HostRuntime) -> Result<(), Fail> {
    assert!(rt; is_spent(rt.alloc())?);
    Ok(())
}
