//! Texts checked as derivations of programs, by name and line of what is at fault first.

use checked_program::elaborate_text;
use delta_derive::{DeriveFault, check};
use std::alloc::Global;
use std::test::Fail;

// What is said of a text as a derivation of a program: nothing, or the fault's name and its line.
type Said = (&'static str, u32);

const FINE: Said = ("", 0);

// The most bytes of a text.
const MOST: usize = 1_048_576;

// A program, a text, and what is said of it.
#[derive(Clone, Copy)]
struct Row {
    program: &'static str,
    text: &'static str,
    said: Said,
}

const IN_TURN: &str = "main(x : Int; y : Int) : Int . Int = (x; y)";

// Lines and steps over a pair in turn.
const LINES: &[Row] = &[
    // A pair in turn.
    Row {
        program: IN_TURN,
        text: "rule\nrule\nrule\n",
        said: FINE,
    },
    Row {
        program: IN_TURN,
        text: "loosen .\nrule\n",
        said: ("BadRule", 1),
    },
    // Lines that end early or aren't ended.
    Row {
        program: IN_TURN,
        text: "",
        said: ("Short", 0),
    },
    Row {
        program: IN_TURN,
        text: "rule\n",
        said: ("Short", 1),
    },
    Row {
        program: IN_TURN,
        text: "rule\nrule\nrule",
        said: ("BadLine", 2),
    },
    Row {
        program: IN_TURN,
        text: "rule\nrule\nrule\n\n",
        said: ("BadLine", 3),
    },
    Row {
        program: IN_TURN,
        text: "rule\nrule\nrule\nr",
        said: ("BadLine", 3),
    },
    // Lines that aren't due.
    Row {
        program: IN_TURN,
        text: "rule\nrule\nrule\nrule\n",
        said: ("Long", 3),
    },
    Row {
        program: IN_TURN,
        text: "rule\nrule\nrule\ndrop .\n",
        said: ("Long", 3),
    },
    Row {
        program: IN_TURN,
        text: "swap .\n",
        said: ("BadStep", 0),
    },
    Row {
        program: IN_TURN,
        text: "rule .\n",
        said: ("BadRule", 0),
    },
    // Lines that are none.
    Row {
        program: IN_TURN,
        text: "rule \n",
        said: ("BadLine", 0),
    },
    Row {
        program: IN_TURN,
        text: "rule lr.\n",
        said: ("BadLine", 0),
    },
    Row {
        program: IN_TURN,
        text: "rule ..\n",
        said: ("BadLine", 0),
    },
    Row {
        program: IN_TURN,
        text: "drop\n",
        said: ("BadLine", 0),
    },
    Row {
        program: IN_TURN,
        text: "Rule\n",
        said: ("BadLine", 0),
    },
    // Steps.
    Row {
        program: IN_TURN,
        text: "before .\nunit .\nrule\nrule\nrule\n",
        said: FINE,
    },
    Row {
        program: IN_TURN,
        text: "after l\nunit l\nrule\nrule\nrule\n",
        said: FINE,
    },
    Row {
        program: IN_TURN,
        text: "beside r\nswap r\nunit r\nrule\nrule\nrule\n",
        said: FINE,
    },
    Row {
        program: IN_TURN,
        text: "after .\nright .\nunit r\nrule\nrule\nrule\n",
        said: FINE,
    },
    Row {
        program: IN_TURN,
        text: "before .\nleft .\nunit l\nrule\nrule\nrule\n",
        said: FINE,
    },
    // Steps that aren't there.
    Row {
        program: IN_TURN,
        text: "before .\nright .\n",
        said: ("BadStep", 1),
    },
    Row {
        program: IN_TURN,
        text: "beside .\nleft .\n",
        said: ("BadStep", 1),
    },
    Row {
        program: IN_TURN,
        text: "drop ll\n",
        said: ("BadStep", 0),
    },
    Row {
        program: IN_TURN,
        text: "loosen .\nloosen .\n",
        said: ("BadStep", 1),
    },
    Row {
        program: IN_TURN,
        text: "unit .\n",
        said: ("BadStep", 0),
    },
    // A name that was dropped.
    Row {
        program: IN_TURN,
        text: "drop l\nrule\nrule\n",
        said: ("BadRule", 2),
    },
    Row {
        program: IN_TURN,
        text: "rule\ndrop .\nrule\n",
        said: ("BadRule", 2),
    },
];

// The forms of terms.
const FORMS: &[Row] = &[
    // A pair in turn of names that stand side by side.
    Row {
        program: "main(x : Int, y : Int) : Int . Int = (x; y)",
        text: "rule\nrule\nrule\n",
        said: ("BadRule", 0),
    },
    // A loosened pair.
    Row {
        program: "main(x : Int; y : Int) : Int || Int = (x, y)",
        text: "loosen .\nrule\nrule\nrule\n",
        said: FINE,
    },
    // A pair that isn't in order.
    Row {
        program: "main(x : Int, y : Int) : Int || Int = (y, x)",
        text: "loosen .\nrule\nrule\nrule\n",
        said: ("BadStep", 0),
    },
    // A let of a mark.
    Row {
        program: "main(x : 1; y : 1) : 1 . 1 = let z = (() : 1) in (x; z)",
        text: "rule r\nrule\nrule\nrule\nrule\n",
        said: ("BadRule", 0),
    },
    Row {
        program: "main(x : 1; y : 1) : 1 . 1 = let z = (() : 1) in (x; z)",
        text: "rule .\nrule\nrule\n",
        said: ("BadRule", 2),
    },
    // A pair taken apart.
    Row {
        program: "main(z : Int . Int) : Int . Int = let (u; v) = z in (u; v)",
        text: "rule\nrule\n",
        said: ("BadRule", 1),
    },
    Row {
        program: "main(z : Int . Int) : Int . Int = let (u; v) = z in (u; v)",
        text: "rule\ndrop l\nunit .\nrule\nrule\nrule\n",
        said: FINE,
    },
    // A star taken apart.
    Row {
        program: "main(x : Int*) : Int* = case x of { nil => nil | y :: ys => (y :: ys) }",
        text: "rule\nrule\nrule\n",
        said: ("BadRule", 2),
    },
    Row {
        program: "main(x : Int*) : Int* = case x of { nil => nil | y :: ys => (y :: ys) }",
        text: "rule\nrule\ndrop l\nunit .\nrule\nrule\nrule\n",
        said: FINE,
    },
    // Arguments side by side.
    Row {
        program: "fun f(u : Int; v : Int) : Int = v\nmain(x : Int, y : Int) : Int = f(x, y)",
        text: "rule\nrule\nrule\nrule\n",
        said: ("BadRule", 1),
    },
    // A mark passed behind another.
    Row {
        program: "fun f(u : 1; v : 1) : 1 = v\nmain(x : 1; y : 1) : 1 = f(x, ())",
        text: "rule\nrule\nrule\nrule\n",
        said: ("BadRule", 1),
    },
    // Each form.
    Row {
        program: "main(x : Int) : Int = wait x in {x}",
        text: "rule\nrule\n",
        said: FINE,
    },
    Row {
        program: "main(x : 1 + Int) : Int = case x of { inl u => {0} | inr v => v }",
        text: "rule\nrule\nrule\n",
        said: FINE,
    },
    Row {
        program: "main(x : Int) : 1 + Int = inr x",
        text: "rule\nrule\n",
        said: FINE,
    },
    Row {
        program: "fun f(u : Int; v : Int) : Int = v\nmain(x : Int; y : Int) : Int = f(x, y)",
        text: "rule\nrule\nrule\nrule\n",
        said: FINE,
    },
    Row {
        program: "fun f() : 1 = ()\nmain(x : 1; y : 1) : 1 = f()",
        text: "rule\nrule\n",
        said: FINE,
    },
];

// Programs of `examples`, each with its derivation there:
const EXAMPLES: &[Row] = &[
    // swap, twice and pair,
    Row {
        program: "main(x : Int, y : Int) : Int || Int = (y, x)",
        text: "rule\nrule\nrule\n",
        said: FINE,
    },
    Row {
        program: "main(x : Int) : Int || Int = (x, x)",
        text: "rule\nrule\nrule\n",
        said: FINE,
    },
    Row {
        program: "main(x : Int; y : Int) : Int . Int = (x; y)",
        text: "rule\nrule\nrule\n",
        said: FINE,
    },
    // double, sums and total,
    Row {
        program: "fun twice(xs : Int*) : Int* =\n  case xs of { nil => nil | y :: ys => wait y in ({y * 2} :: twice(ys)) }\nmain(xs : Int*) : Int* = twice(xs)",
        text: "rule\nrule\nrule\ndrop l\nunit .\nrule\nrule\nrule\nrule\nrule\nrule\n",
        said: FINE,
    },
    Row {
        program: "fun sums{n : Int}(xs : Int*) : Int* =\n  case xs of { nil => nil | y :: ys => wait y in ({n + y} :: sums{n + y}(ys)) }\nmain(xs : Int*) : Int* = sums{0}(xs)",
        text: "rule\nrule\nrule\ndrop l\nunit .\nrule\nrule\nrule\nrule\nrule\nrule\n",
        said: FINE,
    },
    Row {
        program: "main(xs : Int*) : Int = wait xs in {fold xs from 0 with a, y . a + y}",
        text: "rule\nrule\n",
        said: FINE,
    },
    // watch,
    Row {
        program: "fun watch(xs : Int*) : Int* || 1* =\n  case xs of {\n    nil => (nil, nil)\n  | y :: ys => wait y in\n      let (good, alarms) = watch(ys) in\n      ({y} :: good, if 100 < y then (() :: alarms) else alarms)\n  }\nmain(xs : Int*) : Int* || 1* = watch(xs)",
        text: "rule\nrule\nrule\nrule\nrule\nrule .\nrule\nrule\nrule\nrule\nbefore .\nrule\nrule\nrule\nrule .\nrule\nrule\nbefore .\nrule\nrule\nrule\nrule\nrule\nrule\n",
        said: FINE,
    },
    // merge,
    Row {
        program: "fun merge(xs : Int*, ys : Int*) : Int* =\n  case xs of {\n    nil => ys\n  | x :: xt => wait x in\n      case ys of {\n        nil => {x} :: xt\n      | y :: yt => wait y in\n          if x < y then {x} :: merge(xt, {y} :: yt) else {y} :: merge({x} :: xt, yt)\n      }\n  }\nmain(xs : Int*, ys : Int*) : Int* = merge(xs, ys)",
        text: "rule\nrule\nrule\nrule\nbefore .\nrule\nrule\nrule\nrule\nrule .\nrule\nrule\nbefore .\nrule\nrule\nright .\nrule\nrule\nbefore .\nrule\nrule\nrule\nbefore .\nrule\nrule\nright .\nrule\nbefore .\nrule\nrule\nrule\nrule\nrule\nrule\nrule\n",
        said: FINE,
    },
    // join,
    Row {
        program: "type Row = Int . Int\nfun join(xs : Row*, ys : Row*) : (Int . Int . Int)* =\n  case xs of {\n    nil => nil\n  | x :: xt => wait x in\n      case ys of {\n        nil => nil\n      | y :: yt => wait y in\n          if fst x = fst y then {(fst x, (snd x, snd y))} :: join(xt, yt)\n          else if fst x < fst y then join(xt, {y} :: yt)\n          else join({x} :: xt, yt)\n      }\n  }\nmain(xs : Row*, ys : Row*) : (Int . Int . Int)* = join(xs, ys)",
        text: "rule\nrule\nrule\nrule\nrule\nrule\nrule .\nrule\nrule\nbefore .\nrule\nrule\nright .\nrule\nrule\nrule\nrule .\nrule\nrule\nright .\nright .\nrule\nrule\nbefore .\nrule\nrule\nrule\nright .\nright .\nrule\nbefore .\nrule\nrule\nrule\nrule\nrule\nrule\nrule\n",
        said: FINE,
    },
    // and sessions.
    Row {
        program: "fun session(xs : (Int + 1)*) : Int* . (Int + 1)* =\n  case xs of {\n    nil => (nil; nil)\n  | x :: xt => case x of {\n      inl n => let (ns; rest) = session(xt) in (n :: ns; rest)\n    | inr mark => (nil; xt)\n    }\n  }\nfun sessions(xs : (Int + 1)*) : Int** =\n  case xs of {\n    nil => nil\n  | x :: xt => let (ns; rest) = session(x :: xt) in ns :: sessions(rest)\n  }\nmain(xs : (Int + 1)*) : Int** = sessions(xs)",
        text: "rule\nbefore .\nrule\nrule\nrule\nrule\nrule rr\nrule\nrule\nrule\ndrop l\nunit .\ndrop rl\nunit r\ndrop rl\nunit r\nleft .\nrule\nrule\nrule\nrule\nrule\nbefore .\nrule\nrule\nrule\nrule\nrule\nrule r\nrule\nrule\nrule\nrule\nrule\ndrop l\nunit .\ndrop l\nunit .\ndrop l\nunit .\nrule\nrule\nrule\nrule\nrule\nrule\n",
        said: FINE,
    },
];

fn told(found: Result<(), DeriveFault>) -> Said {
    match found {
        Ok(()) => FINE,
        Err(DeriveFault::Memory) => ("Memory", 0),
        Err(DeriveFault::BadLine(line)) => ("BadLine", line),
        Err(DeriveFault::BadStep(line)) => ("BadStep", line),
        Err(DeriveFault::BadRule(line)) => ("BadRule", line),
        Err(DeriveFault::Short(line)) => ("Short", line),
        Err(DeriveFault::Long(line)) => ("Long", line),
    }
}

// Whether that is said of the row's text.
fn is_told(alloc: Global, row: &Row) -> Result<bool, Fail> {
    let text = row.text.as_bytes();
    if text.len() > MOST {
        return Ok(false);
    }
    let core = elaborate_text(alloc, row.program.as_bytes())?;
    Ok(told(check(alloc, core, text)) == row.said)
}

// Whether it is so of each row.
fn are_told(alloc: Global, rows: &[Row]) -> Result<bool, Fail> {
    for row in rows {
        if !is_told(alloc, row)? {
            return Ok(false);
        }
    }
    Ok(true)
}

#[test]
fn lines_and_steps(rt: HostRuntime) -> Result<(), Fail> {
    assert!(rt; are_told(rt.alloc(), LINES)?);
    Ok(())
}

#[test]
fn forms(rt: HostRuntime) -> Result<(), Fail> {
    assert!(rt; are_told(rt.alloc(), FORMS)?);
    Ok(())
}

#[test]
fn examples(rt: HostRuntime) -> Result<(), Fail> {
    assert!(rt; are_told(rt.alloc(), EXAMPLES)?);
    Ok(())
}
