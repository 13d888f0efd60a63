//! The programs of the tour in README, each on its feed: the lines become frames, the program runs on these, and its
//! frames become lines again. `tools/tour` holds the texts here to the files of `examples/` and to README.

use crate::outside::is_done;
use std::alloc::Global;
use std::test::Fail;

/// A program, the lines of its feed, and those of its answer.
struct Example {
    text: &'static str,
    feed: &'static str,
    answer: &'static str,
}

const SWAP: Example = Example {
    text: "// Two numbers side by side, each put out on the other side.
main(x : Int, y : Int) : Int || Int = (y, x)
",
    feed: "L int 1\nR int 2\n",
    answer: "R int 1\nL int 2\n",
};

const TWICE: Example = Example {
    text: "// A number, put out on both sides.
main(x : Int) : Int || Int = (x, x)
",
    feed: "int 7\n",
    answer: "L int 7\nR int 7\n",
};

const PAIR: Example = Example {
    text: "// One number after another.
main(x : Int; y : Int) : Int . Int = (x; y)
",
    feed: "F int 1\ncut\nint 2\n",
    answer: "F int 1\ncut\nint 2\n",
};

const DOUBLE: Example = Example {
    text: "// Each number of a feed, doubled.
fun twice(xs : Int*) : Int* =
  case xs of { nil => nil | y :: ys => wait y in ({y * 2} :: twice(ys)) }
main(xs : Int*) : Int* = twice(xs)
",
    feed: "item\nF int 3\ncut\nitem\nF int 5\ncut\nend\n",
    answer: "item\nF int 6\ncut\nitem\nF int 10\ncut\nend\n",
};

const SUMS: Example = Example {
    text: "// The sum of the numbers so far, at each number.
fun sums{n : Int}(xs : Int*) : Int* =
  case xs of { nil => nil | y :: ys => wait y in ({n + y} :: sums{n + y}(ys)) }
main(xs : Int*) : Int* = sums{0}(xs)
",
    feed: "item\nF int 2\ncut\nitem\nF int 3\ncut\nend\n",
    answer: "item\nF int 2\ncut\nitem\nF int 5\ncut\nend\n",
};

const TOTAL: Example = Example {
    text: "// The sum of a whole feed, once it has ended.
main(xs : Int*) : Int = wait xs in {fold xs from 0 with a, y . a + y}
",
    feed: "item\nF int 2\ncut\nitem\nF int 3\ncut\nend\n",
    answer: "int 5\n",
};

const WATCH: Example = Example {
    text: "// Passes each reading on, and beside it an alarm for each that is above 100.
fun watch(xs : Int*) : Int* || 1* =
  case xs of {
    nil => (nil, nil)
  | y :: ys => wait y in
      let (good, alarms) = watch(ys) in
      ({y} :: good, if 100 < y then (() :: alarms) else alarms)
  }
main(xs : Int*) : Int* || 1* = watch(xs)
",
    feed: "item\nF int 7\ncut\nitem\nF int 200\ncut\nend\n",
    answer: "L item\nL F int 7\nL cut\nL item\nL F int 200\nL cut\nR item\nR F one\nR cut\nL end\nR end\n",
};

const MERGE: Example = Example {
    text: "// Two feeds that rise, merged into one that rises.
fun merge(xs : Int*, ys : Int*) : Int* =
  case xs of {
    nil => ys
  | x :: xt => wait x in
      case ys of {
        nil => {x} :: xt
      | y :: yt => wait y in
          if x < y then {x} :: merge(xt, {y} :: yt) else {y} :: merge({x} :: xt, yt)
      }
  }
main(xs : Int*, ys : Int*) : Int* = merge(xs, ys)
",
    feed: "L item\nL F int 1\nR item\nR F int 2\nL cut\nL item\nL F int 4\nR cut\nR item\nR F int 3\nL cut\nL end\nR cut\nR end\n",
    answer: "item\nF int 1\ncut\nitem\nF int 2\ncut\nitem\nF int 3\ncut\nitem\nF int 4\ncut\nend\n",
};

const JOIN: Example = Example {
    text: "// Two feeds of keys with values, whose keys rise, joined where the keys are equal.
type Row = Int . Int
fun join(xs : Row*, ys : Row*) : (Int . Int . Int)* =
  case xs of {
    nil => nil
  | x :: xt => wait x in
      case ys of {
        nil => nil
      | y :: yt => wait y in
          if fst x = fst y then {(fst x, (snd x, snd y))} :: join(xt, yt)
          else if fst x < fst y then join(xt, {y} :: yt)
          else join({x} :: xt, yt)
      }
  }
main(xs : Row*, ys : Row*) : (Int . Int . Int)* = join(xs, ys)
",
    feed: "R item\nR F F int 1\nR F cut\nR F int 10\nR cut\nR item\nR F F int 3\nR F cut\nR F int 30\nL item\nL F F int 2\nL F cut\nL F int 200\nL cut\nL item\nL F F int 3\nL F cut\nL F int 300\nR cut\nR end\nL cut\nL end\n",
    answer: "item\nF F int 3\nF cut\nF F int 300\nF cut\nF int 30\ncut\nend\n",
};

const SESSIONS: Example = Example {
    text: "// A feed of numbers and marks, cut into a feed of sessions at each mark.
fun session(xs : (Int + 1)*) : Int* . (Int + 1)* =
  case xs of {
    nil => (nil; nil)
  | x :: xt => case x of {
      inl n => let (ns; rest) = session(xt) in (n :: ns; rest)
    | inr mark => (nil; xt)
    }
  }
fun sessions(xs : (Int + 1)*) : Int** =
  case xs of {
    nil => nil
  | x :: xt => let (ns; rest) = session(x :: xt) in ns :: sessions(rest)
  }
main(xs : (Int + 1)*) : Int** = sessions(xs)
",
    feed: "item\nF inl\nF int 5\ncut\nitem\nF inl\nF int 6\ncut\nitem\nF inr\nF one\ncut\nitem\nF inl\nF int 7\ncut\nend\n",
    answer: "item\nF item\nF F int 5\nF cut\nF item\nF F int 6\nF cut\nF end\ncut\nitem\nF item\nF F int 7\nF cut\nF end\ncut\nend\n",
};

const TOUR: &[Example] = &[
    SWAP, TWICE, PAIR, DOUBLE, SUMS, TOTAL, WATCH, MERGE, JOIN, SESSIONS,
];

// Whether the frames of the feed are answered by the frames of the answer, with each of the three commands done.
fn is_answered(alloc: Global, example: &Example) -> Result<bool, Fail> {
    let text = example.text.as_bytes();
    let mut frames = Vec::new(alloc);
    let mut output = Vec::new(alloc);
    let mut lines = Vec::new(alloc);
    let framed = is_done(
        alloc,
        "text --frames",
        text,
        example.feed.as_bytes(),
        &mut frames,
    )?;
    let ran = is_done(alloc, "run program", text, &frames, &mut output)?;
    let told = is_done(alloc, "text", text, &output, &mut lines)?;
    Ok(framed && ran && told && lines.as_slice() == example.answer.as_bytes())
}

// The number of examples before the first that is answered otherwise, or none.
fn first_wrong(alloc: Global, examples: &[Example]) -> Result<Option<usize>, Fail> {
    for k in 0..examples.len() {
        if !is_answered(alloc, &examples[k])? {
            return Ok(Some(k));
        }
    }
    Ok(None)
}

#[test]
fn examples_are_answered(rt: HostRuntime) -> Result<(), Fail> {
    assert_eq!(rt; first_wrong(rt.alloc(), TOUR)?, None);
    Ok(())
}
