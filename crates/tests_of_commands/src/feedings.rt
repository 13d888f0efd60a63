//! Tables fed to programs by the command `feed`, on the compiled machine and on the plain one. Each text that must be
//! written was worked out by hand.

use crate::outside::{Row, answers, answers_on, first_wrong, leaves_front};
use delta_code::Coded;
use std::alloc::Global;
use std::test::Fail;

const ADD: &str =
    "fun add(xs : Int*, ys : Int*) : Int* = case xs of { nil => nil | x :: xt => case ys of { nil => nil | y :: yt => wait x in wait y in {x + y} :: add(xt, yt) } }
main(xs : Int*, ys : Int*) : Int* = add(xs, ys)";

const ONE: &str = "main(x : Int) : Int = x";

const COPY: &str = "main(xs : Int*) : Int* = xs";

const MIDDLE: &str = "main(xs : Int*, ys : Int*, zs : Int*) : Int* = ys";

// Makes as many calls and one more as the numbers of the first table come to, once that has ended.
const DOWN: &str = "fun f{n : Int}(u : 1) : Int* = if n < 1 then nil else f{n - 1}(u)
main(xs : Int*, ys : Int*) : Int* = wait xs in f{fold xs from 0 with a, x . a + x}(())";

// One level more than there may be, before any event.
const TOO_DEEP: &str =
    "fun nest{n : Int}(xs : Int*) : Int* = if n < 1 then xs else let ys = nest{n - 1}(xs) in ys
main(xs : Int*) : Int* = nest{1001}(xs)";

// The program of `examples/tables/bill.delta`, with its tables and the table that it gives. `tools/tour` holds these
// texts and those of the next to the files and to README.
const BILL: &str =
    "// Two tables of the same articles in the same order, how many of each and what one costs: a bill of both, with the
// number of the article, how many, what one costs, and what they cost together.
type Row = Int . Int
fun bill(counts : Row*, prices : Row*) : (Int . Int . Int . Int)* =
  case counts of {
    nil => nil
  | count :: cs => case prices of {
      nil => nil
    | price :: ps => wait count in wait price in
        {(fst count, (snd count, (snd price, snd count * snd price)))} :: bill(cs, ps)
    }
  }
main(counts : Row*, prices : Row*) : (Int . Int . Int . Int)* = bill(counts, prices)
";

const COUNTS: &str = "101,2\n102,1\n107,12\n";

const PRICES: &str = "101,1999\n102,49900\n107,85\n";

const BILLED: &str = "101,2,1999,3998\n102,1,49900,49900\n107,12,85,1020\n";

// The program of `examples/tables/balance.delta`.
const BALANCE: &str =
    "// The movements of an account: each with the balance behind it, and with 1 beside that where it is below zero.
fun balance{sum : Int}(moves : (Int . Int)*) : (Int . Int . Int . Int)* =
  case moves of {
    nil => nil
  | move :: rest => wait move in
      if sum + snd move < 0
      then {(fst move, (snd move, (sum + snd move, 1)))} :: balance{sum + snd move}(rest)
      else {(fst move, (snd move, (sum + snd move, 0)))} :: balance{sum + snd move}(rest)
  }
main(moves : (Int . Int)*) : (Int . Int . Int . Int)* = balance{0}(moves)
";

const MOVES: &str = "1,50000\n3,-42000\n4,-9500\n9,20000\n";

const BALANCED: &str = "1,50000,50000,0\n3,-42000,8000,0\n4,-9500,-1500,1\n9,20000,18500,0\n";

const ADDED: Row = Row {
    words: "feed program 01 a b",
    text: ADD,
    first: "1\n2\n",
    second: "10\n20\n",
    output: "11\n22\n",
    note: "",
    status: 0,
};

const FED: &[Row] = &[
    ADDED,
    Row {
        words: "feed program 0 a b",
        ..ADDED
    },
    Row {
        words: "feed program 1 a b",
        ..ADDED
    },
    Row {
        words: "feed program 0011 a b",
        ..ADDED
    },
    Row {
        words: "feed --budget 1 program 0110 a -- b",
        ..ADDED
    },
    Row {
        words: "feed program 1 a b --budget=1000000",
        ..ADDED
    },
    // The first table has a row more; one without rows.
    Row {
        first: "1\n2\n3\n",
        ..ADDED
    },
    Row {
        second: "",
        output: "",
        ..ADDED
    },
    // Numbers in quotes, other line ends, an empty line, none behind the last row, zeros in front, and a sum
    // that stops at the least number.
    Row {
        first: "\"1\"\r\n\r\n-0012",
        second: "10\n-9223372036854775808",
        output: "11\n-9223372036854775808\n",
        ..ADDED
    },
    Row {
        words: "feed program 0 a",
        text: COPY,
        first: "7\n-7\n9223372036854775807\n",
        output: "7\n-7\n9223372036854775807\n",
        ..ADDED
    },
    Row {
        words: "feed program 210 a b c",
        text: MIDDLE,
        output: "10\n20\n",
        ..ADDED
    },
];

const EXAMPLES: &[Row] = &[
    Row {
        text: BILL,
        first: COUNTS,
        second: PRICES,
        output: BILLED,
        ..ADDED
    },
    Row {
        words: "feed program 0 a",
        text: BALANCE,
        first: MOVES,
        output: BALANCED,
        ..ADDED
    },
];

const REFUSED: Row = Row {
    output: "",
    note: "delta: table refused: Shape in 0 at 0\n",
    status: 13,
    ..ADDED
};

const UNTAKEN: &[Row] = &[
    Row {
        words: "feed program 0 a",
        text: ONE,
        ..REFUSED
    },
    Row {
        words: "feed program 0 a",
        ..REFUSED
    },
    Row {
        words: "feed program 0 a b c",
        ..REFUSED
    },
    Row {
        words: "feed program 0 a",
        text: "main(xs : Int*) : Int = wait xs in {0}",
        ..REFUSED
    },
    Row {
        words: "feed program 0 a",
        text: "main(xs : (Int || Int)*) : Int* = nil",
        ..REFUSED
    },
    // No file is read where the types aren't those of tables.
    Row {
        words: "feed program 0 gone",
        text: ONE,
        ..REFUSED
    },
    Row {
        first: "1\nx\n",
        note: "delta: table refused: BadNumber in 0 at 1\n",
        ..REFUSED
    },
    Row {
        second: "1,2\n",
        note: "delta: table refused: Ragged in 1 at 0\n",
        ..REFUSED
    },
    // The lowest table is told, whatever is wrong with a later one; in a row its length before its fields.
    Row {
        first: "1\n2\n9223372036854775808\n",
        second: "x,y\n",
        note: "delta: table refused: BadNumber in 0 at 2\n",
        ..REFUSED
    },
    Row {
        words: "feed program 0 a gone",
        first: "+1\n",
        note: "delta: table refused: BadNumber in 0 at 0\n",
        ..REFUSED
    },
    Row {
        text: BILL,
        first: COUNTS,
        second: "101,1999\n102,x,85\n",
        note: "delta: table refused: Ragged in 1 at 1\n",
        ..REFUSED
    },
    Row {
        text: BILL,
        first: COUNTS,
        second: "101,1999\n102,\n",
        note: "delta: table refused: BadNumber in 1 at 1\n",
        ..REFUSED
    },
    Row {
        text: "main(xs : Int*, ys : Int*) : Int* = zs",
        first: "x\n",
        note: "delta: program refused: Unbound at 36\n",
        status: 3,
        ..REFUSED
    },
    Row {
        words: "feed program 0 a gone",
        note: "delta: outside fault: file\n",
        status: 7,
        ..REFUSED
    },
];

// The words of lines, each of which is no command line.
const NO_LINES: &str = "feed
feed program
feed program 0
feed program a b
feed program 2 a b
feed program 012 a b
feed program 0 a b --budget 1000001
feed program 0 a b --v2
feed program 0 a --budget 5 b
feed program -- 0
feed program 0 a a a a a a a a a
feed program 00000000000000000000000000000000000000000000000000000000000000000 a";

#[test]
fn words_that_feed_nothing(rt: HostRuntime) -> Result<(), Fail> {
    for line in NO_LINES.split('\n') {
        let row = Row {
            words: line,
            note: "delta: usage\n",
            status: 2,
            ..REFUSED
        };
        assert!(rt; answers(rt.alloc(), &row)?, "{line}");
    }
    Ok(())
}

const STOPPED: Row = Row {
    words: "feed program 0 a b --budget 1",
    text: DOWN,
    first: "2\n",
    second: "1\n",
    output: "",
    note: "delta: stopped: Budget at 3\n",
    status: 5,
};

// The last event of the first table makes three calls. A program that looked at the tables in one go would be stopped
// at one place, whatever the schedule.
const BY_EVENT: &[Row] = &[
    STOPPED,
    Row {
        words: "feed program 1 a b --budget 1",
        note: "delta: stopped: Budget at 7\n",
        ..STOPPED
    },
    Row {
        words: "feed program 01 a b --budget 1",
        note: "delta: stopped: Budget at 6\n",
        ..STOPPED
    },
    Row {
        words: "feed program 01 a b --budget 3",
        note: "",
        status: 0,
        ..STOPPED
    },
    // Each event has the whole budget: the start makes a call, and each row one more.
    Row {
        words: "feed program 01 a b --budget 1",
        ..ADDED
    },
    Row {
        words: "feed program 01 a b --budget 0",
        text: ADD,
        note: "delta: stopped: Budget at 0\n",
        ..STOPPED
    },
];

#[test]
fn deep_calls_are_stopped(rt: HostRuntime) -> Result<(), Fail> {
    let row = Row {
        words: "feed program 0 a",
        text: TOO_DEEP,
        note: "delta: stopped: Deep at 0\n",
        ..STOPPED
    };
    assert!(rt; answers_on::<Coded>(rt.alloc(), &row, 4096)?);
    Ok(())
}

// Whether a table of one byte more than there may be is refused.
fn is_too_long(alloc: Global) -> Result<bool, Fail> {
    let mut table = String::new(alloc);
    for _ in 0..1_048_577 {
        table.push('\n')?;
    }
    let row = Row {
        words: "feed program 0 a b",
        first: "",
        second: table.as_str(),
        note: "delta: table refused: Long in 1 at 0\n",
        ..REFUSED
    };
    let refused = answers_on::<Coded>(alloc, &row, 4096);
    drop(table);
    refused
}

#[test]
fn long_table_is_refused(rt: HostRuntime) -> Result<(), Fail> {
    assert!(rt; is_too_long(rt.alloc())?);
    Ok(())
}

#[test]
fn failed_write_leaves_a_front(rt: HostRuntime) -> Result<(), Fail> {
    assert!(rt; leaves_front(rt.alloc(), &ADDED, 0, "")?);
    assert!(rt; leaves_front(rt.alloc(), &ADDED, 1, "11\n2")?);
    Ok(())
}

// What the rows of each table show.
const TABLES: &[(&str, &[Row])] = &[
    ("tables are fed in any order", FED),
    ("examples are answered", EXAMPLES),
    ("tables are refused", UNTAKEN),
    ("programs are stopped at an event", BY_EVENT),
];

#[test]
fn rows_are_answered(rt: HostRuntime) -> Result<(), Fail> {
    for (name, rows) in TABLES {
        assert_eq!(rt; first_wrong(rt.alloc(), rows)?, None, "{name}");
    }
    Ok(())
}
