//! Command lines, each with its task, and words that are none.

use crate::outside::words;
use delta_words::{Task, WordsFault, read_words};
use std::alloc::{AllocError, Global};
use std::test::Fail;

// Writes a task as a text: its kind, what it names, and its numbers.
fn told(alloc: Global, task: &Task) -> Result<String, AllocError> {
    match task {
        Task::Run(name, budget, version) => {
            format!(in alloc; "run {name}, {budget} calls, {version:?}")
        }
        Task::Eval(name, budget, version) => {
            format!(in alloc; "eval {name}, {budget} calls, {version:?}")
        }
        Task::Check(name) => format!(in alloc; "check {name}"),
        Task::Print(name) => format!(in alloc; "print {name}"),
        Task::Frames(version) => format!(in alloc; "frames, {version:?}"),
        Task::Gen(seed, count) => format!(in alloc; "gen {count} from {seed}"),
        Task::Save(name, state, budget, version) => {
            format!(in alloc; "save {name} in {state}, {budget} calls, {version:?}")
        }
        Task::SaveAgain(name, state, old, budget, version) => {
            format!(in alloc; "save {name} in {state} from {old}, {budget} calls, {version:?}")
        }
        Task::Text => format!(in alloc; "text"),
        _ => format!(in alloc; "other"),
    }
}

// Each line, and what it asks for.
const LINES: &str = "run -- -x => run -x, 1000000 calls, V1
run --budget=5 a => run a, 5 calls, V1
run a --budget 0005 => run a, 5 calls, V1
run a --budget 1000000 => run a, 1000000 calls, V1
run a --budget=0000000000000 => run a, 0 calls, V1
run a -- => run a, 1000000 calls, V1
run -- -- => run --, 1000000 calls, V1
run a --v2 => run a, 1000000 calls, V2
run --v2 --budget 7 -- --v2 => run --v2, 7 calls, V2
run - => run -, 1000000 calls, V1
eval a => eval a, 1000 calls, V1
eval --budget 10000 a => eval a, 10000 calls, V1
eval --v2 a --budget=0 => eval a, 0 calls, V2
check a => check a
check -- a => check a
check a -- => check a
print -- --v2 => print --v2
text => text
text -- => text
text --frames => frames, V1
text --v2 --frames => frames, V2
text --frames --v2 -- => frames, V2
gen 007 1 => gen 1 from 7
gen 00999999 -- 10000000 => gen 10000000 from 999999
gen 0 0 => gen 0 from 0
save a b => save a in b, 1000000 calls, V1
save a --budget=7 b => save a in b, 7 calls, V1
save a b --v2 => save a in b, 1000000 calls, V2
save a b c => save a in b from c, 1000000 calls, V1
save a b b => save a in b from b, 1000000 calls, V1
save --v2 a b c => save a in b from c, 1000000 calls, V2
save a --v2 b c => save a in b from c, 1000000 calls, V2
save a b c --v2 --budget 7 => save a in b from c, 7 calls, V2
save a b -- -old => save a in b from -old, 1000000 calls, V1";

// Whether a line asks for such a task.
fn asks(alloc: Global, line: &str, wanted: &str) -> Result<bool, Fail> {
    let words = words(alloc, line)?;
    let found = match read_words(alloc, &words) {
        Ok(task) => {
            let text = told(alloc, &task);
            drop(task);
            text
        }
        Err(_) => Ok(String::new(alloc)),
    };
    drop(words);
    Ok(found?.as_str() == wanted)
}

// Whether a row, a line and its task, holds.
fn holds(alloc: Global, row: &str) -> Result<bool, Fail> {
    match row.split_once(" => ") {
        Some((line, wanted)) => asks(alloc, line, wanted),
        None => Ok(false),
    }
}

#[test]
fn lines_ask_for_tasks(rt: HostRuntime) -> Result<(), Fail> {
    for row in LINES.split('\n') {
        assert!(rt; holds(rt.alloc(), row)?, "{row}");
    }
    Ok(())
}

// A line without a word stands first.
const NO_LINES: &str = "
run
run a b
run a --budget
run a --budget x
run a --budget -1
run a --budget=
run a --budget=+1
run a --budget 5 --budget 6
run a --budget 1000001
run a --budget 1000000000001
run a --budget 00000000000001
run -- a --budget 5
run a --fra
run a --frames
run a --v2 --v2
run -x
runs a
eval a --budget 10001
check a --budget 1
check a --v2
print
text --frames --frames
text --frames=x
text a
text --v2
text --fra
gen 1000000 1
gen 0 10000001
gen 1
gen 1 000000001
gen 1 x
gen 1 2 3
save a
save a b c d
save a b --v2 c
save a b --budget=7 c
save a b c --v2 d
save a b --frames
save a b --budget 1000001
resume a
resume a b c
help
--help
run a --help
-h
--version";

// Whether the words of a line ask for nothing.
fn is_refused(alloc: Global, line: &str) -> Result<bool, Fail> {
    let words = words(alloc, line)?;
    let refused = match read_words(alloc, &words) {
        Ok(task) => {
            drop(task);
            false
        }
        Err(fault) => fault == WordsFault::Usage,
    };
    drop(words);
    Ok(refused)
}

#[test]
fn words_that_are_no_line(rt: HostRuntime) -> Result<(), Fail> {
    for line in NO_LINES.split('\n') {
        assert!(rt; is_refused(rt.alloc(), line)?, "{line}");
    }
    Ok(())
}
