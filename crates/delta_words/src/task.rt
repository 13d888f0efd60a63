//! What a command line asks for.

ghost use Rattle.std.specs.Prelude.{◌≡◌, ◌<◌, ◌^◌, Some, map, option_map, string_bytes};
ghost use Rattle.delta_words.specs.Gives.{Gives};
ghost use Rattle.delta_words.specs.CommandTask.{asked, run, eval, version_of, budget_of, file_of, file_and_budget, text_or_frames, start_and_items, two_files, save_of, resume, state_and_budget, feed_of, task_of_line, task_of};
ghost use Rattle.delta_words.specs.Line.{written};

use crate::command::Command;
use crate::fault::WordsFault;
use crate::line::{Line, read_line};
use crate::number::{number, schedule};
use std::alloc::Global;

/// The version of the frames that are written.
#[derive(Clone, Copy, Debug, PartialEq, Eq)]
pub enum Version {
    /// Version 1: a path is a byte for each step.
    V1,
    /// Version 2: a path is two bits for each step.
    V2,
}

/// What a command line asks for. `CommandTask` of `specs/CommandTask.antt` is its plain twin, and `asked`
/// reads the one from the other. A budget counts the calls that may be made: by `eval` in all, by `resume` at each
/// event, and by what else has one before any event and again at each.
#[derive(Drop, PartialEq, Eq)]
pub enum Task {
    /// Run a file's program over the input, with a budget, and write frames of a version.
    Run(String, u64, Version),
    /// Evaluate a file's program on the whole input, with a budget, and write frames of a version.
    Eval(String, u64, Version),
    /// Check a file's program.
    Check(String),
    /// Print a file's program in its canonical text.
    Print(String),
    /// Write frames as lines of text.
    Text,
    /// Write lines of text as frames of a version.
    Frames(Version),
    /// Write the generated load: from which item on, and how many.
    Gen(u64, u64),
    /// Tell how many events a file's program can ever hold back.
    Bound(String),
    /// Check the derivation of a file's program that another file is.
    Derive(String, String),
    /// Run a file's program over the input and leave its state in another file, with a budget and a version.
    Save(String, String, u64, Version),
    /// Go on from the state of a file's program in a third file, and leave its state in the second, with a budget and
    /// a version.
    SaveAgain(String, String, String, u64, Version),
    /// Go on from the state that a file's program left in another file, with a budget and a version.
    Resume(String, String, u64, Version),
    /// Feed the tables of files to a file's program, with a budget: in what order their events come, as numbers of
    /// tables, and which files they are.
    Feed(String, Vec<u32>, Vec<String>, u64),
}

// The version that is written where `--v2` stands, and where it doesn't.
fn chosen_version(v2: bool) -> Version
    ensures { result ≡ version_of v2 }
{
    if v2 { Version::V2 } else { Version::V1 }
}

// The budget that a line names, or the default.
fn budget(value: Option<&[u8]>, limit: u64, usual: u64) -> Option<u64>
    requires { limit < 2 ^ 32 }
    ensures { result ≡ budget_of limit usual (option_map (λ value. value.now) value.entry) }
{
    match value {
        Some(value) => number(value, 13, limit),
        None => Some(usual),
    }
}

// The one operand.
fn file(alloc: Global, line: &Line<'_>) -> Result<String, WordsFault>
    ensures { Gives string_bytes result (file_of (written line.now).operands) }
{
    let [name] = line.operands.as_slice() else {
        return Err(WordsFault::Usage);
    };
    Ok(String::from_str(alloc, name)?)
}

// `--frames` and maybe `--v2`, or neither.
fn text_task(line: &Line<'_>) -> Result<Task, WordsFault>
    ensures { Gives asked result (text_or_frames (written line.now)) }
{
    if line.frames {
        return Ok(Task::Frames(chosen_version(line.v2)));
    }
    if line.v2 {
        return Err(WordsFault::Usage);
    }
    Ok(Task::Text)
}

// START and ITEMS.
fn gen_task(line: &Line<'_>) -> Result<Task, WordsFault>
    ensures { Gives asked result (start_and_items (written line.now).operands) }
{
    let [start, items] = line.operands.as_slice() else {
        return Err(WordsFault::Usage);
    };
    let Some(start) = number(start.as_bytes(), 8, 999_999) else {
        return Err(WordsFault::Usage);
    };
    let Some(items) = number(items.as_bytes(), 8, 10_000_000) else {
        return Err(WordsFault::Usage);
    };
    Ok(Task::Gen(start, items))
}

// FILE and PROOF.
fn derive_task(alloc: Global, line: &Line<'_>) -> Result<Task, WordsFault>
    ensures { Gives asked result (two_files (written line.now).operands) }
{
    let [file, proof] = line.operands.as_slice() else {
        return Err(WordsFault::Usage);
    };
    let file = String::from_str(alloc, file)?;
    let proof = String::from_str(alloc, proof)?;
    Ok(Task::Derive(file, proof))
}

// A file and a budget.
fn run_task(alloc: Global, line: &Line<'_>) -> Result<Task, WordsFault>
    ensures { Gives asked result (file_and_budget run 1000000 1000000 (written line.now)) }
{
    let file = file(alloc, line)?;
    match budget(line.budget, 1_000_000, 1_000_000) {
        Some(budget) => Ok(Task::Run(file, budget, chosen_version(line.v2))),
        None => Err(WordsFault::Usage),
    }
}

// A file and a budget.
fn eval_task(alloc: Global, line: &Line<'_>) -> Result<Task, WordsFault>
    ensures { Gives asked result (file_and_budget eval 10000 1000 (written line.now)) }
{
    let file = file(alloc, line)?;
    match budget(line.budget, 10_000, 1_000) {
        Some(budget) => Ok(Task::Eval(file, budget, chosen_version(line.v2))),
        None => Err(WordsFault::Usage),
    }
}

// FILE, STATE, OLD where it stands there, and a budget.
fn save_task(alloc: Global, line: &Line<'_>) -> Result<Task, WordsFault>
    ensures { Gives asked result (save_of (written line.now)) }
{
    let Some(budget) = budget(line.budget, 1_000_000, 1_000_000) else {
        return Err(WordsFault::Usage);
    };
    let version = chosen_version(line.v2);
    match line.operands.as_slice() {
        [file, state] => {
            let file = String::from_str(alloc, file)?;
            let state = String::from_str(alloc, state)?;
            Ok(Task::Save(file, state, budget, version))
        }
        [file, state, old] => {
            let file = String::from_str(alloc, file)?;
            let state = String::from_str(alloc, state)?;
            let old = String::from_str(alloc, old)?;
            Ok(Task::SaveAgain(file, state, old, budget, version))
        }
        _ => Err(WordsFault::Usage),
    }
}

// FILE, STATE and a budget.
fn resume_task(alloc: Global, line: &Line<'_>) -> Result<Task, WordsFault>
    ensures { Gives asked result (state_and_budget resume (written line.now)) }
{
    let [file, state] = line.operands.as_slice() else {
        return Err(WordsFault::Usage);
    };
    let Some(budget) = budget(line.budget, 1_000_000, 1_000_000) else {
        return Err(WordsFault::Usage);
    };
    let file = String::from_str(alloc, file)?;
    let state = String::from_str(alloc, state)?;
    Ok(Task::Resume(file, state, budget, chosen_version(line.v2)))
}

// Names, each as a text of its own.
fn owned(alloc: Global, names: &[&str]) -> Result<Vec<String>, WordsFault>
    ensures { Gives (λ owned. map string_bytes owned.items) result (Some (map (λ name. name.now) names.now)) }
{
    let mut owned = Vec::new(alloc);
    for name in names {
        owned.push(String::from_str(alloc, name)?)?;
    }
    Ok(owned)
}

// FILE, SCHEDULE, the tables and a budget.
fn feed_task(alloc: Global, line: &Line<'_>) -> Result<Task, WordsFault>
    ensures { Gives asked result (feed_of (written line.now).operands (budget_of 1000000 1000000 (written line.now).budget)) }
{
    let Some((file, more)) = line.operands.split_first() else {
        return Err(WordsFault::Usage);
    };
    let Some((digits, tables)) = more.split_first() else {
        return Err(WordsFault::Usage);
    };
    let Some(budget) = budget(line.budget, 1_000_000, 1_000_000) else {
        return Err(WordsFault::Usage);
    };
    let schedule = schedule(alloc, digits.as_bytes(), tables.len())?;
    let file = String::from_str(alloc, file)?;
    let tables = owned(alloc, tables)?;
    Ok(Task::Feed(file, schedule, tables, budget))
}

// What a command's line asks for.
fn line_task(alloc: Global, command: Command, line: &Line<'_>) -> Result<Task, WordsFault>
    ensures { Gives asked result (task_of_line command (written line.now)) }
{
    match command {
        Command::Run => run_task(alloc, line),
        Command::Eval => eval_task(alloc, line),
        Command::Check => Ok(Task::Check(file(alloc, line)?)),
        Command::Print => Ok(Task::Print(file(alloc, line)?)),
        Command::Text => text_task(line),
        Command::Gen => gen_task(line),
        Command::Bound => Ok(Task::Bound(file(alloc, line)?)),
        Command::Derive => derive_task(alloc, line),
        Command::Feed => feed_task(alloc, line),
        Command::Save => save_task(alloc, line),
        Command::Resume => resume_task(alloc, line),
    }
}

/// What the words of a command line ask for.
pub fn task_asked(alloc: Global, words: &[String]) -> Result<Task, WordsFault>
    ensures { Gives asked result (task_of (map string_bytes words.now)) }
{
    let Some((word, rest)) = words.split_first() else {
        return Err(WordsFault::Usage);
    };
    let Some(command) = Command::named(word.as_str()) else {
        return Err(WordsFault::Usage);
    };
    let line = read_line(alloc, command.takes(), rest)?;
    line_task(alloc, command, &line)
}
