//! A command line, read word by word.

ghost use Rattle.std.specs.Prelude.{◌≡◌, map, option_map, string_bytes};
ghost use Rattle.delta_words.specs.Gives.{Gives};
ghost use Rattle.delta_words.specs.CommandLine.{is_option, value_of, read_word, with_budget, with_setting, with_option, line_of, no_words};
ghost use Rattle.delta_words.specs.Line.{written};

use crate::command::Takes;
use crate::fault::WordsFault;
use std::alloc::Global;

/// What was read of a command line behind its first word.
#[derive(Drop)]
pub struct Line<'a> {
    /// The operands, in turn.
    pub operands: Vec<&'a str>,
    /// The value of `--budget`.
    pub budget: Option<&'a [u8]>,
    /// Whether `--v2` was read.
    pub v2: bool,
    /// Whether `--frames` was.
    pub frames: bool,
    /// Whether `--` was read, after which each word is an operand.
    pub ended: bool,
    /// Whether the next word is the value of `--budget`.
    pub awaits: bool,
    /// Whether no operand may follow, since an option stands behind those that must stand there.
    pub closed: bool,
}

// Whether a word begins with `-` and isn't `-` alone.
fn is_option_word(word: &str) -> bool
    ensures { result ≡ is_option word.now }
{
    word.len() > 1 && word.as_bytes()[0] == b'-'
}

// What stands behind `--budget=` in a word.
fn budget_value<'a>(word: &'a [u8]) -> Option<&'a [u8]>
    ensures { option_map (λ value. value.now) result ≡ value_of word.now }
{
    word.strip_prefix(b"--budget=")
}

// The line of no words.
fn no_line<'a>(alloc: Global) -> Line<'a>
    ensures { written result ≡ no_words }
{
    Line {
        operands: Vec::new(alloc),
        budget: None,
        v2: false,
        frames: false,
        ended: false,
        awaits: false,
        closed: false,
    }
}

// The line with the budget, or the beginning of it, that a word is.
fn with_budget_word<'a>(mut line: Line<'a>, word: &'a str) -> Result<Line<'a>, WordsFault>
    ensures { Gives written result (with_budget (written line.entry) word.now) }
{
    if word == "--budget" {
        line.awaits = true;
        return Ok(line);
    }
    match budget_value(word.as_bytes()) {
        Some(value) => {
            line.budget = Some(value);
            Ok(line)
        }
        None => Err(WordsFault::Usage),
    }
}

// The line with the option that a word other than `--` is.
fn with_setting_word<'a>(
    mut line: Line<'a>,
    takes: Takes,
    word: &'a str,
) -> Result<Line<'a>, WordsFault>
    ensures { Gives written result (with_setting takes (written line.entry) word.now) }
{
    if word == "--v2" {
        if !takes.v2 || line.v2 {
            return Err(WordsFault::Usage);
        }
        line.v2 = true;
        return Ok(line);
    }
    if word == "--frames" {
        if !takes.frames || line.frames {
            return Err(WordsFault::Usage);
        }
        line.frames = true;
        return Ok(line);
    }
    if !takes.budget || line.budget.is_some() {
        return Err(WordsFault::Usage);
    }
    with_budget_word(line, word)
}

// The line with the option that a word is.
fn with_option_word<'a>(
    mut line: Line<'a>,
    takes: Takes,
    word: &'a str,
) -> Result<Line<'a>, WordsFault>
    ensures { Gives written result (with_option takes (written line.entry) word.now) }
{
    if word == "--" {
        line.ended = true;
        return Ok(line);
    }
    line.closed = takes.operands <= line.operands.len();
    with_setting_word(line, takes, word)
}

// The line with one word more.
fn with_word<'a>(mut line: Line<'a>, takes: Takes, word: &'a str) -> Result<Line<'a>, WordsFault>
    ensures { Gives written result (read_word takes (written line.entry) word.now) }
{
    let is_option = is_option_word(word);
    if line.awaits {
        if is_option {
            return Err(WordsFault::Usage);
        }
        line.budget = Some(word.as_bytes());
        line.awaits = false;
        return Ok(line);
    }
    if is_option && !line.ended {
        return with_option_word(line, takes, word);
    }
    if line.closed || line.operands.len() == takes.most {
        return Err(WordsFault::Usage);
    }
    line.operands.push(word)?;
    Ok(line)
}

/// The line that the words behind the first are, for a command that takes so much.
pub fn read_line<'a>(
    alloc: Global,
    takes: Takes,
    words: &'a [String],
) -> Result<Line<'a>, WordsFault>
    ensures { Gives written result (line_of takes (map string_bytes words.now)) }
{
    let mut line = no_line(alloc);
    for word in words {
        line = with_word(line, takes, word.as_str())?;
    }
    if line.awaits || line.operands.len() < takes.operands {
        return Err(WordsFault::Usage);
    }
    Ok(line)
}
