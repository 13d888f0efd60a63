//! Lines read from the bytes of a text.

ghost use Rattle.std.specs.Prelude.{◌≡◌, map, option_map, IfOk, ◌==◌, position};
ghost use Rattle.std.specs.Str.{bytes_eq};
ghost use Rattle.delta_derive.specs.LineText.{turn_of, turn_at, turns_in, path_in, step_of, step_in, unit_step_in, line_of, bare_line, line_of_word, line_with_path, line_in};

use crate::line::{Line, Step, Turn};
use std::alloc::Global;
use stream_type::Memory;

/// The line that the bytes are, without a line feed, or None where they are none: `line_in` in
/// `specs/LineText.antt`. Its only error is want of memory.
#[tactic(auto, using(crate::proofs::Spaces::spaces))]
pub fn read_line(alloc: Global, bytes: &[u8]) -> Result<Option<Line>, Memory>
    ensures { IfOk result (λ o. option_map line_of o ≡ line_in bytes.now) }
{
    match first_space(bytes) {
        None => Ok(bare_line(bytes)),
        Some(i) => line_with_path(alloc, &bytes[..i], &bytes[i + 1..]),
    }
}

fn first_space(bytes: &[u8]) -> Option<usize>
    ensures { result ≡ position (λ byte. byte == 32) bytes.now }
{
    bytes.iter().position(|byte| *byte == b' ')
}

// Whether the bytes are those of a name.
fn is_word(word: &[u8], name: &str) -> bool
    ensures { result ≡ bytes_eq word.now name.now }
{
    word == name.as_bytes()
}

// The line of one word.
fn bare_line(word: &[u8]) -> Option<Line>
    ensures { option_map line_of result ≡ bare_line word.now }
{
    if is_word(word, "rule") {
        Some(Line::Rule)
    } else {
        None
    }
}

// The line of a word and a path.
fn line_with_path(alloc: Global, word: &[u8], bytes: &[u8]) -> Result<Option<Line>, Memory>
    ensures { IfOk result (λ o. option_map line_of o ≡ line_with_path word.now bytes.now) }
{
    match path_in(alloc, bytes) {
        Ok(Some(path)) => Ok(line_of_word(word, path)),
        Ok(None) => Ok(None),
        Err(memory) => Err(memory),
    }
}

// The same, where the path is read.
fn line_of_word(word: &[u8], path: Vec<Turn>) -> Option<Line>
    ensures { option_map line_of result ≡ line_of_word word.now (map turn_of path.items) }
{
    if is_word(word, "rule") {
        return Some(Line::RuleAt(path));
    }
    match step_in(word) {
        Some(step) => Some(Line::Step(step, path)),
        None => {
            drop(path);
            None
        }
    }
}

// The step that a word is.
fn step_in(word: &[u8]) -> Option<Step>
    ensures { option_map step_of result ≡ step_in word.now }
{
    if is_word(word, "drop") {
        Some(Step::Drop)
    } else if is_word(word, "swap") {
        Some(Step::Swap)
    } else if is_word(word, "left") {
        Some(Step::Left)
    } else if is_word(word, "right") {
        Some(Step::Right)
    } else if is_word(word, "loosen") {
        Some(Step::Loosen)
    } else {
        unit_step_in(word)
    }
}

// The same of the steps that make or take away an empty part.
fn unit_step_in(word: &[u8]) -> Option<Step>
    ensures { option_map step_of result ≡ unit_step_in word.now }
{
    if is_word(word, "unit") {
        Some(Step::Unit)
    } else if is_word(word, "before") {
        Some(Step::Before)
    } else if is_word(word, "after") {
        Some(Step::After)
    } else if is_word(word, "beside") {
        Some(Step::Beside)
    } else {
        None
    }
}

// The path that the bytes are.
fn path_in(alloc: Global, bytes: &[u8]) -> Result<Option<Vec<Turn>>, Memory>
    ensures { IfOk result (λ o. option_map (λ v. map turn_of v.items) o ≡ path_in bytes.now) }
{
    if bytes.is_empty() {
        return Ok(None);
    }
    if is_word(bytes, ".") {
        return Ok(Some(Vec::new(alloc)));
    }
    turns_in(alloc, bytes)
}

// The turns of letters.
fn turns_in(alloc: Global, bytes: &[u8]) -> Result<Option<Vec<Turn>>, Memory>
    ensures { IfOk result (λ o. option_map (λ v. map turn_of v.items) o ≡ turns_in bytes.now) }
{
    let mut turns = Vec::new(alloc);
    for byte in bytes {
        match turn_at(*byte) {
            Some(turn) => turns.push(turn)?,
            None => {
                drop(turns);
                return Ok(None);
            }
        }
    }
    Ok(Some(turns))
}

fn turn_at(byte: u8) -> Option<Turn>
    ensures { option_map turn_of result ≡ turn_at byte }
{
    match byte {
        b'l' => Some(Turn::Left),
        b'r' => Some(Turn::Right),
        _ => None,
    }
}
