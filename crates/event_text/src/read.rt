//! Lines read as events.

ghost use Rattle.std.specs.Prelude.{◌≡◌, ◌+◌, ◌^◌, ◌<◌, ◌∷◌, length, IfOk, IsTrue, ◌==◌, ◌≤◌, position};
ghost use Rattle.std.specs.Str.{all_ascii_digits};
ghost use Rattle.event_text.specs.Reading.{words, step_of, word_leaf, is_number, number_leaf, last_word, at_number, at_leaf, at_words, read};
ghost use Rattle.event_text.specs.Words.{behind};

use crate::fault::LineFault;
use event_word::{Event, Leaf, STEPS, Step};

/// The event of a line without its line end (`read` of `specs/Reading.antt`), or the first fault
/// from the left, whose column counts bytes from 0. It takes no memory.
pub fn read_line(line: &[u8]) -> Result<Event, LineFault>
    ensures { result ≡ read line.now }
{
    read_words(line, 0, STEPS)
}

// The words from a column on, where so many steps may still come.
fn read_words(line: &[u8], column: u64, left: usize) -> Result<Event, LineFault>
    requires steps { left ≤ 63 }
    requires column { column + length line.now < 2 ^ 64 }
    ensures event { result ≡ at_words left column (words line.now) }
    ensures within { IfOk result (λ x. length x.path ≤ left) }
{
    if line.is_empty() {
        return Err(LineFault::NoLeaf);
    }
    let (word, rest) = first_word(line);
    let Some(step) = step_of(word) else {
        let leaf = read_leaf(word, rest, column)?;
        return Ok(Event::new(leaf));
    };
    if left == 0 {
        return Err(LineFault::LongPath);
    }
    let Some((_space, rest)) = rest.split_first() else {
        return Err(LineFault::NoLeaf);
    };
    let event = read_words(rest, column + word.len() as u64 + 1, left - 1)?;
    event.under(step).ok_or(LineFault::LongPath)
}

// The word before the first space, and the rest of the line from that space on.
fn first_word(line: &[u8]) -> (&[u8], &[u8])
    ensures words { words line.now ≡ result.0.now ∷ behind result.1.now }
    ensures len { length result.0.now + length result.1.now ≡ length line.now }
{
    line.split_at(first_space(line).unwrap_or(line.len()))
}

fn first_space(line: &[u8]) -> Option<usize>
    ensures { result ≡ position (λ byte. byte == 32) line.now }
{
    line.iter().position(|byte| *byte == b' ')
}

fn step_of(word: &[u8]) -> Option<Step>
    ensures { result ≡ step_of word.now }
{
    match word {
        b"L" => Some(Step::Left),
        b"R" => Some(Step::Right),
        b"F" => Some(Step::First),
        _ => None,
    }
}

// The leaf that a word at a column is, or with the word behind it.
fn read_leaf(word: &[u8], rest: &[u8], column: u64) -> Result<Leaf, LineFault>
    requires { column + length word.now + length rest.now < 2 ^ 64 }
    ensures { result ≡ at_leaf column word.now (behind rest.now) }
{
    if word != b"int".as_slice() {
        return last_word(
            word_leaf(word),
            LineFault::BadWord(column),
            column + word.len() as u64,
            rest,
        );
    }
    match rest.split_first() {
        None => Err(LineFault::NoLeaf),
        Some((_space, rest)) => read_number(rest, column + 4),
    }
}

// The number at a column.
fn read_number(line: &[u8], column: u64) -> Result<Leaf, LineFault>
    requires { column + length line.now < 2 ^ 64 }
    ensures { result ≡ at_number column (words line.now) }
{
    if line.is_empty() {
        return Err(LineFault::NoLeaf);
    }
    let (word, rest) = first_word(line);
    if !is_number(word) {
        return Err(LineFault::BadWord(column));
    }
    last_word(
        number_leaf(word),
        LineFault::BigNumber(column),
        column + word.len() as u64,
        rest,
    )
}

// The leaf, if there is one and the line ends behind it.
fn last_word(
    leaf: Option<Leaf>,
    fault: LineFault,
    column: u64,
    rest: &[u8],
) -> Result<Leaf, LineFault>
    ensures { result ≡ last_word leaf fault column (behind rest.now) }
{
    let Some(leaf) = leaf else {
        return Err(fault);
    };
    if rest.is_empty() {
        Ok(leaf)
    } else {
        Err(LineFault::Extra(column))
    }
}

fn word_leaf(word: &[u8]) -> Option<Leaf>
    ensures { result ≡ word_leaf word.now }
{
    match word {
        b"one" => Some(Leaf::One),
        b"inl" => Some(Leaf::Inl),
        b"inr" => Some(Leaf::Inr),
        b"cut" => Some(Leaf::Cut),
        b"item" => Some(Leaf::Item),
        b"end" => Some(Leaf::End),
        _ => None,
    }
}

fn is_number(word: &[u8]) -> bool
    ensures { result ≡ is_number word.now }
{
    let digits = match word {
        [b'-', digits @ ..] => digits,
        _ => word,
    };
    !digits.is_empty() && are_digits(digits)
}

fn are_digits(bytes: &[u8]) -> bool
    ensures { result ≡ all_ascii_digits bytes.now }
{
    match bytes.split_first() {
        None => true,
        Some((byte, rest)) => byte.is_ascii_digit() && are_digits(rest),
    }
}

// The number, where it has 64 bits.
fn number_leaf(word: &[u8]) -> Option<Leaf>
    requires { IsTrue (is_number word.now) }
    ensures { result ≡ number_leaf word.now }
{
    let Ok(text) = std::str::from_utf8(word) else {
        return None;
    };
    match text.parse() {
        Ok(number) => Some(Leaf::Int(number)),
        Err(_) => None,
    }
}
