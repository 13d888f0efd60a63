//! What stands at the front of a text.

ghost use Rattle.std.specs.Prelude.{◌≡◌};
ghost use Rattle.std.specs.Str.{chars};
ghost use Rattle.delta_lex.specs.Pieces.{piece_of, begins_with, joins};
ghost use Rattle.delta_lex.specs.Measures.{run_bytes, in_bytes};
ghost use Rattle.delta_lex.specs.Characters.{goes_on};

use crate::character::{Run, goes_on, is_digit, is_separator, is_sign, starts_name};
use crate::token::Kind;

/// What stands at the front of a text, with its length behind its first character.
#[derive(Clone, Copy)]
pub(crate) enum Piece {
    /// A separator or a comment.
    Gap(usize),
    /// A token, where a word counts as a name.
    Solid(Kind, usize),
    /// A character that starts no token.
    Stray,
}

/// What stands at the front of a text that begins with a character and then this text. The length
/// counts bytes.
pub(crate) fn piece_of(first: char, behind: &str) -> Piece
    ensures { result ≡ in_bytes (chars behind.now) (piece_of first (chars behind.now)) }
{
    if is_separator(first) {
        Piece::Gap(0)
    } else if starts_name(first) {
        Piece::Solid(Kind::Name, run_len(Run::Letters, behind))
    } else if is_digit(first) {
        Piece::Solid(Kind::Number, run_len(Run::Digits, behind))
    } else if first == '/' && begins_with(behind, '/') {
        Piece::Gap(run_len(Run::Comment, behind))
    } else if joins(first, behind) {
        Piece::Solid(Kind::Sign, 1)
    } else if is_sign(first) {
        Piece::Solid(Kind::Sign, 0)
    } else {
        Piece::Stray
    }
}

// Whether the character and the next are one sign.
fn joins(first: char, behind: &str) -> bool
    ensures { result ≡ joins first (chars behind.now) }
{
    match first {
        ':' => begins_with(behind, ':'),
        '=' => begins_with(behind, '>'),
        '|' => begins_with(behind, '|'),
        _ => false,
    }
}

// Whether the text begins with the character.
fn begins_with(text: &str, c: char) -> bool
    ensures { result ≡ begins_with c (chars text.now) }
{
    text.chars().next() == Some(c)
}

// The length in bytes of the characters at the front with which the run goes on.
fn run_len(run: Run, text: &str) -> usize
    ensures { result ≡ run_bytes (goes_on run) (chars text.now) }
{
    let mut len = 0;
    for c in text.chars() {
        if !goes_on(run, c) {
            return len;
        }
        len += c.len_utf8();
    }
    len
}
