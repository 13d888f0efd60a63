//! The reader of what a `let` binds.

ghost use Rattle.std.specs.Prelude.{◌≡◌, ◌<◌, length, IfOk};
ghost use Rattle.delta_parse.specs.Terminals.{plains};
ghost use Rattle.delta_parse.specs.Parts.{a_pattern};
ghost use Rattle.delta_parse.specs.Actions.{pattern_with};
ghost use Rattle.delta_parse.specs.Tables.{reading};
ghost use Rattle.delta_parse.specs.Readers.{Gives, pattern_tree};
ghost use Rattle.delta_parse.specs.Reads.{Reads, second_name};

use crate::cursor::{Halt, accept, accept_either, expect};
use crate::plain::Plain;
use crate::signs::followed_by;
use crate::terminal::Terminal;
use bunch::Name;

/// What a `let` binds: one name, or two that come at once or one after the other.
#[derive(Clone, Copy)]
pub enum Pattern {
    /// `x`
    One(Name),
    /// `(x, y)`
    AtOnce(Name, Name),
    /// `(x; y)`
    InTurn(Name, Name),
}

/// What a `let` binds, and the tokens after it.
pub fn read_pattern<'a>(tokens: &'a [Plain]) -> Result<(Pattern, &'a [Plain]), Halt>
    ensures given { Gives (λ x. pattern_tree x.0) (λ x. plains x.1.now) result (reading a_pattern (plains tokens.now)) }
    ensures shorter { IfOk result (λ x. length x.1.now < length tokens.now) }
{
    read_bound(tokens)
}

fn read_bound<'a>(tokens: &'a [Plain]) -> Result<(Pattern, &'a [Plain]), Halt>
    ensures { Reads (λ x. pattern_tree x.0) (λ x. x.1.now) result (reading a_pattern (plains tokens.now)) (length tokens.now) }
{
    if let Some((name, rest)) = accept(Terminal::NameToken, tokens) {
        return Ok((Pattern::One(Name(name.name)), rest));
    }
    match expect(Terminal::Open, tokens) {
        Ok((_, rest)) => match expect(Terminal::NameToken, rest) {
            Ok((x, rest)) => read_second(Name(x.name), rest),
            Err(halt) => Err(halt),
        },
        Err(halt) => Err(halt),
    }
}

// What stands behind the first of two names.
fn read_second<'a>(x: Name, tokens: &'a [Plain]) -> Result<(Pattern, &'a [Plain]), Halt>
    ensures { Reads (λ x. pattern_tree x.0) (λ x. x.1.now) result (second_name x.0 (plains tokens.now)) (length tokens.now) }
{
    match accept_either(Terminal::Comma, Terminal::Semicolon, tokens) {
        Some((sign, rest)) => match followed_by(
            Terminal::Close,
            expect(Terminal::NameToken, rest),
        ) {
            Ok((y, rest)) => Ok((pattern_with(sign.kind, x, Name(y.name)), rest)),
            Err(halt) => Err(halt),
        },
        None => Err(Halt::At(tokens.len())),
    }
}

// Two names with this sign between them.
fn pattern_with(sign: Terminal, x: Name, y: Name) -> Pattern
    ensures { pattern_tree result ≡ pattern_with sign x.0 y.0 }
{
    match sign {
        Terminal::Semicolon => Pattern::InTurn(x, y),
        _ => Pattern::AtOnce(x, y),
    }
}
