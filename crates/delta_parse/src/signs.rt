//! What is read with the signs round it.

ghost use Rattle.std.specs.Prelude.{length};
ghost use Rattle.delta_parse.specs.Terminals.{plains};
ghost use Rattle.delta_parse.specs.Reads.{Reads, Follows, name_between, two_names};

use crate::cursor::{Halt, expect};
use crate::plain::Plain;
use crate::terminal::Terminal;
use bunch::Name;

/// What was read, where this sign stands behind it.
pub(crate) fn followed_by<'a, T: Drop>(
    kind: Terminal,
    read: Result<(T, &'a [Plain]), Halt>,
) -> Result<(T, &'a [Plain]), Halt>
    ensures { Follows kind (λ x. x.0) (λ x. x.1.now) read.entry result }
{
    match read {
        Ok((value, rest)) => match expect(kind, rest) {
            Ok((_, rest)) => Ok((value, rest)),
            Err(halt) => {
                drop(value);
                Err(halt)
            }
        },
        Err(halt) => Err(halt),
    }
}

/// A word, a name and a sign: the place of the word, and the name.
pub(crate) fn read_name_between<'a>(
    word: Terminal,
    sign: Terminal,
    tokens: &'a [Plain],
) -> Result<(u32, Name, &'a [Plain]), Halt>
    ensures { Reads (λ x. (x.0, x.1.0)) (λ x. x.2.now) result (name_between word sign (plains tokens.now)) (length tokens.now) }
{
    match expect(word, tokens) {
        Ok((word, rest)) => match followed_by(sign, expect(Terminal::NameToken, rest)) {
            Ok((name, rest)) => Ok((word.at, Name(name.name), rest)),
            Err(halt) => Err(halt),
        },
        Err(halt) => Err(halt),
    }
}

/// Two names, with a sign behind each.
pub(crate) fn read_two_names<'a>(
    first: Terminal,
    second: Terminal,
    tokens: &'a [Plain],
) -> Result<(Name, Name, &'a [Plain]), Halt>
    ensures { Reads (λ x. (x.0.0, x.1.0)) (λ x. x.2.now) result (two_names first second (plains tokens.now)) (length tokens.now) }
{
    match followed_by(first, expect(Terminal::NameToken, tokens)) {
        Ok((x, rest)) => match followed_by(second, expect(Terminal::NameToken, rest)) {
            Ok((y, rest)) => Ok((Name(x.name), Name(y.name), rest)),
            Err(halt) => Err(halt),
        },
        Err(halt) => Err(halt),
    }
}
