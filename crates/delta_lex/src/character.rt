//! What characters can do in a token.

ghost use Rattle.std.specs.Prelude.{◌≡◌};
ghost use Rattle.delta_lex.specs.Characters.{is_separator, starts_name, is_digit, is_sign, goes_on, is_word};

use unicode_ident::{is_xid_continue, is_xid_start};

/// What goes on as long as characters of one sort follow.
#[derive(Clone, Copy)]
pub(crate) enum Run {
    /// A name.
    Letters,
    /// A number.
    Digits,
    /// A comment.
    Comment,
}

const WORDS: [&str; 21] = [
    "fun", "main", "type", "let", "in", "case", "of", "inl", "inr", "nil", "wait", "eps", "if",
    "then", "else", "fold", "from", "with", "Int", "fst", "snd",
];

/// Whether the character separates tokens.
pub(crate) fn is_separator(c: char) -> bool
    ensures { result ≡ is_separator c }
{
    matches!(c, ' ' | '\t' | '\r' | '\n')
}

/// Whether a name can start with the character.
pub(crate) fn starts_name(c: char) -> bool
    ensures { result ≡ starts_name c }
{
    c == '_' || is_xid_start(c)
}

/// Whether a number can start with the character.
pub(crate) fn is_digit(c: char) -> bool
    ensures { result ≡ is_digit c }
{
    c.is_ascii_digit()
}

/// Whether the character is a sign by itself.
pub(crate) fn is_sign(c: char) -> bool
    ensures { result ≡ is_sign c }
{
    matches!(
        c,
        '(' | ')' | '{' | '}' | ',' | ';' | ':' | '=' | '|' | '+' | '-' | '*' | '/' | '<' | '.'
    )
}

/// Whether the run goes on with the character.
pub(crate) fn goes_on(run: Run, c: char) -> bool
    ensures { result ≡ goes_on run c }
{
    match run {
        Run::Letters => is_xid_continue(c),
        Run::Digits => is_digit(c),
        Run::Comment => c != '\n',
    }
}

/// Whether the text is a word of the language.
pub(crate) fn is_word(text: &str) -> bool
    ensures { result ≡ is_word text.now }
{
    WORDS.contains(&text)
}
