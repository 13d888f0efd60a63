//! How tokens are laid out in a line.

ghost use Rattle.std.specs.Prelude.{◌≡◌, ◌++◌, OnOk, map, string_bytes};
ghost use Rattle.delta_print.specs.Chunks.{chunk_text, fixed_text, name_text};
ghost use Rattle.delta_print.specs.Layout.{gap, holds_back, holds_next, laid_out};

use crate::chunk::Chunk;
use bunch::Name;
use delta_parse::Terminal;
use stream_type::Memory;

/// Appends the text of tokens in a line, where these are the texts of the names: `laid_out` in
/// `specs/Layout.antt`.
pub(crate) fn lay_out(text: &mut String, names: &[String], row: &[Chunk]) -> Result<(), Memory>
    ensures { OnOk result (string_bytes text.new ≡ string_bytes text.old ++ laid_out (map string_bytes names.now) row.now) }
{
    let mut before = None;
    for chunk in row {
        put_gap(text, before, *chunk)?;
        put_chunk(text, names, *chunk)?;
        before = Some(*chunk);
    }
    Ok(())
}

// What stands between a token and the one before it.
fn put_gap(text: &mut String, before: Option<Chunk>, chunk: Chunk) -> Result<(), Memory>
    ensures { OnOk result (string_bytes text.new ≡ string_bytes text.old ++ gap before chunk) }
{
    match before {
        Some(before) if !holds_next(before) && !holds_back(chunk) => Ok(text.push_str(" ")?),
        _ => Ok(()),
    }
}

fn holds_next(chunk: Chunk) -> bool
    ensures { result ≡ holds_next chunk }
{
    match chunk {
        Chunk::Fixed(kind) => kind == Terminal::Open,
        Chunk::Minus => true,
        Chunk::Named(_) | Chunk::Digits(_) | Chunk::TypeStar => false,
    }
}

fn holds_back(chunk: Chunk) -> bool
    ensures { result ≡ holds_back chunk }
{
    match chunk {
        Chunk::Fixed(kind) => {
            kind == Terminal::Close || kind == Terminal::Comma || kind == Terminal::Semicolon
        }
        Chunk::TypeStar => true,
        Chunk::Named(_) | Chunk::Digits(_) | Chunk::Minus => false,
    }
}

fn put_chunk(text: &mut String, names: &[String], chunk: Chunk) -> Result<(), Memory>
    ensures { OnOk result (string_bytes text.new ≡ string_bytes text.old ++ chunk_text (map string_bytes names.now) chunk) }
{
    match chunk {
        Chunk::Fixed(kind) => Ok(text.push_str(fixed_text(kind))?),
        Chunk::Named(name) => put_name(text, names, name),
        Chunk::Digits(n) => Ok(write!(text, "{n}")?),
        Chunk::Minus => Ok(text.push_str("-")?),
        Chunk::TypeStar => Ok(text.push_str("*")?),
    }
}

// The text of a name, and nothing where it has none.
fn put_name(text: &mut String, names: &[String], name: Name) -> Result<(), Memory>
    ensures { OnOk result (string_bytes text.new ≡ string_bytes text.old ++ name_text (map string_bytes names.now) name.0) }
{
    match names.get(name.0 as usize) {
        Some(found) => Ok(text.push_str(found.as_str())?),
        None => Ok(()),
    }
}

fn fixed_text(kind: Terminal) -> &'static str
    ensures { result.now ≡ fixed_text kind }
{
    match kind {
        Terminal::FunWord => "fun",
        Terminal::MainWord => "main",
        Terminal::TypeWord => "type",
        Terminal::LetWord => "let",
        Terminal::InWord => "in",
        Terminal::CaseWord => "case",
        Terminal::OfWord => "of",
        Terminal::InlWord => "inl",
        Terminal::InrWord => "inr",
        Terminal::NilWord => "nil",
        Terminal::WaitWord => "wait",
        Terminal::EpsWord => "eps",
        Terminal::IfWord => "if",
        Terminal::ThenWord => "then",
        Terminal::ElseWord => "else",
        Terminal::FoldWord => "fold",
        Terminal::FromWord => "from",
        Terminal::WithWord => "with",
        Terminal::IntWord => "Int",
        Terminal::FstWord => "fst",
        Terminal::SndWord => "snd",
        Terminal::Open => "(",
        Terminal::Close => ")",
        Terminal::OpenBrace => "{",
        Terminal::CloseBrace => "}",
        Terminal::Comma => ",",
        Terminal::Semicolon => ";",
        Terminal::Colon => ":",
        Terminal::Colons => "::",
        Terminal::Equals => "=",
        Terminal::Arrow => "=>",
        Terminal::Bar => "|",
        Terminal::Bars => "||",
        Terminal::Plus => "+",
        Terminal::Minus => "-",
        Terminal::Times => "*",
        Terminal::Slash => "/",
        Terminal::Less => "<",
        Terminal::Dot => ".",
        Terminal::OneToken => "1",
        Terminal::NameToken | Terminal::NumberToken | Terminal::Other => "",
    }
}
