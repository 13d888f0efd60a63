//! The tokens of a canonical text, before they are laid out.

ghost use Rattle.std.specs.Prelude.{◌≡◌, ◌++◌, [], ◌∷◌, OnOk};
ghost use Rattle.delta_print.specs.Chunks.{named};

use bunch::Name;
use delta_parse::Terminal;
use stream_type::Memory;

/// A token of a canonical text. Its text is `chunk_text` in `specs/Chunks.antt`.
#[derive(Clone, Copy)]
pub(crate) enum Chunk {
    /// A word or a sign, or the type `1`.
    Fixed(Terminal),
    /// A name, by its number.
    Named(Name),
    /// A number without its sign.
    Digits(u64),
    /// The minus of a negative number, which no space parts from its digits.
    Minus,
    /// The star of a type, which no space parts from the type.
    TypeStar,
}

/// Appends a word or a sign.
pub(crate) fn put_fixed(row: &mut Vec<Chunk>, kind: Terminal) -> Result<(), Memory>
    ensures { OnOk result (row.new.items ≡ row.old.items ++ Chunk.Fixed kind ∷ []) }
{
    Ok(row.push(Chunk::Fixed(kind))?)
}

/// Appends two words or signs.
pub(crate) fn put_two(row: &mut Vec<Chunk>, first: Terminal, second: Terminal) -> Result<(), Memory>
    ensures { OnOk result (row.new.items ≡ row.old.items ++ Chunk.Fixed first ∷ Chunk.Fixed second ∷ []) }
{
    put_fixed(row, first)?;
    put_fixed(row, second)
}

/// Appends a name.
pub(crate) fn put_name(row: &mut Vec<Chunk>, name: Name) -> Result<(), Memory>
    ensures { OnOk result (row.new.items ≡ row.old.items ++ named name.0 ∷ []) }
{
    Ok(row.push(Chunk::Named(name))?)
}

/// Appends a name, and a word or a sign behind it.
pub(crate) fn put_name_and(row: &mut Vec<Chunk>, name: Name, behind: Terminal) -> Result<(), Memory>
    ensures { OnOk result (row.new.items ≡ row.old.items ++ named name.0 ∷ Chunk.Fixed behind ∷ []) }
{
    put_name(row, name)?;
    put_fixed(row, behind)
}
