//! Tokens as the grammar sees them.

ghost use Rattle.std.specs.Prelude.{pos, ◌≤ℤ◌};

use crate::terminal::Terminal;

/// A token as the grammar sees it: its terminal, its place, and the number of its name or the number
/// that it writes. Contracts see it as a `Token` by `plain_of` (`specs/Terminals.antt`).
#[derive(Clone, Copy)]
pub struct Plain {
    /// What it is.
    pub kind: Terminal,
    /// How many bytes of the text stand before it.
    pub at: u32,
    /// The number of a name, and 0 of anything else.
    pub name: u32,
    /// What a number writes, and 0 of anything else.
    pub number: i64,
    ghost not_negative: { pos 0 ≤ℤ number },
}
