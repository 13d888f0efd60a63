//! Tokens, each a slice of the text.

/// What a token is.
#[derive(Clone, Copy, PartialEq, Eq, Debug)]
pub enum Kind {
    /// A name that isn't a word of the language.
    Name,
    /// A word of the language.
    Word,
    /// A run of digits.
    Number,
    /// A sign of one or two characters.
    Sign,
}

/// A token of a text: its kind, its text, and how many bytes of the whole text stand before it.
#[derive(Clone, Copy, PartialEq, Eq, Debug)]
pub struct Token<'a> {
    /// What it is.
    pub kind: Kind,
    /// How many bytes stand before it.
    pub at: u32,
    /// Its text, a slice of the whole text.
    pub text: &'a str,
}
