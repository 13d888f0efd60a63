//! Why a program is refused.

/// The name of a fault of a program's text, of the stage that found it.
#[derive(Clone, Copy, Debug, PartialEq, Eq)]
pub enum RefusalName {
    /// The text is too long.
    LongText,
    /// A byte is no part of a character.
    BadUtf8,
    /// A character begins no token.
    BadChar,
    /// A number has more than 64 bits.
    BigNumber,
    /// Too many marks are open.
    Deep,
    /// No program goes on with this token.
    Expected,
    /// A name is bound twice in one list.
    Twice,
    /// There are too many functions, or names in one declaration.
    Many,
    /// The text ends where `main` is awaited.
    NoMain,
    /// A name of a stream or of a value isn't bound.
    Unbound,
    /// There is no function of this name.
    NoFunction,
    /// There is no type of this name.
    NoType,
    /// A type is too high.
    TooTall,
    /// A type has too many nodes.
    TooWide,
    /// A term doesn't have the type that is wanted.
    Mismatch,
    /// A stream is used before another that comes earlier.
    OutOfOrder,
    /// An argument gives output before the one in front of it is whole.
    Jumpy,
    /// A stream on which nothing comes is waited for.
    WaitNull,
    /// A call has another number of arguments than its function.
    Arity,
    /// A historical expression has a fault.
    History,
    /// A name stands for a value and is used as a stream.
    NotStream,
    /// The output's events have too long paths for frames of version 1.
    WideOutput,
}

/// Why a program is refused, and where: the place counts the bytes of its text before it.
#[derive(Clone, Copy, Debug, PartialEq, Eq)]
pub struct Refusal {
    /// The fault.
    pub name: RefusalName,
    /// Its place.
    pub at: u32,
}
