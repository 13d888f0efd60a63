//! What is said against a program beside what is wrong with its text.

/// Why a derivation of a program is refused.
#[derive(Clone, Copy, Debug, PartialEq, Eq)]
pub enum DerivationName {
    /// Its text is too long.
    LongText,
    /// A line is none of a derivation.
    BadLine,
    /// A step can't be taken there.
    BadStep,
    /// A rule isn't valid there.
    BadRule,
    /// The lines end before the last rule.
    Short,
    /// A line stands after the last rule.
    Long,
}

/// Why no bound of a program can be told.
#[derive(Clone, Copy, Debug, PartialEq, Eq)]
pub enum BoundName {
    /// A case or a wait counts a name whose type has no size.
    Unbounded,
    /// A function holds more at each call of itself.
    Cycle,
    /// The bound isn't below the limit.
    Large,
}

/// Why no tables can be fed to a program.
#[derive(Clone, Copy, Debug, PartialEq, Eq)]
pub enum TableName {
    /// The program's types aren't those of so many tables.
    Shape,
    /// A file is too long.
    Long,
    /// A row has another number of fields than its table has columns.
    Ragged,
    /// A field is no number.
    BadNumber,
}

/// Why a state that was kept, or is to be kept, is refused.
#[derive(Clone, Copy, Debug, PartialEq, Eq)]
pub enum StateName {
    /// A byte can't stand in its place.
    Form,
    /// It isn't typed for the program.
    Untyped,
    /// It is of another version.
    Version,
    /// It has too many bytes, or too many events were taken.
    Large,
}

/// What is said against a program whose text is good, by name and place.
#[derive(Clone, Copy, Debug, PartialEq, Eq)]
pub enum Objection {
    /// Its derivation is refused. The place counts the lines before, or the bytes of a text that is too long.
    Derivation(DerivationName, u32),
    /// It has no bound. The place counts the bytes of its text before, and is 0 where there is none.
    Bound(BoundName, u32),
    /// The tables for it are refused. The numbers are those of the file and of the row, from 0, and 0 where there
    /// is none.
    Table(TableName, u32, u32),
    /// A state of it is refused. The place counts the bytes before, or the states of one that isn't typed; it is the
    /// version of one of another version, and the greatest number of bytes for one that is too large.
    State(StateName, u32),
}
