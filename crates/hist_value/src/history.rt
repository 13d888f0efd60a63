//! The tree of a historical value.

/// A historical value. Contracts see it as a `HistValue` by `hist_value_of`
/// (`specs/HistValue.antt`), and say by `HasType` of which types it is one.
#[derive(Drop)]
pub enum Value {
    /// The value that carries nothing.
    Unit,
    /// A number.
    Int(i64),
    /// Two values.
    Pair(Box<Value>, Box<Value>),
    /// A value of the first type of a sum.
    Inl(Box<Value>),
    /// A value of the second type of a sum.
    Inr(Box<Value>),
    /// The items, the first in front.
    List(Vec<Value>),
}
