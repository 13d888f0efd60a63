//! The tree of a historical type.

/// The type of a historical value. Contracts see it as a `HistType` by `hist_type_of`
/// (`specs/HistType.antt`).
#[derive(Drop, Debug)]
pub enum HTy {
    /// One value that carries nothing.
    Unit,
    /// Numbers of 64 bits with their sign.
    Int,
    /// Pairs of a value of each.
    Pair(Box<HTy>, Box<HTy>),
    /// A value of one of the two, and which of them it is of.
    Sum(Box<HTy>, Box<HTy>),
    /// Lists of values of it.
    List(Box<HTy>),
}
