//! Names of streams.

/// A name by its number. Contracts see the number by `number_of` (`specs/Names.antt`).
#[derive(Clone, Copy, PartialEq, Eq, PartialOrd, Ord, Hash, Debug)]
pub struct Name(pub u32);
