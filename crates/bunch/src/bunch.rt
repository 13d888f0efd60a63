//! The tree of a bunch.

use crate::name::Name;
use stream_type::Ty;

/// A bunch: named types, some side by side and some one after another. Contracts see it as a
/// `BunchTree` by `tree_of` (`specs/BunchTree.antt`).
#[derive(Drop)]
pub enum Bunch {
    /// No name.
    Empty,
    /// One name and its type.
    Leaf(Name, Ty),
    /// `a, b`: both at once, in any order between the two.
    Comma(Box<Bunch>, Box<Bunch>),
    /// `a; b`: the whole of the first, then the second.
    Semi(Box<Bunch>, Box<Bunch>),
}
