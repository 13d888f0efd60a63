//! Where the input of a program is.

use stream_type::Ty;

/// Where the input of a program is. Contracts see it as a `PlaceTree` by `place_of`
/// (`specs/PlaceTree.antt`).
#[derive(Drop)]
pub struct Place {
    /// What is left of the types of main's parameters, in order.
    pub ins: Vec<Ty>,
    /// Of each semicolon of main's parameters whether its mark has come, a form before its parts.
    pub cuts: Vec<bool>,
}
