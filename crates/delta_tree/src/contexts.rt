//! The tree of a function's stream parameters as they are written.

use crate::types::TyExp;
use bunch::Name;

/// Stream parameters as they are written. Contracts see them as a `WrittenContext` by `context_of`
/// (`specs/Tree.antt`).
#[derive(Drop)]
pub enum Ctx {
    /// No parameter.
    Empty,
    /// `x : s`: one parameter and its type.
    Leaf(Name, TyExp),
    /// `a, b`: both at once, in any order between the two.
    Comma(Box<Ctx>, Box<Ctx>),
    /// `a; b`: the whole of the first, then the second.
    Semi(Box<Ctx>, Box<Ctx>),
}
