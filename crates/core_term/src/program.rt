//! The trees of whole programs.

use crate::term::Node;
use bunch::{Bunch, Name};
use stream_type::Ty;

/// A function, or the main program: its parameters, its result and its body. Contracts see it as a
/// `CoreBody` by `core_body_of` (`specs/CoreTerm.antt`).
#[derive(Drop)]
pub struct Body {
    /// The historical parameters, with the types of the streams whose values they are.
    pub past: Vec<(Name, Ty)>,
    /// The stream parameters.
    pub params: Bunch,
    /// The result's type.
    pub result: Ty,
    /// What it gives.
    pub body: Node,
}

/// A program: its functions by number, its main program, and the source text of each name by number.
/// Contracts see it as a `CoreProgram` by `core_of` (`specs/CoreTerm.antt`). A call that needs more
/// of it asks for `IsCore`, or for `HasFewNodes` (`specs/FreeNames.antt`).
#[derive(Drop)]
pub struct Core {
    /// The functions.
    pub funs: Vec<Body>,
    /// The main program, which has no historical parameters.
    pub main: Body,
    /// The text of each name.
    pub texts: Vec<String>,
}
