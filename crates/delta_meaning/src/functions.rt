//! The functions of a program as they are meant, and where an evaluation stands among them.

ghost use Rattle.std.specs.Prelude.{◌≡◌, ◌≤◌, map, IfSome, IfNone};
ghost use Rattle.delta_meaning.specs.SourceBody.{function_named, no_function};
ghost use Rattle.delta_meaning.specs.Functions.{body_of};
ghost use Rattle.delta_meaning.specs.Weights.{weight, heaviest};

use crate::calls::Answer;
use bunch::{Bunch, Name};
use delta_tree::Exp;
use stream_type::Ty;

/// A function as it is meant. Contracts see it as a `SourceBody` by `body_of` (`specs/Functions.antt`).
#[derive(Drop)]
pub struct Function<'a> {
    /// Its name.
    pub name: Name,
    /// The names of types that are known in its body; of two entries with one name the last counts.
    pub known: Vec<(Name, Ty)>,
    /// Its historical parameters, with the types of the streams whose values they are.
    pub past: Vec<(Name, Ty)>,
    /// Its stream parameters.
    pub params: Bunch,
    /// The type of what it gives.
    pub result: Ty,
    /// What it gives.
    pub body: &'a Exp,
}

/// Where an evaluation stands.
#[derive(Drop)]
pub struct Place<'a> {
    /// The functions of the program, of which the first with a name counts.
    pub functions: &'a [Function<'a>],
    /// The names of types that are known in the body that is evaluated.
    pub known: &'a [(Name, Ty)],
    /// The depth that calls have left.
    pub depth: u64,
    /// How many calls may still stand inside one another on the stack.
    pub near: u64,
    /// Calls that were made before.
    pub answers: &'a [Answer],
}

/// The first function with the name, or None exactly where there is none.
pub fn function_named<'a>(functions: &'a [Function<'a>], f: Name) -> Option<&'a Function<'a>>
    ensures named { IfSome result (λ b. body_of b.now ≡ function_named (map body_of functions.now) f.0) }
    ensures light { IfSome result (λ b. weight (body_of b.now).body ≤ heaviest functions.now) }
    ensures none { IfNone result (function_named (map body_of functions.now) f.0 ≡ no_function) }
{
    match functions.split_first() {
        None => None,
        Some((function, others)) => {
            if f.0 == function.name.0 {
                Some(function)
            } else {
                function_named(others, f)
            }
        }
    }
}
