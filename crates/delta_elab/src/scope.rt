//! The number and the type of each name of the source that is bound around an expression.

ghost use Rattle.std.specs.Prelude.{◌≡◌, true, false, IfSome, IfNone};
ghost use Rattle.bunch.specs.Names.{holds};
ghost use Rattle.bunch.specs.BunchTree.{tree_of, leaf_names};
ghost use Rattle.core_term.specs.Agreement.{types_in};
ghost use Rattle.delta_elab.specs.Numbering.{numbers_in, numbers_at, number_entries, name_types_in};
ghost use Rattle.delta_elab.specs.Wanted.{wanted_of};

use bunch::{Bunch, Name};
use stream_type::Ty;

/// The names that are bound around an expression, with their numbers in the core, and the types of
/// those that are stream names. Contracts see the numbers by `numbers_in` and the types by
/// `name_types_in` (`specs/Numbering.antt`). A name hides what stood at it before.
#[derive(Clone, Copy)]
pub enum Scope<'a> {
    /// The numbers of a function's parameters, and its stream parameters with their types.
    Params(&'a [(Name, Name)], &'a Bunch),
    /// A stream name, its number and its type, or None for `eps`.
    Stream(Name, Name, Option<&'a Ty>, &'a Scope<'a>),
    /// A name that a historical expression binds, and its number.
    Value(Name, Name, &'a Scope<'a>),
    /// The name is historical from here on.
    Waited(Name, &'a Scope<'a>),
}

/// The number of the name, or 0 where it isn't bound.
pub fn number_of(scope: &Scope<'_>, x: Name) -> Name
    ensures { result.0 ≡ numbers_in scope.now x.0 }
{
    match scope {
        Scope::Params(numbers, _) => number_at(numbers, x),
        Scope::Stream(y, n, _, outer) | Scope::Value(y, n, outer) => {
            if x.0 == y.0 { *n } else { number_of(outer, x) }
        }
        Scope::Waited(_, outer) => number_of(outer, x),
    }
}

// The number in the first entry of the name, or 0 where there is none.
fn number_at(numbers: &[(Name, Name)], x: Name) -> Name
    ensures { result.0 ≡ numbers_at (number_entries numbers.now) x.0 }
{
    for entry in numbers {
        if x.0 == entry.0.0 {
            return entry.1;
        }
    }
    Name(0)
}

/// The type of the name, or None for `eps`, as where it is no stream name.
pub fn type_of_name<'a>(scope: &Scope<'a>, x: Name) -> Option<&'a Ty>
    ensures { wanted_of result ≡ name_types_in scope.now x.0 }
{
    match scope {
        Scope::Params(_, params) => type_of_param(params, x),
        Scope::Stream(y, _, t, outer) => {
            if x.0 == y.0 {
                *t
            } else {
                type_of_name(outer, x)
            }
        }
        Scope::Value(_, _, outer) => type_of_name(outer, x),
        Scope::Waited(y, outer) => {
            if x.0 == y.0 {
                None
            } else {
                type_of_name(outer, x)
            }
        }
    }
}

// The type of the first parameter with the name, or None where there is none.
#[tactic(auto, using(bunch::proofs::NameLists::name_lists))]
fn type_of_param(params: &Bunch, x: Name) -> Option<&Ty>
    ensures is_there { IfSome result (λ _. holds x.0 (leaf_names (tree_of params.now)) ≡ true) }
    ensures is_none { IfNone result (holds x.0 (leaf_names (tree_of params.now)) ≡ false) }
    ensures value { wanted_of result ≡ types_in (tree_of params.now) x.0 }
{
    match params {
        Bunch::Empty => None,
        Bunch::Leaf(y, t) => { if x.0 == y.0 { Some(t) } else { None } }
        Bunch::Comma(a, b) | Bunch::Semi(a, b) => match type_of_param(a, x) {
            Some(t) => Some(t),
            None => type_of_param(b, x),
        },
    }
}
