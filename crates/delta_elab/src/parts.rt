//! Expected types and their parts. None stands for `eps`: where a type hasn't the form that is asked for,
//! its parts are `eps`, and there is no such type to refer to.

ghost use Rattle.std.specs.Prelude.{◌≡◌, IfOk};
ghost use Rattle.stream_type.specs.StreamType.{type_of};
ghost use Rattle.core_term.specs.Parts.{par_left, par_right, cat_first, cat_second, sum_left, sum_right, star_item, star_items};
ghost use Rattle.delta_elab.specs.Wanted.{wanted_of};

use std::alloc::Global;
use stream_type::{Memory, Ty};

/// One more of an expected type. Its only error is want of memory.
pub fn copy_wanted(alloc: Global, t: Option<&Ty>) -> Result<Ty, Memory>
    ensures { IfOk result (λ r. type_of r ≡ wanted_of t.entry) }
{
    match t {
        None => Ok(Ty::Eps),
        Some(t) => stream_type::copy(alloc, t),
    }
}

/// The first of two types at once.
pub fn par_left(t: Option<&Ty>) -> Option<&Ty>
    ensures { wanted_of result ≡ par_left (wanted_of t.entry) }
{
    match t? {
        Ty::Par(a, _) => Some(a),
        Ty::Eps | Ty::One | Ty::Int | Ty::Cat(_, _) | Ty::Sum(_, _) | Ty::Star(_) => None,
    }
}

/// The second of two types at once.
pub fn par_right(t: Option<&Ty>) -> Option<&Ty>
    ensures { wanted_of result ≡ par_right (wanted_of t.entry) }
{
    match t? {
        Ty::Par(_, b) => Some(b),
        Ty::Eps | Ty::One | Ty::Int | Ty::Cat(_, _) | Ty::Sum(_, _) | Ty::Star(_) => None,
    }
}

/// The first of two types in a row.
pub fn cat_first(t: Option<&Ty>) -> Option<&Ty>
    ensures { wanted_of result ≡ cat_first (wanted_of t.entry) }
{
    match t? {
        Ty::Cat(a, _) => Some(a),
        Ty::Eps | Ty::One | Ty::Int | Ty::Par(_, _) | Ty::Sum(_, _) | Ty::Star(_) => None,
    }
}

/// The second of two types in a row.
pub fn cat_second(t: Option<&Ty>) -> Option<&Ty>
    ensures { wanted_of result ≡ cat_second (wanted_of t.entry) }
{
    match t? {
        Ty::Cat(_, b) => Some(b),
        Ty::Eps | Ty::One | Ty::Int | Ty::Par(_, _) | Ty::Sum(_, _) | Ty::Star(_) => None,
    }
}

/// The left type of a sum.
pub fn sum_left(t: Option<&Ty>) -> Option<&Ty>
    ensures { wanted_of result ≡ sum_left (wanted_of t.entry) }
{
    match t? {
        Ty::Sum(a, _) => Some(a),
        Ty::Eps | Ty::One | Ty::Int | Ty::Cat(_, _) | Ty::Par(_, _) | Ty::Star(_) => None,
    }
}

/// The right type of a sum.
pub fn sum_right(t: Option<&Ty>) -> Option<&Ty>
    ensures { wanted_of result ≡ sum_right (wanted_of t.entry) }
{
    match t? {
        Ty::Sum(_, b) => Some(b),
        Ty::Eps | Ty::One | Ty::Int | Ty::Cat(_, _) | Ty::Par(_, _) | Ty::Star(_) => None,
    }
}

/// The type of a star's items.
pub fn star_item(t: Option<&Ty>) -> Option<&Ty>
    ensures { wanted_of result ≡ star_item (wanted_of t.entry) }
{
    match t? {
        Ty::Star(a) => Some(a),
        Ty::Eps | Ty::One | Ty::Int | Ty::Cat(_, _) | Ty::Par(_, _) | Ty::Sum(_, _) => None,
    }
}

/// The type of what follows a star's item.
pub fn star_items(t: Option<&Ty>) -> Option<&Ty>
    ensures { wanted_of result ≡ star_items (wanted_of t.entry) }
{
    match t? {
        Ty::Star(_) => t,
        Ty::Eps | Ty::One | Ty::Int | Ty::Cat(_, _) | Ty::Par(_, _) | Ty::Sum(_, _) => None,
    }
}
