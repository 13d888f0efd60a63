//! What is wrong with written types: unknown names, and types that are too high or too large. Nothing is
//! built here, since a type in which each name stands for two of the one before can't be held.

ghost use Rattle.std.specs.Prelude.{◌≡◌, ◌+◌, ◌<◌, nat_le, IfSome, IfNone, option_map};
ghost use Rattle.stream_type.specs.StreamType.{type_of, height_of, size_of};
ghost use Rattle.bunch.specs.BunchTree.{as_type};
ghost use Rattle.delta_tree.specs.Tree.{type_tree_of, context_of};
ghost use Rattle.delta_meaning.specs.TypeNames.{type_meant, params_meant};
ghost use Rattle.delta_meaning.specs.KnownTypes.{names_known};

use bunch::Name;
use core_term::is_low as is_low_type;
use delta_tree::{Ctx, TyExp, TyForm};
use stream_type::Ty;

/// The type of the last entry with the name, or None where there is none.
pub fn type_known(known: &[(Name, Ty)], x: Name) -> Option<&Ty>
    ensures { option_map (λ t. type_of t.now) result ≡ names_known known.now x.0 }
{
    let mut found = None;
    for entry in known {
        if x.0 == entry.0.0 {
            found = Some(&entry.1);
        }
    }
    found
}

/// Whether what a written type stands for is at most so high. A name that isn't known counts as `eps`.
pub fn is_low(known: &[(Name, Ty)], t: &TyExp, height: u32) -> bool
    ensures { result ≡ nat_le (height_of (type_meant (names_known known.now) (type_tree_of t.now))) height }
{
    match &*t.form {
        TyForm::Eps | TyForm::One | TyForm::Int => height > 0,
        TyForm::Named(x) => match type_known(known, *x) {
            None => height > 0,
            Some(t) => is_low_type(t, height),
        },
        TyForm::Cat(a, b) | TyForm::Par(a, b) | TyForm::Sum(a, b) => {
            height > 0 && is_low(known, a, height - 1) && is_low(known, b, height - 1)
        }
        TyForm::Star(a) => height > 0 && is_low(known, a, height - 1),
    }
}

/// Whether what written parameters stand for, as one type, is at most so high.
pub fn is_low_context(known: &[(Name, Ty)], c: &Ctx, height: u32) -> bool
    ensures { result ≡ nat_le (height_of (as_type (params_meant (names_known known.now) (context_of c.now)))) height }
{
    match c {
        Ctx::Empty => height > 0,
        Ctx::Leaf(_, t) => is_low(known, t, height),
        Ctx::Comma(a, b) | Ctx::Semi(a, b) => {
            height > 0
                && is_low_context(known, a, height - 1)
                && is_low_context(known, b, height - 1)
        }
    }
}

/// How much room is left after the nodes of what a written type stands for, or None where there isn't
/// room for them: it stops there.
pub fn room_after(known: &[(Name, Ty)], t: &TyExp, room: u32) -> Option<u32>
    ensures left { IfSome result (λ left. left + size_of (type_meant (names_known known.now) (type_tree_of t.now)) ≡ room) }
    ensures none { IfNone result (room < size_of (type_meant (names_known known.now) (type_tree_of t.now))) }
{
    match &*t.form {
        TyForm::Eps | TyForm::One | TyForm::Int => room.checked_sub(1),
        TyForm::Named(x) => match type_known(known, *x) {
            None => room.checked_sub(1),
            Some(t) => room_after_type(t, room),
        },
        TyForm::Cat(a, b) | TyForm::Par(a, b) | TyForm::Sum(a, b) => {
            room_after(known, b, room_after(known, a, room.checked_sub(1)?)?)
        }
        TyForm::Star(a) => room_after(known, a, room.checked_sub(1)?),
    }
}

// How much room is left after the nodes of the type.
fn room_after_type(t: &Ty, room: u32) -> Option<u32>
    ensures left { IfSome result (λ left. left + size_of (type_of t.now) ≡ room) }
    ensures none { IfNone result (room < size_of (type_of t.now)) }
{
    match t {
        Ty::Eps | Ty::One | Ty::Int => room.checked_sub(1),
        Ty::Cat(a, b) | Ty::Par(a, b) | Ty::Sum(a, b) => {
            room_after_type(b, room_after_type(a, room.checked_sub(1)?)?)
        }
        Ty::Star(a) => room_after_type(a, room.checked_sub(1)?),
    }
}

/// How much room is left after the nodes of what written parameters stand for as one type.
pub fn room_after_context(known: &[(Name, Ty)], c: &Ctx, room: u32) -> Option<u32>
    ensures left { IfSome result (λ left. left + size_of (as_type (params_meant (names_known known.now) (context_of c.now))) ≡ room) }
    ensures none { IfNone result (room < size_of (as_type (params_meant (names_known known.now) (context_of c.now)))) }
{
    match c {
        Ctx::Empty => room.checked_sub(1),
        Ctx::Leaf(_, t) => room_after(known, t, room),
        Ctx::Comma(a, b) | Ctx::Semi(a, b) => {
            room_after_context(
                known,
                b,
                room_after_context(known, a, room.checked_sub(1)?)?,
            )
        }
    }
}
