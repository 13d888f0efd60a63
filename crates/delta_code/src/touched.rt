//! On which of the names that are awaited something comes.

ghost use Rattle.std.specs.Prelude.{◌≡◌, ◌++◌, ◌∷◌, [], true, List, map};
ghost use Rattle.stream_type.specs.StreamType.{type_of};
ghost use Rattle.stream_prefix.specs.StreamPrefix.{emp, star_emp};
ghost use Rattle.stream_prefix.specs.Tree.{prefix_of, end_of, star_of};
ghost use Rattle.delta_state.specs.StateTree.{HeldName};
ghost use Rattle.machine_parts.specs.AwaitedTree.{awaited_in, entries_on};
ghost use Rattle.delta_code.specs.Beside.{Tells};

use bunch::Name;
use machine_parts::awaited::Awaited;
use stream_prefix::{Prefix, StarEnd};
use stream_type::Ty;

/// On which of the names that are awaited something comes, as far as they stand beside each other.
#[derive(Clone, Copy)]
pub enum Touch {
    /// On none.
    Nothing,
    /// On no other than this one.
    One(Name),
    /// Perhaps on more than one.
    Many,
}

/// On which names this comes: `Tells` in `specs/Beside.antt`. Where names are awaited in turn nothing is told.
pub fn touched(awaited: &Awaited, next: &Prefix) -> Touch
    ensures { Tells result (entries_on (awaited_in awaited.now) (prefix_of next.now)) }
{
    match awaited {
        Awaited::Nothing => Touch::Nothing,
        Awaited::Stream(x, t) => name_touched(*x, t, next),
        Awaited::AtOnce(a, b) => match next {
            Prefix::Par(d, e) => either(touched(a, d), touched(b, e)),
            _ => Touch::Many,
        },
        Awaited::InTurn(_, _, _) => Touch::Many,
    }
}

// Whether something comes on a name.
fn name_touched(x: Name, t: &Ty, next: &Prefix) -> Touch
    ensures { Tells result (record { name = x.0; type = type_of t.now; prefix = prefix_of next.now } ∷ []) }
{
    if is_still(t, next) {
        Touch::Nothing
    } else {
        Touch::One(x)
    }
}

// What two lists tell of both.
fn either(one: Touch, other: Touch) -> Touch
    ensures { (entries more : List HeldName) → Tells one entries → Tells other more → Tells result (entries ++ more) }
{
    match one {
        Touch::Nothing => other,
        Touch::One(x) => match other {
            Touch::Nothing => Touch::One(x),
            Touch::One(_) | Touch::Many => Touch::Many,
        },
        Touch::Many => Touch::Many,
    }
}

// Whether nothing came of a stream of this type.
fn is_still(t: &Ty, p: &Prefix) -> bool
    ensures { result ≡ true → prefix_of p.now ≡ emp (type_of t.now) }
{
    match t {
        Ty::Eps => matches!(p, Prefix::EpsEmp),
        Ty::One => matches!(p, Prefix::OneEmp),
        Ty::Int => matches!(p, Prefix::IntEmp),
        Ty::Cat(s, _) => match p {
            Prefix::CatFst(q) => is_still(s, q),
            _ => false,
        },
        Ty::Par(s, u) => match p {
            Prefix::Par(q, r) => is_still(s, q) && is_still(u, r),
            _ => false,
        },
        Ty::Sum(_, _) => matches!(p, Prefix::SumEmp),
        Ty::Star(_) => match p {
            Prefix::Star(items, end) => none_came(items, end),
            _ => false,
        },
    }
}

// Whether nothing came of a star: neither an item, nor its end.
fn none_came(items: &[Prefix], end: &StarEnd) -> bool
    ensures { result ≡ true → star_of (map prefix_of items.now) (end_of end.now) ≡ star_emp }
{
    items.is_empty() && matches!(end, StarEnd::Emp)
}
