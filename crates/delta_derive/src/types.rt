//! Tests on types.

ghost use Rattle.std.specs.Prelude.{◌≡◌, ◌&&◌, not};
ghost use Rattle.stream_type.specs.StreamType.{type_of, null_of};
ghost use Rattle.core_term.specs.Parts.{is_same_type, is_star};

use stream_type::{Ty, null, same};

/// Whether two types are equal: `is_same_type` in the specs of core_term.
pub fn is_same(a: &Ty, b: &Ty) -> bool
    ensures { result ≡ is_same_type (type_of a.now) (type_of b.now) }
{
    same(a, b)
}

/// Whether it is a star: `is_star` in the specs of core_term.
pub fn is_star(t: &Ty) -> bool
    ensures { result ≡ is_star (type_of t.now) }
{
    match t {
        Ty::Star(_) => true,
        _ => false,
    }
}

/// Whether a wait on a stream of type `t` may give what is wanted, where it is said to give `r`: the stream isn't null.
pub fn may_wait(t: &Ty, r: &Ty, wanted: &Ty) -> bool
    ensures { result ≡ (not (null_of (type_of t.now)) && is_same_type (type_of r.now) (type_of wanted.now)) }
{
    if null(t) {
        return false;
    }
    is_same(r, wanted)
}
