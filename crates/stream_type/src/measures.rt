//! Whether a type is null, how high it is, and how far its events reach.

ghost use Rattle.std.specs.Prelude.{◌≡◌, ◌^◌, ◌<◌};
ghost use Rattle.stream_type.specs.StreamType.{type_of, null_of, height_of, reach_of, size_of};

use crate::ty::Ty;

/// Whether nothing can come on a stream of this type: `null_of` in `specs/StreamType.antt`.
pub fn null(t: &Ty) -> bool
    ensures { result ≡ null_of (type_of t.now) }
{
    match t {
        Ty::Eps => true,
        Ty::Par(a, b) => null(a) && null(b),
        Ty::One | Ty::Int | Ty::Cat(_, _) | Ty::Sum(_, _) | Ty::Star(_) => false,
    }
}

/// The number of nodes on the longest way from the root to a leaf, both counted: `height_of` in
/// `specs/StreamType.antt`. The tree has fewer than 2^32 nodes.
#[tactic(auto, using(crate::proofs::Bounds::bounds))]
pub fn height(t: &Ty) -> u32
    requires { size_of (type_of t.now) < 2 ^ 32 }
    ensures { result ≡ height_of (type_of t.now) }
{
    match t {
        Ty::Eps | Ty::One | Ty::Int => 1,
        Ty::Cat(a, b) | Ty::Par(a, b) | Ty::Sum(a, b) => 1 + height(a).max(height(b)),
        Ty::Star(a) => 1 + height(a),
    }
}

/// The greatest number of steps that an event's path may have on a stream of this type:
/// `reach_of` in `specs/StreamType.antt`. The tree has fewer than 2^32 nodes.
#[tactic(auto, using(crate::proofs::Bounds::bounds))]
pub fn reach(t: &Ty) -> u32
    requires { size_of (type_of t.now) < 2 ^ 32 }
    ensures { result ≡ reach_of (type_of t.now) }
{
    match t {
        Ty::Eps | Ty::One | Ty::Int => 0,
        Ty::Cat(a, b) => (1 + reach(a)).max(reach(b)),
        Ty::Par(a, b) => 1 + reach(a).max(reach(b)),
        Ty::Sum(a, b) => reach(a).max(reach(b)),
        Ty::Star(a) => 1 + reach(a),
    }
}
