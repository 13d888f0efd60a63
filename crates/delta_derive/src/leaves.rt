//! The leaf of a name in a bunch.

ghost use Rattle.std.specs.Prelude.{◌≡◌, option_map};
ghost use Rattle.stream_type.specs.StreamType.{type_of};
ghost use Rattle.bunch.specs.BunchTree.{tree_of};
ghost use Rattle.delta_derive.specs.Rearranged.{has_leaf, leaf_type, with_leaf};

use crate::trees::put;
use crate::types::is_same;
use bunch::{Bunch, Name};
use stream_type::Ty;

/// Whether `x` stands in the bunch with the type `t`: `has_leaf` in `specs/Rearranged.antt`.
pub fn has_leaf(b: &Bunch, x: Name, t: &Ty) -> bool
    ensures { result ≡ has_leaf (tree_of b.now) x.0 (type_of t.now) }
{
    match b {
        Bunch::Empty => false,
        Bunch::Leaf(z, s) => z.0 == x.0 && is_same(s, t),
        Bunch::Comma(a, b) | Bunch::Semi(a, b) => has_leaf(a, x, t) || has_leaf(b, x, t),
    }
}

/// The type of the leaf of `z`, or None where there is none: `leaf_type` in `specs/Rearranged.antt`.
pub fn leaf_type(b: &Bunch, z: Name) -> Option<&Ty>
    ensures { option_map (λ t. type_of t.now) result ≡ leaf_type z.0 (tree_of b.now) }
{
    match b {
        Bunch::Empty => None,
        Bunch::Leaf(x, t) => { if z.0 == x.0 { Some(t) } else { None } }
        Bunch::Comma(a, b) | Bunch::Semi(a, b) => match leaf_type(a, z) {
            Some(t) => Some(t),
            None => leaf_type(b, z),
        },
    }
}

/// Puts a part into the place of the leaf of `z`: `with_leaf` in `specs/Rearranged.antt`.
pub fn put_leaf(b: &mut Bunch, z: Name, part: Box<Bunch>)
    ensures { tree_of b.new ≡ with_leaf z.0 (tree_of part.value) (tree_of b.old) }
{
    match b {
        Bunch::Empty => {}
        Bunch::Leaf(x, _) => {
            if z.0 == x.0 {
                put(b, part);
            }
        }
        Bunch::Comma(left, right) => {
            if leaf_type(left, z).is_some() {
                put_leaf(left, z, part);
            } else {
                put_leaf(right, z, part);
            }
        }
        Bunch::Semi(left, right) => {
            if leaf_type(left, z).is_some() {
                put_leaf(left, z, part);
            } else {
                put_leaf(right, z, part);
            }
        }
    }
}
