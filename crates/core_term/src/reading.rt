//! What a program says: its functions by number, and whether its types are low enough.

ghost use Rattle.std.specs.Prelude.{◌≡◌, nat_le, ◌<◌, true, false, IfSome, IfNone};
ghost use Rattle.stream_type.specs.StreamType.{type_of, height_of};
ghost use Rattle.bunch.specs.BunchTree.{tree_of, as_type};
ghost use Rattle.core_term.specs.CoreTerm.{core_body_of, core_of, fun_at, is_there, fits_of};

use crate::program::{Body, Core};
use bunch::Bunch;
use stream_type::Ty;

/// The most nodes that stand on a way from the root of main's input type, or of its result, to a leaf.
const HEIGHT: u32 = 64;

/// The function with this number, or None exactly where there is none: `fun_at` and `is_there` in
/// `specs/CoreTerm.antt`.
pub fn body_of(c: &Core, f: u32) -> Option<&Body>
    ensures there { IfSome result (λ _. is_there (core_of c.now).funs f ≡ true) }
    ensures body { IfSome result (λ b. core_body_of b.now ≡ fun_at (core_of c.now).funs f) }
    ensures none { IfNone result (is_there (core_of c.now).funs f ≡ false) }
{
    c.funs.get(f as usize)
}

/// Whether main's input type and result are at most 64 high: `fits_of` in `specs/CoreTerm.antt`.
pub fn fits(c: &Core) -> bool
    ensures { result ≡ fits_of (core_of c.now) }
{
    is_low_bunch(&c.main.params, HEIGHT) && is_low(&c.main.result, HEIGHT)
}

// Whether the bunch as one type is at most so high.
fn is_low_bunch(b: &Bunch, height: u32) -> bool
    ensures { result ≡ nat_le (height_of (as_type (tree_of b.now))) height }
{
    match b {
        Bunch::Empty => height > 0,
        Bunch::Leaf(_, t) => is_low(t, height),
        Bunch::Comma(a, b) | Bunch::Semi(a, b) => {
            height > 0 && is_low_bunch(a, height - 1) && is_low_bunch(b, height - 1)
        }
    }
}

/// Whether the type is at most so high.
pub fn is_low(t: &Ty, height: u32) -> bool
    ensures { result ≡ nat_le (height_of (type_of t.now)) height }
{
    match t {
        Ty::Eps | Ty::One | Ty::Int => height > 0,
        Ty::Cat(a, b) | Ty::Par(a, b) | Ty::Sum(a, b) => {
            height > 0 && is_low(a, height - 1) && is_low(b, height - 1)
        }
        Ty::Star(a) => height > 0 && is_low(a, height - 1),
    }
}
