//! Equal types: one more of them, and the test.

ghost use Rattle.std.specs.Prelude.{◌≡◌, ◌↔◌, IfOk, IsTrue};
ghost use Rattle.stream_type.specs.StreamType.{type_of};

use crate::makers::{cat, par, star, sum};
use crate::memory::Memory;
use crate::ty::Ty;
use std::alloc::Global;

/// An equal type. Its only error is want of memory.
pub fn copy(alloc: Global, t: &Ty) -> Result<Ty, Memory>
    ensures { IfOk result (λ r. type_of r ≡ type_of t.now) }
{
    match t {
        Ty::Eps => Ok(Ty::Eps),
        Ty::One => Ok(Ty::One),
        Ty::Int => Ok(Ty::Int),
        Ty::Cat(a, b) => cat(alloc, copy(alloc, a)?, copy(alloc, b)?),
        Ty::Par(a, b) => par(alloc, copy(alloc, a)?, copy(alloc, b)?),
        Ty::Sum(a, b) => sum(alloc, copy(alloc, a)?, copy(alloc, b)?),
        Ty::Star(a) => star(alloc, copy(alloc, a)?),
    }
}

/// Whether two types are equal.
pub fn same(a: &Ty, b: &Ty) -> bool
    ensures { IsTrue result ↔ (type_of a.now ≡ type_of b.now) }
{
    match (a, b) {
        (Ty::Eps, Ty::Eps) | (Ty::One, Ty::One) | (Ty::Int, Ty::Int) => true,
        (Ty::Cat(a, b), Ty::Cat(c, d)) => same(a, c) && same(b, d),
        (Ty::Par(a, b), Ty::Par(c, d)) => same(a, c) && same(b, d),
        (Ty::Sum(a, b), Ty::Sum(c, d)) => same(a, c) && same(b, d),
        (Ty::Star(a), Ty::Star(b)) => same(a, b),
        _ => false,
    }
}
