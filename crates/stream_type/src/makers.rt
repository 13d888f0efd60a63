//! The makers: a type from its parts, which they take over. On want of memory the parts are dropped.

ghost use Rattle.std.specs.Prelude.{◌≡◌, IfOk};
ghost use Rattle.stream_type.specs.StreamType.{type_of, cat, par, sum, star};

use crate::memory::Memory;
use crate::ty::Ty;
use std::alloc::Global;

/// The type `a . b`. Its only error is want of memory.
pub fn cat(alloc: Global, a: Ty, b: Ty) -> Result<Ty, Memory>
    ensures { IfOk result (λ t. type_of t ≡ cat (type_of a) (type_of b)) }
{
    Ok(Ty::Cat(Box::new(alloc, a)?, Box::new(alloc, b)?))
}

/// The type `a || b`. Its only error is want of memory.
pub fn par(alloc: Global, a: Ty, b: Ty) -> Result<Ty, Memory>
    ensures { IfOk result (λ t. type_of t ≡ par (type_of a) (type_of b)) }
{
    Ok(Ty::Par(Box::new(alloc, a)?, Box::new(alloc, b)?))
}

/// The type `a + b`. Its only error is want of memory.
pub fn sum(alloc: Global, a: Ty, b: Ty) -> Result<Ty, Memory>
    ensures { IfOk result (λ t. type_of t ≡ sum (type_of a) (type_of b)) }
{
    Ok(Ty::Sum(Box::new(alloc, a)?, Box::new(alloc, b)?))
}

/// The type `a*`. Its only error is want of memory.
pub fn star(alloc: Global, a: Ty) -> Result<Ty, Memory>
    ensures { IfOk result (λ t. type_of t ≡ star (type_of a)) }
{
    Ok(Ty::Star(Box::new(alloc, a)?))
}
