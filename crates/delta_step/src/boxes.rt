//! Programs, prefixes and states in boxes of their own.

ghost use Rattle.std.specs.Prelude.{◌≡◌, IfOk};
ghost use Rattle.core_term.specs.CoreTerm.{core_of};

use crate::marked::Marked;
use core_term::{Core, copy_core};
use machine_parts::results::boxed;
use std::alloc::Global;
use stream_prefix::Prefix;
use stream_type::Memory;

/// An equal program. Its only error is want of memory.
pub fn core_boxed(alloc: Global, c: &Core) -> Result<Box<Core>, Memory>
    ensures { IfOk result (λ r. core_of r.value ≡ core_of c.now) }
{
    boxed(alloc, copy_core(alloc, c))
}

/// A prefix in a box. Its only error is want of memory.
#[inline(never)]
pub fn prefix_boxed(alloc: Global, p: Prefix) -> Result<Box<Prefix>, Memory>
    ensures { IfOk result (λ r. r.value ≡ p) }
{
    Ok(Box::new(alloc, p)?)
}

/// A state in a box. Its only error is want of memory.
#[inline(never)]
pub fn state_boxed(alloc: Global, s: Marked) -> Result<Box<Marked>, Memory>
    ensures { IfOk result (λ r. r.value ≡ s) }
{
    Ok(Box::new(alloc, s)?)
}
