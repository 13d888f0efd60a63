//! What a machine keeps of types and of an event, each in a box of its own.

ghost use Rattle.std.specs.Prelude.{◌≡◌, IfOk};
ghost use Rattle.stream_type.specs.StreamType.{type_of};
ghost use Rattle.stream_prefix.specs.StreamPrefix.{der};
ghost use Rattle.stream_prefix.specs.Tree.{prefix_of};
ghost use Rattle.event_word.specs.Admits.{Admits};
ghost use Rattle.event_word.specs.Word.{one_of};

use crate::holding::left;
use event_word::{Event, one};
use std::alloc::Global;
use stream_prefix::Prefix;
use stream_type::{Memory, Ty};

/// What is left of a type after a prefix of it. What is no prefix of it counts as want of memory.
pub fn left_boxed(alloc: Global, t: &Ty, p: &Prefix) -> Result<Box<Ty>, Memory>
    ensures { IfOk result (λ r. type_of r.value ≡ der (prefix_of p.now) (type_of t.now)) }
{
    let rest = left(alloc, t, p)?;
    Ok(Box::new(alloc, rest)?)
}

/// An equal type. Its only error is want of memory.
pub fn copy_boxed(alloc: Global, t: &Ty) -> Result<Box<Ty>, Memory>
    ensures { IfOk result (λ r. type_of r.value ≡ type_of t.now) }
{
    let copy = stream_type::copy(alloc, t)?;
    Ok(Box::new(alloc, copy)?)
}

/// An event as a prefix of the type that admits it. Its only error is want of memory.
pub fn event_boxed(alloc: Global, t: &Ty, x: &Event) -> Result<Box<Prefix>, Memory>
    requires { Admits (type_of t.now) x.now }
    ensures { IfOk result (λ p. prefix_of p.value ≡ one_of x.now (type_of t.now)) }
{
    let next = one(alloc, t, x)?;
    Ok(Box::new(alloc, next)?)
}
