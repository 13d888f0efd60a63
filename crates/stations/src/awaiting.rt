//! What is awaited of the input, compared and copied.

ghost use Rattle.std.specs.Prelude.{◌≡◌, ◌↔◌, IfOk, IsTrue};
ghost use Rattle.stream_type.specs.StreamType.{StreamType, type_of};
ghost use Rattle.machine_parts.specs.AwaitedTree.{AwaitedTree, awaited_in, stream_awaited, both_awaited, turns_awaited};

use bunch::Name;
use machine_parts::awaited::Awaited;
use machine_parts::results::{boxed, pair};
use std::alloc::Global;
use stream_type::{Memory, Ty, same};

/// Whether the same is awaited.
pub fn same_awaited(a: &Awaited, b: &Awaited) -> bool
    ensures { IsTrue result ↔ (awaited_in a.now ≡ awaited_in b.now) }
{
    match (a, b) {
        (Awaited::Nothing, Awaited::Nothing) => true,
        (Awaited::Stream(x, s), Awaited::Stream(y, t)) => x == y && same(s, t),
        (Awaited::AtOnce(a, b), Awaited::AtOnce(c, d)) => {
            same_awaited(a, c) && same_awaited(b, d)
        }
        (Awaited::InTurn(m, a, b), Awaited::InTurn(n, c, d)) => {
            m == n && same_awaited(a, c) && same_awaited(b, d)
        }
        _ => false,
    }
}

/// The same, awaited by another. Its only error is want of memory.
pub fn copy_awaited(alloc: Global, a: &Awaited) -> Result<Box<Awaited>, Memory>
    ensures { IfOk result (λ r. awaited_in r.value ≡ awaited_in a.now) }
{
    match a {
        Awaited::Nothing => boxed(alloc, Ok(Awaited::Nothing)),
        Awaited::Stream(x, t) => stream(alloc, *x, stream_type::copy(alloc, t)),
        Awaited::AtOnce(a, b) => at_once(alloc, copy_awaited(alloc, a), copy_awaited(alloc, b)),
        Awaited::InTurn(cut, a, b) => in_turn(
            alloc,
            *cut,
            copy_awaited(alloc, a),
            copy_awaited(alloc, b),
        ),
    }
}

// A name, with what is left of its type.
fn stream(alloc: Global, x: Name, t: Result<Ty, Memory>) -> Result<Box<Awaited>, Memory>
    ensures { (s : StreamType) → IfOk t (λ r. type_of r ≡ s) → IfOk result (λ r. awaited_in r.value ≡ stream_awaited x.0 s) }
{
    match t {
        Ok(t) => boxed(alloc, Ok(Awaited::Stream(x, t))),
        Err(Memory) => Err(Memory),
    }
}

// Both at once.
fn at_once(
    alloc: Global,
    first: Result<Box<Awaited>, Memory>,
    second: Result<Box<Awaited>, Memory>,
) -> Result<Box<Awaited>, Memory>
    ensures { (a b : AwaitedTree) → IfOk first (λ r. awaited_in r.value ≡ a) → IfOk second (λ r. awaited_in r.value ≡ b)
        → IfOk result (λ r. awaited_in r.value ≡ both_awaited a b) }
{
    match pair(first, second) {
        Ok((a, b)) => boxed(alloc, Ok(Awaited::AtOnce(a, b))),
        Err(Memory) => Err(Memory),
    }
}

// One after the other.
fn in_turn(
    alloc: Global,
    cut: bool,
    first: Result<Box<Awaited>, Memory>,
    second: Result<Box<Awaited>, Memory>,
) -> Result<Box<Awaited>, Memory>
    ensures { (a b : AwaitedTree) → IfOk first (λ r. awaited_in r.value ≡ a) → IfOk second (λ r. awaited_in r.value ≡ b)
        → IfOk result (λ r. awaited_in r.value ≡ turns_awaited cut a b) }
{
    match pair(first, second) {
        Ok((a, b)) => boxed(alloc, Ok(Awaited::InTurn(cut, a, b))),
        Err(Memory) => Err(Memory),
    }
}
