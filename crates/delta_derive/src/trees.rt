//! Bunches made of others.

ghost use Rattle.std.specs.Prelude.{◌≡◌, IfOk, IsOkAnd};
ghost use Rattle.stream_type.specs.StreamType.{type_of};
ghost use Rattle.bunch.specs.BunchTree.{tree_of, comma, semi, leaf};
ghost use Rattle.delta_derive.specs.Claims.{beside};

use bunch::{Bunch, Name, copy};
use std::alloc::Global;
use std::mem;
use stream_type::{Memory, Ty};

/// Puts another bunch in the place of one.
pub fn put(b: &mut Bunch, mut part: Box<Bunch>)
    ensures { tree_of b.new ≡ tree_of part.value }
{
    mem::swap(b, &mut part);
}

/// A bunch in a box. Its only error is want of memory.
pub fn boxed(alloc: Global, b: Bunch) -> Result<Box<Bunch>, Memory>
    ensures { IfOk result (λ c. c.value ≡ b) }
{
    Ok(Box::new(alloc, b)?)
}

/// A bunch like another. Its only error is want of memory.
pub fn copied(alloc: Global, b: &Bunch) -> Result<Box<Bunch>, Memory>
    ensures { IfOk result (λ c. tree_of c.value ≡ tree_of b.now) }
{
    match copy(alloc, b) {
        Ok(b) => boxed(alloc, b),
        Err(memory) => Err(memory),
    }
}

/// A leaf. Its only error is want of memory.
pub fn leaf(alloc: Global, x: Name, t: &Ty) -> Result<Box<Bunch>, Memory>
    ensures { IfOk result (λ b. tree_of b.value ≡ leaf x.0 (type_of t.now)) }
{
    match stream_type::copy(alloc, t) {
        Ok(ty) => boxed(alloc, Bunch::Leaf(x, ty)),
        Err(memory) => Err(memory),
    }
}

/// `a, b`. Its only error is want of memory.
pub fn comma(alloc: Global, a: Box<Bunch>, b: Box<Bunch>) -> Result<Box<Bunch>, Memory>
    ensures { IfOk result (λ c. tree_of c.value ≡ comma (tree_of a.value) (tree_of b.value)) }
{
    boxed(alloc, Bunch::Comma(a, b))
}

/// `a; b`. Its only error is want of memory.
pub fn semi(alloc: Global, a: Box<Bunch>, b: Box<Bunch>) -> Result<Box<Bunch>, Memory>
    ensures { IfOk result (λ c. tree_of c.value ≡ semi (tree_of a.value) (tree_of b.value)) }
{
    boxed(alloc, Bunch::Semi(a, b))
}

// `a, b` of what was made of both.
fn side_by_side(
    alloc: Global,
    left: Result<Box<Bunch>, Memory>,
    right: Result<Box<Bunch>, Memory>,
) -> Result<Box<Bunch>, Memory>
    ensures { IfOk result (λ c. IsOkAnd left (λ a. IsOkAnd right (λ b. tree_of c.value ≡ comma (tree_of a.value) (tree_of b.value)))) }
{
    match left {
        Ok(left) => match right {
            Ok(right) => comma(alloc, left, right),
            Err(memory) => {
                drop(left);
                Err(memory)
            }
        },
        Err(memory) => {
            drop(right);
            Err(memory)
        }
    }
}

// `a; b` of what was made of both.
fn in_turn(
    alloc: Global,
    left: Result<Box<Bunch>, Memory>,
    right: Result<Box<Bunch>, Memory>,
) -> Result<Box<Bunch>, Memory>
    ensures { IfOk result (λ c. IsOkAnd left (λ a. IsOkAnd right (λ b. tree_of c.value ≡ semi (tree_of a.value) (tree_of b.value)))) }
{
    match left {
        Ok(left) => match right {
            Ok(right) => semi(alloc, left, right),
            Err(memory) => {
                drop(left);
                Err(memory)
            }
        },
        Err(memory) => {
            drop(right);
            Err(memory)
        }
    }
}

/// What was made of a part, beside `z`. Its only error is want of memory.
pub fn beside(
    alloc: Global,
    z: Name,
    whole: &Ty,
    part: Result<Box<Bunch>, Memory>,
) -> Result<Box<Bunch>, Memory>
    ensures { IfOk result (λ b. IsOkAnd part (λ w. tree_of b.value ≡ beside z.0 (type_of whole.now) (tree_of w.value))) }
{
    side_by_side(alloc, leaf(alloc, z, whole), part)
}

/// The leaf of `x` beside a bunch like `d`. Its only error is want of memory.
pub fn single_beside(alloc: Global, d: &Bunch, x: Name, s: &Ty) -> Result<Box<Bunch>, Memory>
    ensures { IfOk result (λ b. tree_of b.value ≡ comma (tree_of d.now) (leaf x.0 (type_of s.now))) }
{
    side_by_side(alloc, copied(alloc, d), leaf(alloc, x, s))
}

/// `x, y` beside `z`. Its only error is want of memory.
pub fn pair(
    alloc: Global,
    z: Name,
    whole: &Ty,
    x: Name,
    s: &Ty,
    y: Name,
    t: &Ty,
) -> Result<Box<Bunch>, Memory>
    ensures { IfOk result (λ b. tree_of b.value ≡ beside z.0 (type_of whole.now) (comma (leaf x.0 (type_of s.now)) (leaf y.0 (type_of t.now)))) }
{
    let sides = side_by_side(alloc, leaf(alloc, x, s), leaf(alloc, y, t));
    beside(alloc, z, whole, sides)
}

/// `x; y` beside `z`. Its only error is want of memory.
pub fn sequence(
    alloc: Global,
    z: Name,
    whole: &Ty,
    x: Name,
    s: &Ty,
    y: Name,
    t: &Ty,
) -> Result<Box<Bunch>, Memory>
    ensures { IfOk result (λ b. tree_of b.value ≡ beside z.0 (type_of whole.now) (semi (leaf x.0 (type_of s.now)) (leaf y.0 (type_of t.now)))) }
{
    let sides = in_turn(alloc, leaf(alloc, x, s), leaf(alloc, y, t));
    beside(alloc, z, whole, sides)
}
