//! What a bunch says: its names, its order and its type, and one more of it.

ghost use Rattle.std.specs.Prelude.{◌≡◌, ◌++◌, IfOk, OnOk};
ghost use Rattle.stream_type.specs.StreamType.{type_of};
ghost use Rattle.bunch.specs.Names.{numbers_of, holds};
ghost use Rattle.bunch.specs.BunchTree.{tree_of, leaf_names, as_type, stands_before};

use crate::bunch::Bunch;
use crate::name::Name;
use std::alloc::Global;
use stream_type::{Memory, Ty};

/// Whether `x` stands left of some semicolon whose right side holds `y`: `stands_before` in
/// `specs/BunchTree.antt`.
pub fn before(b: &Bunch, x: Name, y: Name) -> bool
    ensures { result ≡ stands_before (tree_of b.now) x.0 y.0 }
{
    match b {
        Bunch::Empty | Bunch::Leaf(_, _) => false,
        Bunch::Comma(a, b) => before(a, x, y) || before(b, x, y),
        Bunch::Semi(a, b) => (has(a, x) && has(b, y)) || (before(a, x, y) || before(b, x, y)),
    }
}

// Whether the name stands in the bunch.
#[tactic(auto, using(crate::proofs::NameLists::name_lists))]
fn has(b: &Bunch, x: Name) -> bool
    ensures { result ≡ holds x.0 (leaf_names (tree_of b.now)) }
{
    match b {
        Bunch::Empty => false,
        Bunch::Leaf(y, _) => x.0 == y.0,
        Bunch::Comma(a, b) | Bunch::Semi(a, b) => has(a, x) || has(b, x),
    }
}

/// The bunch as one type: a comma is `||`, a semicolon is `.`, and no name is `eps`. Its only error
/// is want of memory.
pub fn as_type(alloc: Global, b: &Bunch) -> Result<Ty, Memory>
    ensures { IfOk result (λ t. type_of t ≡ as_type (tree_of b.now)) }
{
    match b {
        Bunch::Empty => Ok(Ty::Eps),
        Bunch::Leaf(_, t) => stream_type::copy(alloc, t),
        Bunch::Comma(a, b) => stream_type::par(alloc, as_type(alloc, a)?, as_type(alloc, b)?),
        Bunch::Semi(a, b) => stream_type::cat(alloc, as_type(alloc, a)?, as_type(alloc, b)?),
    }
}

/// The names, from left to right. Its only error is want of memory.
pub fn names(alloc: Global, b: &Bunch) -> Result<Vec<Name>, Memory>
    ensures { IfOk result (λ v. numbers_of v.items ≡ leaf_names (tree_of b.now)) }
{
    let mut found = Vec::new(alloc);
    add_names(b, &mut found)?;
    Ok(found)
}

// Puts the names of the bunch at the end of those found.
#[tactic(auto, using(crate::proofs::NameLists::name_lists))]
fn add_names(b: &Bunch, found: &mut Vec<Name>) -> Result<(), Memory>
    ensures { OnOk result
        (numbers_of found.new.items ≡ numbers_of found.old.items ++ leaf_names (tree_of b.now)) }
{
    match b {
        Bunch::Empty => {}
        Bunch::Leaf(x, _) => found.push(*x)?,
        Bunch::Comma(a, b) | Bunch::Semi(a, b) => {
            add_names(a, found)?;
            add_names(b, found)?;
        }
    }
    Ok(())
}

/// An equal bunch. Its only error is want of memory.
pub fn copy(alloc: Global, b: &Bunch) -> Result<Bunch, Memory>
    ensures { IfOk result (λ r. tree_of r ≡ tree_of b.now) }
{
    match b {
        Bunch::Empty => Ok(Bunch::Empty),
        Bunch::Leaf(x, t) => Ok(Bunch::Leaf(*x, stream_type::copy(alloc, t)?)),
        Bunch::Comma(a, b) => {
            let (left, right) = (copy(alloc, a)?, copy(alloc, b)?);
            Ok(Bunch::Comma(Box::new(alloc, left)?, Box::new(alloc, right)?))
        }
        Bunch::Semi(a, b) => {
            let (first, second) = (copy(alloc, a)?, copy(alloc, b)?);
            Ok(Bunch::Semi(Box::new(alloc, first)?, Box::new(alloc, second)?))
        }
    }
}
