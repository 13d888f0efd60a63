//! Steps that rearrange a bunch in its place.

ghost use Rattle.std.specs.Prelude.{◌≡◌, map, option_map, IfOk, IsOkAnd, Some};
ghost use Rattle.bunch.specs.BunchTree.{tree_of, empty, comma, semi};
ghost use Rattle.core_term.specs.TypeFaults.{found_where};
ghost use Rattle.bunch_rules.specs.Rearranging.{left_step, right_step, loosen_step, unit_step, swap_step, before_step, after_step, beside_step};
ghost use Rattle.delta_derive.specs.LineText.{turn_of, step_of};
ghost use Rattle.delta_derive.specs.Rearranged.{stepped, rearranged, is_empty, only_side};

use crate::line::{Step, Turn};
use crate::trees::{boxed, comma, semi};
use bunch::Bunch;
use std::alloc::Global;
use std::mem;
use stream_type::Memory;

/// Takes a step at the end of a path, and says whether the path leads to a part that has the form of the step:
/// `rearranged` in `specs/Rearranged.antt`. Where it doesn't, nothing is said of the bunch. Its only error is want
/// of memory.
pub fn rearrange(alloc: Global, b: &mut Bunch, path: &[Turn], step: Step) -> Result<bool, Memory>
    ensures { IfOk result (λ done. found_where done (tree_of b.new) ≡ rearranged (step_of step) (map turn_of path.now) (tree_of b.old)) }
{
    match path.split_first() {
        None => take_step(alloc, b, step),
        Some((turn, rest)) => match b {
            Bunch::Empty | Bunch::Leaf(_, _) => Ok(false),
            Bunch::Comma(left, right) => match turn {
                Turn::Left => rearrange(alloc, left, rest, step),
                Turn::Right => rearrange(alloc, right, rest, step),
            },
            Bunch::Semi(left, right) => match turn {
                Turn::Left => rearrange(alloc, left, rest, step),
                Turn::Right => rearrange(alloc, right, rest, step),
            },
        },
    }
}

// Takes a step here.
fn take_step(alloc: Global, b: &mut Bunch, step: Step) -> Result<bool, Memory>
    ensures { IfOk result (λ done. found_where done (tree_of b.new) ≡ stepped (step_of step) (tree_of b.old)) }
{
    let part = mem::replace(b, Bunch::Empty);
    match stepped(alloc, part, step) {
        Ok(Some(changed)) => {
            drop(mem::replace(b, changed));
            Ok(true)
        }
        Ok(None) => Ok(false),
        Err(memory) => Err(memory),
    }
}

// What a step makes of a part.
fn stepped(alloc: Global, b: Bunch, step: Step) -> Result<Option<Bunch>, Memory>
    ensures { IfOk result (λ o. option_map tree_of o ≡ stepped (step_of step) (tree_of b)) }
{
    match step {
        Step::Drop => Ok(Some(emptied(b))),
        Step::Swap => Ok(swapped(b)),
        Step::Left => grouped_left(alloc, b),
        Step::Right => grouped_right(alloc, b),
        Step::Loosen => Ok(loosened(b)),
        Step::Unit => Ok(without_unit(b)),
        Step::Before => after_empty(alloc, b),
        Step::After => before_empty(alloc, b),
        Step::Beside => beside_empty(alloc, b),
    }
}

// Anything is dropped.
fn emptied(b: Bunch) -> Bunch
    ensures { tree_of result ≡ empty }
{
    drop(b);
    Bunch::Empty
}

// The sides of a comma change places.
fn swapped(b: Bunch) -> Option<Bunch>
    ensures { option_map tree_of result ≡ stepped swap_step (tree_of b) }
{
    match b {
        Bunch::Comma(b, c) => Some(Bunch::Comma(c, b)),
        other => {
            drop(other);
            None
        }
    }
}

// A semicolon becomes a comma.
fn loosened(b: Bunch) -> Option<Bunch>
    ensures { option_map tree_of result ≡ stepped loosen_step (tree_of b) }
{
    match b {
        Bunch::Semi(b, c) => Some(Bunch::Comma(b, c)),
        other => {
            drop(other);
            None
        }
    }
}

// `a, b` of what was made of both.
fn comma_of(
    left: Result<Box<Bunch>, Memory>,
    right: Result<Box<Bunch>, Memory>,
) -> Result<Option<Bunch>, Memory>
    ensures { IfOk result (λ o. IsOkAnd left (λ a. IsOkAnd right (λ b. option_map tree_of o ≡ Some (comma (tree_of a.value) (tree_of b.value))))) }
{
    match left {
        Ok(left) => match right {
            Ok(right) => Ok(Some(Bunch::Comma(left, right))),
            Err(memory) => {
                drop(left);
                Err(memory)
            }
        },
        Err(memory) => {
            drop(right);
            Err(memory)
        }
    }
}

// `a; b` of what was made of both.
fn semi_of(
    left: Result<Box<Bunch>, Memory>,
    right: Result<Box<Bunch>, Memory>,
) -> Result<Option<Bunch>, Memory>
    ensures { IfOk result (λ o. IsOkAnd left (λ a. IsOkAnd right (λ b. option_map tree_of o ≡ Some (semi (tree_of a.value) (tree_of b.value))))) }
{
    match left {
        Ok(left) => match right {
            Ok(right) => Ok(Some(Bunch::Semi(left, right))),
            Err(memory) => {
                drop(left);
                Err(memory)
            }
        },
        Err(memory) => {
            drop(right);
            Err(memory)
        }
    }
}

// Three parts grouped to the left.
fn grouped_left(alloc: Global, b: Bunch) -> Result<Option<Bunch>, Memory>
    ensures { IfOk result (λ o. option_map tree_of o ≡ stepped left_step (tree_of b)) }
{
    match b {
        Bunch::Comma(b, c) => match Box::into_inner(c) {
            Bunch::Comma(c, d) => comma_of(comma(alloc, b, c), Ok(d)),
            other => {
                drop(b);
                drop(other);
                Ok(None)
            }
        },
        Bunch::Semi(b, c) => match Box::into_inner(c) {
            Bunch::Semi(c, d) => semi_of(semi(alloc, b, c), Ok(d)),
            other => {
                drop(b);
                drop(other);
                Ok(None)
            }
        },
        other => {
            drop(other);
            Ok(None)
        }
    }
}

// Three parts grouped to the right.
fn grouped_right(alloc: Global, b: Bunch) -> Result<Option<Bunch>, Memory>
    ensures { IfOk result (λ o. option_map tree_of o ≡ stepped right_step (tree_of b)) }
{
    match b {
        Bunch::Comma(b, d) => match Box::into_inner(b) {
            Bunch::Comma(b, c) => comma_of(Ok(b), comma(alloc, c, d)),
            other => {
                drop(other);
                drop(d);
                Ok(None)
            }
        },
        Bunch::Semi(b, d) => match Box::into_inner(b) {
            Bunch::Semi(b, c) => semi_of(Ok(b), semi(alloc, c, d)),
            other => {
                drop(other);
                drop(d);
                Ok(None)
            }
        },
        other => {
            drop(other);
            Ok(None)
        }
    }
}

// An empty side goes away.
fn without_unit(b: Bunch) -> Option<Bunch>
    ensures { option_map tree_of result ≡ stepped unit_step (tree_of b) }
{
    match b {
        Bunch::Comma(b, c) | Bunch::Semi(b, c) => only_side(b, c),
        other => {
            drop(other);
            None
        }
    }
}

// The side beside an empty one; the right one where both are empty.
fn only_side(b: Box<Bunch>, c: Box<Bunch>) -> Option<Bunch>
    ensures { option_map tree_of result ≡ only_side (tree_of b.value) (tree_of c.value) }
{
    if is_empty(&b) {
        Some(Box::into_inner(c))
    } else if is_empty(&c) {
        Some(Box::into_inner(b))
    } else {
        None
    }
}

fn is_empty(b: &Bunch) -> bool
    ensures { result ≡ is_empty (tree_of b.now) }
{
    match b {
        Bunch::Empty => true,
        _ => false,
    }
}

// An empty part comes before it,
fn after_empty(alloc: Global, b: Bunch) -> Result<Option<Bunch>, Memory>
    ensures { IfOk result (λ o. option_map tree_of o ≡ stepped before_step (tree_of b)) }
{
    semi_of(boxed(alloc, Bunch::Empty), boxed(alloc, b))
}

// after it,
fn before_empty(alloc: Global, b: Bunch) -> Result<Option<Bunch>, Memory>
    ensures { IfOk result (λ o. option_map tree_of o ≡ stepped after_step (tree_of b)) }
{
    semi_of(boxed(alloc, b), boxed(alloc, Bunch::Empty))
}

// or beside it.
fn beside_empty(alloc: Global, b: Bunch) -> Result<Option<Bunch>, Memory>
    ensures { IfOk result (λ o. option_map tree_of o ≡ stepped beside_step (tree_of b)) }
{
    comma_of(boxed(alloc, b), boxed(alloc, Bunch::Empty))
}
