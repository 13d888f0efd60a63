//! What a program says, as a word.

ghost use Rattle.std.specs.Prelude.{◌≡◌, ◌≤◌, IsTrue, IfOk, IfSome};
ghost use Rattle.stream_type.specs.StreamType.{type_of, reach_of};
ghost use Rattle.stream_prefix.specs.Tree.{prefix_of};
ghost use Rattle.event_word.specs.Canon.{canon};

use event_word::{Event, canon};
use std::alloc::Global;
use stream_prefix::{Prefix, is_prefix};
use stream_type::{Memory, Ty};

/// The canonical word of what was given of this type, or none where it is no prefix of it, or where an event of the
/// type may have more than 63 steps. Its only error is want of memory.
pub(crate) fn said(alloc: Global, t: &Ty, p: &Prefix) -> Result<Option<Vec<Event>>, Memory>
    ensures { IfOk result (λ o. IfSome o (λ w. canon (prefix_of p.now) ≡ w.items)) }
{
    if !is_prefix(t, p) {
        return Ok(None);
    }
    if !is_within(t, 63) {
        return Ok(None);
    }
    let word = canon(alloc, t, p)?;
    Ok(Some(word))
}

// Whether no event of the type has more steps than these.
fn is_within(t: &Ty, steps: u64) -> bool
    ensures { IsTrue result → reach_of (type_of t.now) ≤ steps }
{
    match t {
        Ty::Eps | Ty::One | Ty::Int => true,
        Ty::Cat(a, b) => steps > 0 && is_within(a, steps - 1) && is_within(b, steps),
        Ty::Par(a, b) => steps > 0 && is_within(a, steps - 1) && is_within(b, steps - 1),
        Ty::Sum(a, b) => is_within(a, steps) && is_within(b, steps),
        Ty::Star(a) => steps > 0 && is_within(a, steps - 1),
    }
}
