//! Prefixes of stars.

ghost use Rattle.std.specs.Prelude.{◌≡◌, IfOk};
ghost use Rattle.stream_prefix.specs.Tree.{prefix_of};
ghost use Rattle.core_term.specs.Parts.{as_star};

pub use core_term::stars::over_star;
use std::alloc::Global;
use stream_prefix::Prefix;
use stream_type::Memory;

/// A prefix of an item and the items after it as one of a star, in a box. Its only error is want of memory,
/// as `core_term::stars::as_star` tells it.
pub fn as_star(alloc: Global, p: Prefix) -> Result<Box<Prefix>, Memory>
    ensures { IfOk result (λ r. prefix_of r.value ≡ as_star (prefix_of p)) }
{
    let star = core_term::stars::as_star(alloc, p)?;
    Ok(Box::new(alloc, star)?)
}
