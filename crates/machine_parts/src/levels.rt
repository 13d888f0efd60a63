//! Which levels calls may still have.
//!
//! The number that is handed down is the greatest level from below that the calls of a part may have, so
//! that of the whole stays as great as it may be. At 0 no call may be made.

ghost use Rattle.std.specs.Prelude.{◌≡◌, ◌-◌, ◌||◌, IfOk};
ghost use Rattle.stream_prefix.specs.StreamPrefix.{is_maximal};
ghost use Rattle.stream_prefix.specs.Tree.{prefix_of};
ghost use Rattle.core_term.specs.Run.{deeper};
ghost use Rattle.machine_parts.specs.Levels.{below};

use stream_prefix::{Prefix, maximal};
use stream_type::Memory;

/// That of a part that stands one deeper.
pub fn inside(levels: u64) -> u64
    ensures { result ≡ levels - 1 }
{
    if levels == 0 { 0 } else { levels - 1 }
}

/// That of what follows the head of a let, which stands one deeper where the head is no name and isn't
/// whole.
pub fn after_head(is_name: bool, head: &Prefix, levels: u64) -> u64
    ensures { result ≡ below (is_name || is_maximal (prefix_of head.now)) levels }
{
    if is_name || maximal(head) {
        levels
    } else {
        inside(levels)
    }
}

/// That of a body on its arguments, by whether each of them is a name or whole.
pub fn on_arguments(are_shut: bool, levels: u64) -> u64
    ensures { result ≡ below are_shut levels }
{
    if are_shut { levels } else { inside(levels) }
}

/// The level from below of the calls of a part that stands one deeper, unless it stands still. A level past 64 bits, which only
/// an evaluation that deep would give, counts as want of memory.
pub fn deeper(still: bool, level: u64) -> Result<u64, Memory>
    ensures { IfOk result (λ n. n ≡ deeper still level) }
{
    if still || level == 0 {
        Ok(level)
    } else if level < u64::MAX {
        Ok(level + 1)
    } else {
        Err(Memory)
    }
}
