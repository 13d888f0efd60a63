//! What came of a sum and of a star, as what is asked sees it.

ghost use Rattle.std.specs.Prelude.{◌≡◌, List};
ghost use Rattle.stream_prefix.specs.StreamPrefix.{StreamPrefix};
ghost use Rattle.stream_prefix.specs.Tree.{prefix_of};
ghost use Rattle.machine_parts.specs.Parts.{sided_prefix, taken_prefix};
ghost use Rattle.other_numbers.specs.Asked.{Asked, sum_asked, star_asked};

use machine_parts::parts::{Sided, Taken, side_taken, star_taken};
use stream_prefix::Prefix;

/// What came of a sum, by the side that is chosen; nothing, where it is no sum.
pub fn side_of(p: &Prefix) -> Sided<'_>
    ensures { (a b : StreamPrefix → List Asked) → sum_asked (prefix_of p.now) a b ≡ sum_asked (sided_prefix result) a b }
{
    side_taken(p)
}

/// What came of a star, with its first item apart; nothing, where it is no star.
pub fn items_of(p: &Prefix) -> Taken<'_>
    ensures { (a : List Asked) (b : StreamPrefix → StreamPrefix → List Asked) → star_asked (prefix_of p.now) a b ≡ star_asked (taken_prefix result) a b }
{
    star_taken(p)
}
