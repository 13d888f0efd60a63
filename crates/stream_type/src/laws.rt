//! The laws of types, each the contract of a function with nothing in it.

ghost use Rattle.stream_type.specs.Laws.{ReachIsBelowHeight, HeightIsWithinSize};

/// The reach of a type is less than its height.
#[tactic(auto, using(crate::proofs::Bounds::bounds))]
pub fn reach_is_below_height()
    ensures { ReachIsBelowHeight }
{}

/// The height of a type is at most the number of its nodes, so both measures of a type of fewer
/// than 2^32 nodes fit into 32 bits.
#[tactic(auto, using(crate::proofs::Bounds::bounds))]
pub fn height_is_within_size()
    ensures { HeightIsWithinSize }
{}
