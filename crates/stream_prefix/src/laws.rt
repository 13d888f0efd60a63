//! The laws of prefixes, each the contract of a function with nothing in it.

ghost use Rattle.stream_prefix.specs.Laws.{EmptyIsPrefix, EmptyIsMaximalWhereNull, JoinIsPrefix, EmptyBefore, EmptyAfter, JoinAssociates, EmptyDerives, JoinDerives, JoinCancels, JoinIsMaximal, MaximalStands, NothingFollowsMaximal, MaximalLeavesNull, NullHasOnePrefix, PrefixOfNullIsMaximal, PartIsReflexive, PartIsTransitive, PartIsAntisymmetric, RestIsUnique, IncrementIsRest, ReachFalls, PrefixesOfEps, PrefixesOfOne, PrefixesOfInt, PrefixesOfPar, PrefixesOfCat, PrefixesOfSum, PrefixesOfStar};

/// The empty prefix of a type is a prefix of it.
#[tactic(auto, using(crate::proofs::PrefixLaws::empty_is_prefix))]
pub fn empty_is_prefix()
    ensures { EmptyIsPrefix }
{}

/// The empty prefix of a type is maximal exactly where the type is null.
#[tactic(auto, using(crate::proofs::PrefixLaws::empty_is_maximal_where_null))]
pub fn empty_is_maximal_where_null()
    ensures { EmptyIsMaximalWhereNull }
{}

/// A prefix of a type, and then a prefix of what it leaves, join to a prefix of the type.
#[tactic(auto, using(crate::proofs::PrefixLaws::join_is_prefix))]
pub fn join_is_prefix()
    ensures { JoinIsPrefix }
{}

/// The empty prefix joined with a prefix is that prefix.
#[tactic(auto, using(crate::proofs::PrefixLaws::empty_before))]
pub fn empty_before()
    ensures { EmptyBefore }
{}

/// A prefix joined with the empty prefix of what it leaves is that prefix.
#[tactic(auto, using(crate::proofs::PrefixLaws::empty_after))]
pub fn empty_after()
    ensures { EmptyAfter }
{}

/// Of three prefixes in a row it does not matter which two are joined first.
#[tactic(auto, using(crate::proofs::PrefixLaws::join_associates))]
pub fn join_associates()
    ensures { JoinAssociates }
{}

/// The derivative of a type by its empty prefix is the type.
#[tactic(auto, using(crate::proofs::PrefixLaws::empty_derives))]
pub fn empty_derives()
    ensures { EmptyDerives }
{}

/// The derivative by a join is the derivative by its second part of that by its first.
#[tactic(auto, using(crate::proofs::PrefixLaws::join_derives))]
pub fn join_derives()
    ensures { JoinDerives }
{}

/// Two prefixes that join with the same one to equal prefixes are equal.
#[tactic(auto, using(crate::proofs::PrefixLaws::join_cancels))]
pub fn join_cancels()
    ensures { JoinCancels }
{}

/// A join is maximal exactly where its second part is.
#[tactic(auto, using(crate::proofs::PrefixLaws::join_is_maximal))]
pub fn join_is_maximal()
    ensures { JoinIsMaximal }
{}

/// A maximal prefix is a part of itself alone.
pub fn maximal_stands()
    ensures { MaximalStands }
{}

/// After a maximal prefix only the empty prefix comes.
#[tactic(auto, using(crate::proofs::PrefixLaws::nothing_follows_maximal))]
pub fn nothing_follows_maximal()
    ensures { NothingFollowsMaximal }
{}

/// The derivative by a prefix is null exactly where the prefix is maximal.
#[tactic(auto, using(crate::proofs::PrefixLaws::maximal_leaves_null))]
pub fn maximal_leaves_null()
    ensures { MaximalLeavesNull }
{}

/// The only prefix of a null type is its empty one.
#[tactic(auto, using(crate::proofs::PrefixLaws::null_has_one_prefix))]
pub fn null_has_one_prefix()
    ensures { NullHasOnePrefix }
{}

/// Each prefix of a null type is maximal.
#[tactic(auto, using(crate::proofs::PrefixLaws::prefix_of_null_is_maximal))]
pub fn prefix_of_null_is_maximal()
    ensures { PrefixOfNullIsMaximal }
{}

/// Each prefix is a part of itself.
#[tactic(auto, using(crate::proofs::PrefixLaws::part_is_reflexive))]
pub fn part_is_reflexive()
    ensures { PartIsReflexive }
{}

/// A part of a part is a part.
#[tactic(auto, using(crate::proofs::PrefixLaws::part_is_transitive))]
pub fn part_is_transitive()
    ensures { PartIsTransitive }
{}

/// Two prefixes that are parts of each other are equal.
pub fn part_is_antisymmetric()
    ensures { PartIsAntisymmetric }
{}

/// What came after a part is determined by the part and the whole of it.
pub fn rest_is_unique()
    ensures { RestIsUnique }
{}

/// What came after a part is the increment from it.
pub fn increment_is_rest()
    ensures { IncrementIsRest }
{}

/// The reach of a derivative is at most that of its type.
#[tactic(auto, using(crate::proofs::PrefixLaws::reach_falls))]
pub fn reach_falls()
    ensures { ReachFalls }
{}

/// `eps` has only its empty prefix.
#[tactic(auto, using(crate::proofs::PrefixLaws::prefixes_of_eps))]
pub fn prefixes_of_eps()
    ensures { PrefixesOfEps }
{}

/// `1` has its empty prefix and its mark.
#[tactic(auto, using(crate::proofs::PrefixLaws::prefixes_of_one))]
pub fn prefixes_of_one()
    ensures { PrefixesOfOne }
{}

/// `Int` has its empty prefix and each number.
#[tactic(auto, using(crate::proofs::PrefixLaws::prefixes_of_int))]
pub fn prefixes_of_int()
    ensures { PrefixesOfInt }
{}

/// A prefix of `s || t` is one of each side.
#[tactic(auto, using(crate::proofs::PrefixLaws::prefixes_of_par))]
pub fn prefixes_of_par()
    ensures { PrefixesOfPar }
{}

/// A prefix of `s . t` is one of the first part, or a maximal one of it and one of the second.
#[tactic(auto, using(crate::proofs::PrefixLaws::prefixes_of_cat))]
pub fn prefixes_of_cat()
    ensures { PrefixesOfCat }
{}

/// A prefix of `s + t` is the empty one, or one of the side that was chosen.
#[tactic(auto, using(crate::proofs::PrefixLaws::prefixes_of_sum))]
pub fn prefixes_of_sum()
    ensures { PrefixesOfSum }
{}

/// A prefix of `s*` is the empty one, the end, one of the first item, or a maximal one of it and a
/// prefix of the rest.
#[tactic(auto, using(crate::proofs::PrefixLaws::prefixes_of_star))]
pub fn prefixes_of_star()
    ensures { PrefixesOfStar }
{}
