//! The laws of bunches and orders, each the contract of a function with nothing in it.

ghost use Rattle.bunch.specs.Laws.{
  BeforeIsIrreflexive,
  BeforeIsTransitive,
  FactsAreOfNames,
  LikeHasTheSameFacts,
};

/// In a bunch with distinct names no name stands before itself.
pub fn before_is_irreflexive()
    ensures { BeforeIsIrreflexive }
{}

/// In a bunch with distinct names what stands before a name stands before all that this name stands
/// before.
pub fn before_is_transitive()
    ensures { BeforeIsTransitive }
{}

/// An order has facts of its own names alone: where `x` stands before `y`, both are there.
pub fn facts_are_of_names()
    ensures { FactsAreOfNames }
{}

/// Where a name doesn't stand before itself, one that is placed like it has just its facts on each
/// other name, and so none on that name itself.
pub fn like_has_the_same_facts()
    ensures { LikeHasTheSameFacts }
{}
