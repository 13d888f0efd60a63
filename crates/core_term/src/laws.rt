//! The laws of contexts, and of what terms and programs mean, each the contract of a function with nothing
//! in it. What those of contexts speak of stands in `specs/Environment.antt`, `specs/Agreement.antt` and
//! `specs/Split.antt`; the others stand in `specs/MeaningLaws.antt`.

ghost use Rattle.core_term.specs.Laws.{TreeFormIsOrderForm, SplitIsTyped, SplitAgrees, GatheredSplits, GatheredIsGreatest, GatheredHasEachMark, GatheredIsUnique, SplitKeepsParts, SplitOfJoin, SplitAfterIsTyped, SplitAfterAgrees, SplitOfEmpty, SplitOfWhole, RestAgrees, JoinAgrees, StepAgrees, LikeAgrees, LetAgrees, BeforeAgrees, TypedIsUnbroken};

/// In a bunch with distinct names an environment agrees with the bunch by cases exactly where it
/// agrees with the facts of the bunch's order.
#[tactic(auto, using(crate::proofs::Agreements::tree_form_is_order_form))]
pub fn tree_form_is_order_form()
    ensures { TreeFormIsOrderForm }
{}

/// The split of a prefix of a bunch's type gives each name a prefix of its type.
#[tactic(auto, using(crate::proofs::Splits::split_is_typed))]
pub fn split_is_typed()
    ensures { SplitIsTyped }
{}

/// In a bunch with distinct names the split of each prefix of the bunch's type agrees with the bunch.
#[tactic(auto, using(crate::proofs::Gathering::split_agrees))]
pub fn split_agrees()
    ensures { SplitAgrees }
{}

/// In a bunch with distinct names each environment that agrees with the bunch is, on the bunch's
/// names, the split of a prefix of its type: of the one that `gathered` answers.
#[tactic(auto, using(crate::proofs::Gathering::gathered_splits))]
pub fn gathered_splits()
    ensures { GatheredSplits }
{}

/// In a bunch with distinct names the gathered prefix is the greatest of those that split into an
/// environment: each other is a part of it.
#[tactic(auto, using(crate::proofs::Gathering::gathered_is_greatest))]
pub fn gathered_is_greatest()
    ensures { GatheredIsGreatest }
{}

/// In the gathered prefix the mark of each semicolon has come where all on its left is whole.
#[tactic(auto, using(crate::proofs::Marks::gathered_has_each_mark))]
pub fn gathered_has_each_mark()
    ensures { GatheredHasEachMark }
{}

/// In a bunch with distinct names the gathered prefix is the only one with each such mark that splits
/// into the environment. Others may lack marks, since no name sees the mark of a semicolon after which
/// nothing has come.
#[tactic(auto, using(crate::proofs::Marks::gathered_is_unique))]
pub fn gathered_is_unique()
    ensures { GatheredIsUnique }
{}

/// Where p is a part of q, the split of p is a part of the split of q, name by name.
#[tactic(auto, using(crate::proofs::Splits::split_keeps_parts))]
pub fn split_keeps_parts()
    ensures { SplitKeepsParts }
{}

/// The split of a join is, name by name, the join of the split of its first part and of what its
/// second part brings, which `split_after` answers.
#[tactic(auto, using(crate::proofs::Splits::split_of_join))]
pub fn split_of_join()
    ensures { SplitOfJoin }
{}

/// What comes after a prefix gives each name a prefix of what is left of its type.
#[tactic(auto, using(crate::proofs::Splits::split_after_is_typed))]
pub fn split_after_is_typed()
    ensures { SplitAfterIsTyped }
{}

/// In a bunch with distinct names what comes after a prefix agrees with the bunch's order, over what
/// is left of each type.
#[tactic(auto, using(crate::proofs::Gathering::split_after_agrees))]
pub fn split_after_agrees()
    ensures { SplitAfterAgrees }
{}

/// The empty prefix splits into the empty environment.
#[tactic(auto, using(crate::proofs::Splits::split_of_empty))]
pub fn split_of_empty()
    ensures { SplitOfEmpty }
{}

/// A maximal prefix splits into a whole environment.
#[tactic(auto, using(crate::proofs::Splits::split_of_whole))]
pub fn split_of_whole()
    ensures { SplitOfWhole }
{}

/// Where an environment agrees with an order and a part of it is taken, what is left of it agrees
/// over what is left of each type: in whatever stands before, what comes is whole, or in what stands
/// after, nothing comes.
pub fn rest_agrees()
    ensures { RestAgrees }
{}

/// Where an environment agrees with an order and what comes after it agrees over what is left of
/// each type, both together agree.
pub fn join_agrees()
    ensures { JoinAgrees }
{}

/// An environment that agrees with an order still agrees after more has come, where something comes
/// on a name only if each name that stands before it was whole already.
pub fn step_agrees()
    ensures { StepAgrees }
{}

/// An environment still agrees where a name is placed like z that is whole once z is, and on which
/// nothing has come while nothing has on z.
#[tactic(auto, using(crate::proofs::Placing::like_agrees))]
pub fn like_agrees()
    ensures { LikeAgrees }
{}

/// An environment still agrees where a name is placed by free names that is whole once each of them
/// is and, if it is inert, on which nothing has come while nothing has on any of them.
#[tactic(auto, using(crate::proofs::Placing::let_agrees))]
pub fn let_agrees()
    ensures { LetAgrees }
{}

/// An environment agrees with an order that has one more fact, x before y, exactly where it agrees
/// with the order, and x is whole or nothing has come on y.
pub fn before_agrees()
    ensures { BeforeAgrees }
{}

/// A program is typed exactly where none of its nodes breaks a rule.
pub fn typed_is_unbroken()
    ensures { TypedIsUnbroken }
{}

// The laws of what terms and programs mean.

ghost use Rattle.core_term.specs.MeaningLaws.{RunOfFreeNames, RunIsTyped, MeanIsTyped, RunGrows, MeanGrows, RunIsWhole, MeanIsWhole, InertBodies, InertGivesNothing, InertMainGivesNothing, LevelIsFromAbove, MeanLevelIsFromAbove, RenamedRun, RenamedProgramRun};

/// What a term gives, the calls that it makes and their level depend on its free stream names, with
/// their types, and on its free historical names alone.
#[tactic(auto, using(crate::proofs::FreeRuns::run_of_free_names))]
pub fn run_of_free_names()
    ensures { RunOfFreeNames }
{}

/// A typed term gives a prefix of its type, at each depth.
pub fn run_is_typed()
    ensures { RunIsTyped }
{}

/// A typed program gives a prefix of its result's type.
#[tactic(auto, using(crate::proofs::TypedRuns::mean_is_typed))]
pub fn mean_is_typed()
    ensures { MeanIsTyped }
{}

/// A typed term gives no less on more input, and makes no fewer calls, at each depth.
pub fn run_grows()
    ensures { RunGrows }
{}

/// A typed program gives no less on more input, and makes no fewer calls.
pub fn mean_grows()
    ensures { MeanGrows }
{}

/// Where the free stream names of a typed term are whole and it makes no more calls than its depth,
/// what it gives is whole.
pub fn run_is_whole()
    ensures { RunIsWhole }
{}

/// On a whole stream a typed program gives a whole stream, where its calls stay within the horizon.
pub fn mean_is_whole()
    ensures { MeanIsWhole }
{}

/// The rounds that find the inert functions come to an end: the body of each that is left is inert,
/// where those that are left count as inert.
pub fn inert_bodies()
    ensures { InertBodies }
{}

/// A typed inert term gives nothing, at each depth, where nothing has come on its free stream names.
pub fn inert_gives_nothing()
    ensures { InertGivesNothing }
{}

/// A typed program whose body is inert gives nothing before anything has come.
pub fn inert_main_gives_nothing()
    ensures { InertMainGivesNothing }
{}

/// The level that a run counts from below is the one counted from above, at each depth.
pub fn level_is_from_above()
    ensures { LevelIsFromAbove }
{}

/// A program's level is the one counted from above, where its body stands at level 0.
pub fn mean_level_is_from_above()
    ensures { MeanLevelIsFromAbove }
{}

/// Terms that are alike but for names give the same, make as many calls and have the same level, where
/// the same stands at each name and at the one that it became.
pub fn renamed_run()
    ensures { RenamedRun }
{}

/// Programs that are alike but for names run alike, where the second binds each name once.
pub fn renamed_program_run()
    ensures { RenamedProgramRun }
{}
