//! The laws of historical values and expressions, each the contract of a function with nothing in it.

ghost use Rattle.hist_value.specs.Laws.{ValueHasPast, FullIsPrefix, FullIsMaximal, ValueOfFull, FullOfValue, ValueHasType, ValueOfFreeNames, JudgeIsGives, GivesAtMostOne, GivesWhatIsWanted, JudgeOfFreeNames, ValueOfRenaming, JudgeOfRenaming, GivesOfRenaming};

/// The value of a whole stream is of the type of the stream's past.
#[tactic(auto, using(crate::proofs::WholeLaws::value_has_past))]
pub fn value_has_past()
    ensures { ValueHasPast }
{}

/// The whole stream with a value is a prefix of the stream's type.
#[tactic(auto, using(crate::proofs::WholeLaws::full_is_prefix))]
pub fn full_is_prefix()
    ensures { FullIsPrefix }
{}

/// The whole stream with a value is maximal.
#[tactic(auto, using(crate::proofs::WholeLaws::full_is_maximal))]
pub fn full_is_maximal()
    ensures { FullIsMaximal }
{}

/// The whole stream that is made of a value has that value.
#[tactic(auto, using(crate::proofs::WholeLaws::value_of_full))]
pub fn value_of_full()
    ensures { ValueOfFull }
{}

/// A maximal prefix is the whole stream that is made of its value.
#[tactic(auto, using(crate::proofs::WholeLaws::full_of_value))]
pub fn full_of_value()
    ensures { FullOfValue }
{}

/// Where at each name that has a type stands a value of it, an expression that the rules give a type
/// has a value of it.
#[tactic(auto, using(crate::proofs::TypedValues::value_has_type))]
pub fn value_has_type()
    ensures { ValueHasType }
{}

/// The value of an expression depends on what stands at its free names alone.
#[tactic(auto, using(crate::proofs::FreeValues::value_of_free_names))]
pub fn value_of_free_names()
    ensures { ValueOfFreeNames }
{}

/// An expression is judged to have a type exactly where the rules give it that type.
#[tactic(auto, using(crate::proofs::Judgments::judge_is_gives))]
pub fn judge_is_gives()
    ensures { JudgeIsGives }
{}

/// The rules give an expression at most one type.
#[tactic(auto, using(crate::proofs::Judgments::gives_at_most_one))]
pub fn gives_at_most_one()
    ensures { GivesAtMostOne }
{}

/// A type that the rules give is the wanted one, where one is wanted.
#[tactic(auto, using(crate::proofs::Judgments::gives_what_is_wanted))]
pub fn gives_what_is_wanted()
    ensures { GivesWhatIsWanted }
{}

/// What is judged of an expression depends on the types of its free names alone.
#[tactic(auto, using(crate::proofs::FreeJudgments::judge_of_free_names))]
pub fn judge_of_free_names()
    ensures { JudgeOfFreeNames }
{}

/// Expressions that are alike but for names have one value, where the environments agree along the
/// scope.
#[tactic(auto, using(crate::proofs::Renamings::value_of_renaming))]
pub fn value_of_renaming()
    ensures { ValueOfRenaming }
{}

/// The same is judged of expressions that are alike but for names, where the environments agree
/// along the scope; but a name without a type is named by its number.
#[tactic(auto, using(crate::proofs::Renamings::judge_of_renaming))]
pub fn judge_of_renaming()
    ensures { JudgeOfRenaming }
{}

/// The rules give expressions that are alike but for names the same types, where the environments
/// agree along the scope.
#[tactic(auto, using(crate::proofs::Renamings::gives_of_renaming))]
pub fn gives_of_renaming()
    ensures { GivesOfRenaming }
{}
