//! The laws of elaboration, each the contract of a function with nothing in it. What they speak of stands
//! in `specs/SourceMeaning.antt`, `specs/Elaboration.antt` and `specs/Faults.antt`.

ghost use Rattle.delta_meaning.specs.Laws.{ElaboratesWhereFine, RefusedAtFirst, CoreKeepsMeaning, CoreKeepsRun, CoreKeepsArguments, CoreKeepsEnvironment, CoreKeepsCalls, WaitedIsUnread, ElaboratedIsCore, ElaboratedHasTypes, EachVariableHasText, EachNodeHasPlace, ElaboratedIsWithinLimits};

/// A program elaborates to a core exactly where nothing is wrong with its names and types, and then to
/// the one that is defined.
#[tactic(auto, using(crate::proofs::WholePrograms::elaborates_where_fine))]
pub fn elaborates_where_fine()
    ensures { ElaboratesWhereFine }
{}

/// A program is refused exactly with what is wrong first, in the order of reading.
#[tactic(auto, using(crate::proofs::WholePrograms::refused_at_first))]
pub fn refused_at_first()
    ensures { RefusedAtFirst }
{}

/// The core of a program, where it is typed, gives what the program gives, with as many calls and the
/// same level, on each prefix of the input's type.
#[tactic(auto, using(crate::proofs::WholePrograms::core_keeps_meaning))]
pub fn core_keeps_meaning()
    ensures { CoreKeepsMeaning }
{}

/// So it is at each depth.
#[tactic(auto, using(crate::proofs::WholePrograms::core_keeps_run))]
pub fn core_keeps_run()
    ensures { CoreKeepsRun }
{}

/// And on each list of prefixes for the names of the main program.
#[tactic(auto, using(crate::proofs::WholePrograms::core_keeps_arguments))]
pub fn core_keeps_arguments()
    ensures { CoreKeepsArguments }
{}

/// And in each environment, of which the core has at a parameter's number what the program has at its
/// name.
#[tactic(auto, using(crate::proofs::WholePrograms::core_keeps_environment))]
pub fn core_keeps_environment()
    ensures { CoreKeepsEnvironment }
{}

/// A call of a function's number in the core gives what a call of its name gives in the program.
#[tactic(auto, using(crate::proofs::WholePrograms::core_keeps_calls))]
pub fn core_keeps_calls()
    ensures { CoreKeepsCalls }
{}

/// In a typed term what follows a wait doesn't read the wait's name as a stream name. So it does no harm
/// that the core leaves the name there, where the program hides it.
pub fn waited_is_unread()
    ensures { WaitedIsUnread }
{}

/// What a program elaborates to binds each name at most once in each body and has a text for each, and
/// its main program has no historical parameters. So it keeps what a core does, if it has fewer than
/// 2^32 nodes.
pub fn elaborated_is_core()
    ensures { ElaboratedIsCore }
{}

/// What a program elaborates to has the program's functions with their types, and the input's and the
/// result's type of the main program.
pub fn elaborated_has_types()
    ensures { ElaboratedHasTypes }
{}

/// What a program elaborates to has as many texts as the program has variables that get a number.
#[tactic(auto, using(crate::proofs::BoundOnce::each_variable_has_text))]
pub fn each_variable_has_text()
    ensures { EachVariableHasText }
{}

/// What a program elaborates to has as many nodes as there are places for them.
#[tactic(auto, using(crate::proofs::Counts::each_node_has_place))]
pub fn each_node_has_place()
    ensures { EachNodeHasPlace }
{}

/// The input's type and the result of what a program elaborates to are at most 64 high and have at most
/// 4,096 nodes.
pub fn elaborated_is_within_limits()
    ensures { ElaboratedIsWithinLimits }
{}
