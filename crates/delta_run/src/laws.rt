//! The laws of runs that are saved, saved again and resumed, and of runs of one text, each the contract of a function with nothing in
//! it. What they say stands in `specs/Laws.antt` and `specs/Agreeing.antt`.

ghost use Rattle.delta_run.specs.Laws.{StateIsOne, LeftIsTyped, LeftAgainIsTyped, FramesJoin, DueJoins, KeptFurther, RunsJoin, AllRunsJoin};
ghost use Rattle.delta_run.specs.Agreeing.{RunIsMeant, RunsAgree, RunsGrow};

/// Bytes are those of one typed state at most whose numbers have their sizes.
pub fn state_is_one()
    ensures { StateIsOne }
{}

/// What a run left is a typed state of its program, so who goes on from it is never told that it is none.
pub fn left_is_typed()
    ensures { LeftIsTyped }
{}

/// What was left by a run that went on from a state is one too.
pub fn left_again_is_typed()
    ensures { LeftAgainIsTyped }
{}

/// Where the frames of a second input are put behind a first one, both are joined.
pub fn frames_join()
    ensures { FramesJoin }
{}

/// What was due before the state was left, and what is due since, are what is due of the program on both inputs.
pub fn due_joins()
    ensures { DueJoins }
{}

/// What is left again of what was left is what is left of the program, on both inputs joined.
pub fn kept_further()
    ensures { KeptFurther }
{}

/// What a run that saves wrote and what the run that resumes from the file wrote are, together, what one run writes on
/// both inputs joined.
pub fn runs_join()
    ensures { RunsJoin }
{}

/// And so are those of any number of runs that save, each going on from what the one before left, and of the run that
/// resumes from what was left last.
pub fn all_runs_join()
    ensures { AllRunsJoin }
{}

/// A run wrote what the program gives, in one look, on what it took of its input.
pub fn run_is_meant()
    ensures { RunIsMeant }
{}

/// Two runs of one text that took one prefix of the input's type wrote one prefix of the output's type, whatever the pieces,
/// the order of events that come side by side, the versions and the budgets.
pub fn runs_agree()
    ensures { RunsAgree }
{}

/// And where the one took a part of what the other took, it wrote a part of what that wrote.
pub fn runs_grow()
    ensures { RunsGrow }
{}
