//! The laws of programs, each the contract of a function with nothing in it.

ghost use Rattle.delta_parse.specs.Laws.{TreeIsOne, CauseIsOne, ProgramsHaveNoCause};

/// The tokens of a text belong to one program at most.
#[tactic(auto, using(crate::proofs::OneAnswer::tree_is_one))]
pub fn tree_is_one()
    ensures { TreeIsOne }
{}

/// At most one fault stands at the first place, and at one place of it.
#[tactic(auto, using(crate::proofs::OneAnswer::cause_is_one))]
pub fn cause_is_one()
    ensures { CauseIsOne }
{}

/// Where the tokens of a text belong to a program, nothing is wrong with them.
#[tactic(auto, using(crate::proofs::OneAnswer::programs_have_no_cause))]
pub fn programs_have_no_cause()
    ensures { ProgramsHaveNoCause }
{}
