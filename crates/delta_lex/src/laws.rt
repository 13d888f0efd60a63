//! The laws of tokens, each the contract of a function.

ghost use Rattle.delta_lex.specs.Laws.{TokensAreOne, TokensHaveNoCause, CauseIsOne, TextsAreJudged, LongestIsTaken, TokensDivide};

/// A text has at most one list of tokens.
pub fn tokens_are_one()
    ensures { TokensAreOne }
{}

/// A text that has tokens has no cause of a fault, but for want of memory: so they are the answer
/// wherever memory is given.
pub fn tokens_have_no_cause()
    ensures { TokensHaveNoCause }
{}

/// A text has at most one cause of a fault, but for want of memory.
pub fn cause_is_one()
    ensures { CauseIsOne }
{}

/// Each list of bytes has tokens, or a cause of a fault that is no want of memory.
pub fn texts_are_judged()
    ensures { TextsAreJudged }
{}

/// Of the names, numbers and signs that stand at the front of some characters the longest is taken,
/// and none stands where a separator or a stray character stands.
pub fn longest_is_taken()
    ensures { LongestIsTaken }
{}

/// The tokens of a text are those into which its characters divide: separators, comments and, in
/// between, longest tokens, one after the other. `Divides` of `specs/Division.antt` is a relation,
/// apart from the order of reading.
pub fn tokens_divide()
    ensures { TokensDivide }
{}
