//! The laws of words, each the contract of a function.

ghost use Rattle.event_word.specs.Laws.{NoFaultIsAdmitted, OneIsPrefix, AdmittedIsWithin, WordIsWithin, WordIsPrefix, WordLeaves, WordsAppend, WordsJoin, EqualWordsLeaveOne, CanonIsWord, CanonMeans, CanonIsEmpty, CanonIsWithin};

/// The walk of `admits` meets no fault exactly where the type admits the event.
pub fn no_fault_is_admitted()
    ensures { NoFaultIsAdmitted }
{}

/// An admitted event is a prefix of the type, and what it leaves is the derivative by that prefix.
pub fn one_is_prefix()
    ensures { OneIsPrefix }
{}

/// No event that a type admits has more steps than the type's reach.
pub fn admitted_is_within()
    ensures { AdmittedIsWithin }
{}

/// No event of a word of a type has more steps than the type's reach.
pub fn word_is_within()
    ensures { WordIsWithin }
{}

/// A word of a type stands for a prefix of it.
pub fn word_is_prefix()
    ensures { WordIsPrefix }
{}

/// What a word leaves event by event is the derivative by the prefix for which it stands.
pub fn word_leaves()
    ensures { WordLeaves }
{}

/// A list is a word exactly where, cut anywhere, its front is a word and its back is one of what
/// the front leaves.
pub fn words_append()
    ensures { WordsAppend }
{}

/// A word and then a word of what it leaves stand for the join of their prefixes.
pub fn words_join()
    ensures { WordsJoin }
{}

/// Two words that stand for one prefix leave equal types.
pub fn equal_words_leave_one()
    ensures { EqualWordsLeaveOne }
{}

/// The canonical word of a prefix of a type is a word of it.
pub fn canon_is_word()
    ensures { CanonIsWord }
{}

/// The canonical word of a prefix stands for that prefix.
pub fn canon_means()
    ensures { CanonMeans }
{}

/// The canonical word is empty exactly where the prefix is the empty one of its type.
pub fn canon_is_empty()
    ensures { CanonIsEmpty }
{}

/// No event of the canonical word of a prefix has more steps than the type's reach.
pub fn canon_is_within()
    ensures { CanonIsWithin }
{}
