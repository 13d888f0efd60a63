//! Laws of texts, each the contract of a function with nothing in it. What they say stands in `specs/Laws.antt`.

ghost use Rattle.text_laws.specs.Laws.{TokensAreJudged, TextsAreJudged, TreesAreNamed, BelongsByTree};

/// Tokens belong to a program, or something is wrong with them first.
pub fn tokens_are_judged()
    ensures { TokensAreJudged }
{}

/// Each text is that of a program, or is refused for something.
pub fn texts_are_judged()
    ensures { TextsAreJudged }
{}

/// Where tokens are those of a tree, none is a name twice or one too many exactly where the tree's names are apart and few.
pub fn trees_are_named()
    ensures { TreesAreNamed }
{}

/// Tokens belong to a program exactly where they have its tree, few marks are open before each, and the tree's names are apart
/// and few.
pub fn belongs_by_tree()
    ensures { BelongsByTree }
{}
