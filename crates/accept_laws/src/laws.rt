//! Laws of acceptance, each the contract of a function with nothing in it. What they say stands in `specs/Laws.antt`.

ghost use Rattle.accept_laws.specs.Laws.{TextsAreJudged, WritingsAreJudged, CoresAreSmall, NamesAreFew, CanonicalIsNamed, CanonicalIsAccepted};

/// Each text is accepted, or is refused for something.
pub fn texts_are_judged()
    ensures { TextsAreJudged }
{}

/// So it is where frames of a version are to be written.
pub fn writings_are_judged()
    ensures { WritingsAreJudged }
{}

/// The core of the program of a text has no more nodes than a text may have bytes.
pub fn cores_are_small()
    ensures { CoresAreSmall }
{}

/// It has at most 1,000 functions and at most 2,073,600 names.
pub fn names_are_few()
    ensures { NamesAreFew }
{}

/// The canonical text of a program, read again without the limits on marks and length, keeps its names and their counts.
pub fn canonical_is_named()
    ensures { CanonicalIsNamed }
{}

/// It is accepted where the program was, with the same core.
pub fn canonical_is_accepted()
    ensures { CanonicalIsAccepted }
{}
