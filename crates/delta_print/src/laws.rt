//! The laws of canonical texts, each the contract of a function with nothing in it.

ghost use Rattle.delta_print.specs.Laws.{
  CanonicalDivides,
  CanonicalIsDerived,
  CanonicalIsRead,
  ParsedIsPrintable,
  ParsedIsRead,
  ShownIsDerived,
  ShownIsRead,
};
ghost use Rattle.delta_print.specs.Needed.{
  ContextBracketsAreNeeded,
  ExpressionBracketsAreNeeded,
  HistBracketsAreNeeded,
  TypeBracketsAreNeeded,
};

/// The grammar derives each tree that it makes, but for places, from the tokens of its canonical text.
pub fn canonical_is_derived()
    ensures { CanonicalIsDerived }
{}

/// The grammar derives each type, but for places, from the tokens of its canonical text.
pub fn shown_is_derived()
    ensures { ShownIsDerived }
{}

/// The characters of a canonical text divide into the tokens that it was made of.
pub fn canonical_divides()
    ensures { CanonicalDivides }
{}

/// The canonical text of a program, read without any limit, is that program but for places.
pub fn canonical_is_read()
    ensures { CanonicalIsRead }
{}

/// The tree that is parsed of the tokens of a text can be printed: `canonical_is_read` speaks of it.
pub fn parsed_is_printable()
    ensures { ParsedIsPrintable }
{}

/// The canonical text of a tree that is parsed, read without any limit, is that tree but for places.
pub fn parsed_is_read()
    ensures { ParsedIsRead }
{}

/// The canonical text of a type is read as that type.
pub fn shown_is_read()
    ensures { ShownIsRead }
{}

/// A type that is put in brackets is derived at that place in brackets alone.
pub fn type_brackets_are_needed()
    ensures { TypeBracketsAreNeeded }
{}

/// So are parameters.
pub fn context_brackets_are_needed()
    ensures { ContextBracketsAreNeeded }
{}

/// So is a historical expression.
pub fn hist_brackets_are_needed()
    ensures { HistBracketsAreNeeded }
{}

/// So is an expression.
pub fn expression_brackets_are_needed()
    ensures { ExpressionBracketsAreNeeded }
{}
