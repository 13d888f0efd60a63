//! Laws of rewritings and names, each the contract of a function with nothing in it. What they say stands in
//! `specs/Laws.antt`.

ghost use Rattle.names_kept.specs.Laws.{SimplerIsTidy, SimplerStaysTidy};

/// A tidy state is tidy after any number of rewritings.
pub fn simpler_is_tidy()
    ensures { SimplerIsTidy }
{}

/// A tidy state that stands for a program after an input does so, and is tidy, after any number of rewritings.
pub fn simpler_stays_tidy()
    ensures { SimplerStaysTidy }
{}
