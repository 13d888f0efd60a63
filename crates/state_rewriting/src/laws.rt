//! Laws of rewritings, each the contract of a function with nothing in it. What they say stands in
//! `specs/Laws.antt`.

ghost use Rattle.state_rewriting.specs.Laws.{SimplerKeepsType, SimplerKeepsRun, SimplerKeepsDepth, SimplerStandsFor, SimplerStandsAfter, StateStays};

/// A typed settled state that is made simpler has the same type, and is settled.
pub fn simpler_keeps_type()
    ensures { SimplerKeepsType }
{}

/// A typed state that is made simpler gives the same, makes no more calls and none at a greater level; and from
/// an input to a longer one its calls rise by no more.
pub fn simpler_keeps_run()
    ensures { SimplerKeepsRun }
{}

/// A state that is made simpler keeps the depth of its code.
pub fn simpler_keeps_depth()
    ensures { SimplerKeepsDepth }
{}

/// What stands for a program still does after any number of rewritings.
pub fn simpler_stands_for()
    ensures { SimplerStandsFor }
{}

/// A machine that stands after a word still does with a simpler state in place of its own.
pub fn simpler_stands_after()
    ensures { SimplerStandsAfter }
{}

/// A settled typed state stays as it is where nothing comes on its free names.
pub fn state_stays()
    ensures { StateStays }
{}
