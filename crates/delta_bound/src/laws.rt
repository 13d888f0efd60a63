//! What the bound of a program says of its runs: the contract of a function with nothing in it. What it says
//! stands in `specs/Laws.antt`.

ghost use Rattle.delta_bound.specs.Laws.{AnswersHold};

/// A program of which `bound` answers a number never holds more events than that.
pub fn answers_hold()
    ensures { AnswersHold }
{}
