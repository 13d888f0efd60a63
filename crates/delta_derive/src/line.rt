//! The lines of a derivation.

/// A turn on the way from the root of a bunch to a part of it.
#[derive(Clone, Copy)]
pub enum Turn {
    /// To the left side.
    Left,
    /// To the right side.
    Right,
}

/// A step that rearranges a part of a bunch: `Becomes` in the specs of bunch_rules says what it makes
/// of the part.
#[derive(Clone, Copy)]
pub enum Step {
    /// Drops the part.
    Drop,
    /// Lets the sides of a comma change places.
    Swap,
    /// Groups three parts to the left.
    Left,
    /// Groups three parts to the right.
    Right,
    /// Makes a semicolon a comma.
    Loosen,
    /// Takes an empty side away.
    Unit,
    /// Puts an empty part before it.
    Before,
    /// Puts an empty part after it.
    After,
    /// Puts an empty part beside it.
    Beside,
}

/// A line. Contracts see it as a `Line` of bunch_rules by `line_of` (`specs/LineText.antt`).
#[derive(Drop)]
pub enum Line {
    /// A rule without a path.
    Rule,
    /// A rule with a path.
    RuleAt(Vec<Turn>),
    /// A step at the end of a path.
    Step(Step, Vec<Turn>),
}
