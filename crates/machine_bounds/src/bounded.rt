//! What a machine owes that never holds more than its program can.

ghost use Rattle.std.specs.Prelude.{List};
ghost use Rattle.event_word.specs.StreamEvent.{StreamEvent};
ghost use Rattle.machine_bounds.specs.StaysBelow.{StaysBelow};

use delta_state::Machine;

/// A machine that never holds more than its program can. It stands for its program after each word by a state
/// whose bound is at most that of the main program (`StaysBelow` in `specs/StaysBelow.antt`).
pub trait Bounded: Machine {
    /// Where it stands after a word, its state can hold no more than its program.
    ghost stays_below: { (m : Self) (word : List StreamEvent) → Self.stands m word → StaysBelow (Self.seen m) word };
}
