//! A sink: an end for notes, which is written and never read.

ghost use Rattle.std.specs.Prelude.{◌≡◌, ◌<◌, ◌≤◌, ℕ, List, Option, length, take, IfOk, MatchResult};
ghost use Rattle.port.specs.Faults.{HasCause};
ghost use Rattle.port.specs.Told.{Grows};

use crate::IoFault;

/// Where notes go.
pub trait Sink {
    /// The bytes that were written so far, where the sink tells.
    ghost told: { Self → Option (List ℕ) };

    /// How many calls have failed. It never falls, and stands still at its type's end.
    ghost faults: { Self → ℕ };

    /// Writes at least one byte of the slice's front, and answers how many. After an error the
    /// bytes so far are as before.
    fn write(&mut self, bytes: &[u8]) -> Result<usize, IoFault>
        requires { 0 < length bytes.now }
        ensures bound { IfOk result (λ n. (0 < n) × (n ≤ length bytes.now)) }
        ensures told { MatchResult result
            (λ n. Grows (told self.old) (told self.new) (take n bytes.now))
            (λ _. told self.new ≡ told self.old) }
        ensures cause { HasCause result (faults self.old) (faults self.new) };
}
