//! A link: an end that gives bytes and an end that takes them, and the moves that went over it.

ghost use Rattle.std.specs.Prelude.{◌≡◌, ◌<◌, ◌≤◌, [], ◌∷◌, List, ℕ, Option, length, take, IfOk, MatchResult};
ghost use Rattle.port.specs.Faults.{HasCause};
ghost use Rattle.port.specs.Told.{Grows, Loses, IsUsedUp};
ghost use Rattle.port.specs.declared.link.Move.{Move};
ghost use Rattle.port.specs.declared.link.Move.TheVariants.{In, Out};

use crate::IoFault;
use std::alloc::{AllocError, Global};
use std::marker::Model;

/// Bytes that a move owns. A contract sees the list of them.
#[derive(Drop)]
pub struct Bytes {
    bytes: Vec<u8>,
}

impl Model for Bytes {
    ghost use Rattle.std.specs.Prelude.{ℕ, List};

    ghost Value = { List ℕ };

    ghost view = { λ b. b.bytes.items };
}

impl Bytes {
    /// A copy of these bytes.
    pub fn from_slice(alloc: Global, bytes: &[u8]) -> Result<Bytes, AllocError>
        ensures { IfOk result (λ b. b ≡ bytes.now) }
    {
        let bytes = Vec::from_slice(alloc, bytes)?;
        Ok(Bytes { bytes })
    }

    /// The bytes as a slice.
    pub fn as_slice(&self) -> &[u8]
        ensures { result.now ≡ self.now }
    {
        &self.bytes
    }
}

/// A call of a link that moved bytes.
#[derive(Drop)]
pub enum Move {
    /// A read gave these bytes, or none at the end of the input.
    In(Bytes),
    /// A write took these bytes.
    Out(Bytes),
}

/// An input and an output. `Grows`, `Loses` and `IsUsedUp` are defined in `specs/Told.antt`.
pub trait Link {
    /// The moves so far, where the link tells.
    ghost log: { Self → Option (List Move) };

    /// The bytes that are left to read, where the link tells.
    ghost left: { Self → Option (List ℕ) };

    /// How many reads have failed. It never falls, and stands still at its type's end.
    ghost read_faults: { Self → ℕ };

    /// How many writes have failed. It never falls, and stands still at its type's end.
    ghost write_faults: { Self → ℕ };

    /// Reads into the front of the slice, and answers how many bytes. 0 is the end of the input.
    /// After an error the log and what is left are as before.
    fn read(&mut self, into: &mut [u8]) -> Result<usize, IoFault>
        requires { 0 < length into.old }
        ensures bound { IfOk result (λ n. n ≤ length into.old) }
        ensures moved { MatchResult result
            (λ n. Grows (log self.old) (log self.new) (In (take n into.new) ∷ []))
            (λ _. log self.new ≡ log self.old) }
        ensures taken { MatchResult result
            (λ n. Loses (left self.old) (left self.new) (take n into.new))
            (λ _. left self.new ≡ left self.old) }
        ensures end { IfOk result (λ n. n ≡ 0 → IsUsedUp (left self.old)) }
        ensures cause { HasCause result (read_faults self.old) (read_faults self.new) }
        ensures other { write_faults self.new ≡ write_faults self.old };

    /// Writes at least one byte of the slice's front, and answers how many. After an error the log
    /// is as before; what is left to read always is.
    fn write(&mut self, bytes: &[u8]) -> Result<usize, IoFault>
        requires { 0 < length bytes.now }
        ensures bound { IfOk result (λ n. (0 < n) × (n ≤ length bytes.now)) }
        ensures moved { MatchResult result
            (λ n. Grows (log self.old) (log self.new) (Out (take n bytes.now) ∷ []))
            (λ _. log self.new ≡ log self.old) }
        ensures left { left self.new ≡ left self.old }
        ensures cause { HasCause result (write_faults self.old) (write_faults self.new) }
        ensures other { read_faults self.new ≡ read_faults self.old };
}
