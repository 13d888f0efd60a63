//! A shelf: files that are read and written whole, by name.

ghost use Rattle.std.specs.Prelude.{◌≡◌, List, ℕ, Option, take, IfOk, OnOk};
ghost use Rattle.port.specs.Faults.{HasCause};
ghost use Rattle.port.specs.Files.{ChangesOnly, Keeps};

use crate::IoFault;

/// Files by name. Each call reads or writes one file whole.
pub trait Shelf {
    /// What each name stands for, where the shelf tells. A name that it doesn't hold stands for no bytes.
    ghost holds: { Self → Option (List ℕ → List ℕ) };

    /// How many calls have failed. It never falls, and stands still at its type's end.
    ghost faults: { Self → ℕ };

    /// The bytes of the named file, cut after the first 1,048,577. Whatever it answers, what the
    /// shelf holds is as before.
    fn read(&mut self, name: &str) -> Result<Vec<u8>, IoFault>
        ensures bytes { IfOk result (λ bytes. (files : List ℕ → List ℕ)
            → holds self.old ≡ Option.Some files → bytes.items ≡ take 1048577 (files name.now)) }
        ensures same { holds self.new ≡ holds self.old }
        ensures cause { HasCause result (faults self.old) (faults self.new) };

    /// Makes the named file, or replaces it. After Ok the name holds exactly these bytes; after an
    /// error it may hold anything. Each other name holds what it held.
    fn write(&mut self, name: &str, bytes: &[u8]) -> Result<(), IoFault>
        ensures kept { OnOk result (Keeps (holds self.new) name.now bytes.now) }
        ensures others { ChangesOnly (holds self.old) (holds self.new) name.now }
        ensures cause { HasCause result (faults self.old) (faults self.new) };
}
