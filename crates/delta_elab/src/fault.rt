//! What may be wrong with the names and the types of a program.

ghost use Rattle.std.specs.Prelude.{◌≡◌};

use bunch::Name;
use delta_check::TypeFault;
use std::alloc::{AllocError, AllocFailed};
use std::fmt::{self, Formatter, Write};
use stream_type::Memory;
use thiserror::Error;

/// Why a program has no core: want of memory, or the first thing that is wrong with it, with the byte
/// place where it stands. A type stands at its first token, the input's type at the word `main`, the
/// name of a `wait` at the `wait`, and a name in a historical expression at the expression's first
/// token. Contracts see it as a `Fault` of `delta_meaning` by `fault_of` (`specs/FirstFault.antt`), and
/// want of memory as none.
#[derive(Drop, Error)]
pub enum ElabFault {
    /// Memory was refused, or a number for a variable or a function doesn't fit 32 bits.
    #[error("Memory")]
    Memory,
    /// The name isn't bound.
    #[error("Unbound")]
    Unbound(Name, u32),
    /// There is no function with this name.
    #[error("NoFunction")]
    NoFunction(Name, u32),
    /// No type was declared with this name above.
    #[error("NoType")]
    NoType(Name, u32),
    /// A type is more than 64 high.
    #[error("TooTall")]
    TooTall(u32),
    /// A type has more than 4,096 nodes.
    #[error("TooWide")]
    TooWide(u32),
}

impl fmt::Debug for ElabFault {
    fn fmt<W: Write>(&self, f: &mut Formatter<W>) -> Result<(), fmt::Error> {
        fmt::Display::fmt(self, f)
    }
}

impl From<Memory> for ElabFault {
    ghost use Rattle.delta_elab.specs.declared.fault.ElabFault.TheVariants.{Memory};

    ghost from_gives = { λ _ fault. fault ≡ Memory };

    fn from(_: Memory) -> ElabFault {
        ElabFault::Memory
    }
}

impl From<AllocError> for ElabFault {
    ghost use Rattle.delta_elab.specs.declared.fault.ElabFault.TheVariants.{Memory};

    ghost from_gives = { λ _ fault. fault ≡ Memory };

    fn from(_: AllocError) -> ElabFault {
        ElabFault::Memory
    }
}

// What could not be put into memory is dropped.
impl<T: Drop> From<AllocFailed<T>> for ElabFault {
    ghost use Rattle.delta_elab.specs.declared.fault.ElabFault.TheVariants.{Memory};

    ghost from_gives = { λ _ fault. fault ≡ Memory };

    fn from(_: AllocFailed<T>) -> ElabFault {
        ElabFault::Memory
    }
}

/// Why a program isn't accepted: want of memory, why it has no core, or why its core isn't typed. The
/// faults inside are never want of memory. What it says of the program is `SaysWhy`
/// (`specs/Accepted.antt`).
#[derive(Drop, Error)]
pub enum ProgramFault {
    /// Memory was refused, or there are more variables, functions or nodes than 32 bits number.
    #[error("Memory")]
    Memory,
    /// Something is wrong with its names or its types.
    #[error("{0}")]
    Elab(ElabFault),
    /// It has a core, which isn't typed.
    #[error("{0}")]
    Type(TypeFault),
}

impl fmt::Debug for ProgramFault {
    fn fmt<W: Write>(&self, f: &mut Formatter<W>) -> Result<(), fmt::Error> {
        fmt::Display::fmt(self, f)
    }
}

impl From<ElabFault> for ProgramFault {
    ghost use Rattle.delta_elab.specs.ProgramFaults.{of_elab};

    ghost from_gives = { λ e fault. fault ≡ of_elab e };

    fn from(e: ElabFault) -> ProgramFault {
        match e {
            ElabFault::Memory => ProgramFault::Memory,
            e => ProgramFault::Elab(e),
        }
    }
}

impl From<TypeFault> for ProgramFault {
    ghost use Rattle.delta_elab.specs.ProgramFaults.{of_type};

    ghost from_gives = { λ e fault. fault ≡ of_type e };

    fn from(e: TypeFault) -> ProgramFault {
        match e {
            TypeFault::Memory => ProgramFault::Memory,
            e => ProgramFault::Type(e),
        }
    }
}
