//! Why a program isn't typed.

ghost use Rattle.std.specs.Prelude.{◌≡◌};

use bunch::Name;
use hist_value::HistFault;
use std::alloc::{AllocError, AllocFailed};
use std::fmt::{self, Formatter, Write};
use stream_type::{Memory, Ty};
use thiserror::Error;

/// Why a program isn't typed: want of memory, or the first broken rule. Nodes are numbered from 0 in
/// the order of reading, a form before its parts, the functions in their order and the main program
/// last; the node with the lowest number is told, and of the rules that it breaks the one whose
/// cause stands first below.
#[derive(Drop, Error)]
pub enum TypeFault {
    /// Memory was refused.
    #[error("Memory")]
    Memory,
    /// A node breaks a rule, and none before it does.
    #[error("Refused")]
    Refused {
        /// The number of the node.
        node: u32,
        /// The number of bytes of the program's text before the node.
        at: u32,
        /// The rule that it breaks.
        cause: TypeCause,
    },
}

/// The rule that a node breaks. Contracts see it as a `Cause` by `cause_of` (`specs/Faults.antt`).
#[derive(Drop, Error)]
pub enum TypeCause {
    /// The name isn't bound.
    #[error("Unbound")]
    Unbound(Name),
    /// The wanted type, or none where only the form of a subject is asked; and the found one, or
    /// none where it is the term itself that hasn't the form of what is wanted.
    #[error("Mismatch")]
    Mismatch {
        /// The wanted type.
        wanted: Option<Ty>,
        /// The found type.
        found: Option<Ty>,
    },
    /// The first name is used before the second, and doesn't stand before it.
    #[error("OutOfOrder")]
    OutOfOrder(Name, Name),
    /// The argument of this parameter isn't inert, and another parameter stands before it.
    #[error("Jumpy")]
    Jumpy(Name),
    /// A wait for a stream of a null type.
    #[error("WaitNull")]
    WaitNull(Name),
    /// There is no function with this number, or it has other numbers of parameters.
    #[error("Arity")]
    Arity(u32),
    /// A historical expression isn't of the type that is wanted. It is never want of memory.
    #[error("History")]
    History(HistFault),
    /// A historical variable where a stream variable is asked for.
    #[error("NotStream")]
    NotStream(Name),
}

impl fmt::Debug for TypeFault {
    fn fmt<W: Write>(&self, f: &mut Formatter<W>) -> Result<(), fmt::Error> {
        fmt::Display::fmt(self, f)
    }
}

impl fmt::Debug for TypeCause {
    fn fmt<W: Write>(&self, f: &mut Formatter<W>) -> Result<(), fmt::Error> {
        fmt::Display::fmt(self, f)
    }
}

impl From<Memory> for TypeFault {
    ghost use Rattle.delta_check.specs.declared.fault.TypeFault.TheVariants.{Memory};

    ghost from_gives = { λ _ fault. fault ≡ Memory };

    fn from(_: Memory) -> TypeFault {
        TypeFault::Memory
    }
}

impl From<AllocError> for TypeFault {
    ghost use Rattle.delta_check.specs.declared.fault.TypeFault.TheVariants.{Memory};

    ghost from_gives = { λ _ fault. fault ≡ Memory };

    fn from(_: AllocError) -> TypeFault {
        TypeFault::Memory
    }
}

// What could not be put into memory is dropped.
impl<T: Drop> From<AllocFailed<T>> for TypeFault {
    ghost use Rattle.delta_check.specs.declared.fault.TypeFault.TheVariants.{Memory};

    ghost from_gives = { λ _ fault. fault ≡ Memory };

    fn from(_: AllocFailed<T>) -> TypeFault {
        TypeFault::Memory
    }
}
