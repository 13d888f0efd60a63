//! Elaboration: from the syntax tree of a program to its core.
//!
//! The program is read twice. First the names and the types are looked at, and the first thing that is
//! wrong is told; nothing is built but the types that the program declares. Then the core is made of a
//! program with which nothing is wrong, and no fault is possible but want of memory. A program is
//! accepted where its core is typed too.
#![tactic(auto)]

mod bodies;
mod bound;
mod cores;
mod counting;
mod elaborating;
mod fault;
mod heads;
mod histories;
pub mod laws;
mod limits;
mod name_faults;
mod numbering;
mod parts;
mod program_faults;
mod scope;
mod source;
mod texts;
mod type_faults;
mod typing;

pub use elaborating::elaborate;
pub use fault::{ElabFault, ProgramFault};
pub use typing::typed;
