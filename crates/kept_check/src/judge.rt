//! What states are judged by.

use core_term::Core;
use std::alloc::Global;

/// What states are judged by: the program, of each function whether it is inert, and how deep each code has
/// to be; and where memory is taken. Contracts see the functions by `funs_of` (`specs/Judging.antt`).
#[derive(Clone, Copy)]
pub struct Judge<'a> {
    /// Where memory is taken.
    pub alloc: Global,
    /// The program.
    pub program: &'a Core,
    /// Of each function whether it is inert: `IsJudge`.
    pub marks: &'a [bool],
    /// The depth that each code has at least.
    pub depth: u64,
}
