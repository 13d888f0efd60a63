//! Why the measure of a term stops.

use bunch::Name;

/// A name without a size that a case or a wait counts, and the place of the node. Contracts see both
/// by `told` (`specs/Unsized.antt`).
#[derive(Clone, Copy)]
pub struct Unsized {
    /// The name.
    pub name: Name,
    /// The number of bytes of the program's text before the node.
    pub at: u32,
}

/// Why the measure of a term stops.
#[derive(Clone, Copy)]
pub enum Stop {
    /// Memory was refused.
    Memory,
    /// A case or a wait counts this name.
    Found(Unsized),
}
