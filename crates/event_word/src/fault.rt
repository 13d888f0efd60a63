//! Why a type doesn't admit an event.

use thiserror::Error;

/// The first fault on an event's way, with the number of steps walked before it.
#[derive(Clone, Copy, PartialEq, Eq, Debug, Error)]
pub enum EventFault {
    /// Nothing more can come at the place after so many steps.
    #[error("nothing more can come after {0} steps")]
    Ended(u32),
    /// The next step leads nowhere from the place after so many steps.
    #[error("the step after {0} steps leads nowhere")]
    WrongStep(u32),
    /// The leaf doesn't stand at the place after so many steps.
    #[error("the leaf doesn't stand after {0} steps")]
    WrongLeaf(u32),
    /// A cut at the place after so many steps, whose first part isn't whole.
    #[error("the first part isn't whole at the cut after {0} steps")]
    EarlyCut(u32),
}
