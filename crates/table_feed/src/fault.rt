//! Why bytes are no table.

use stream_type::Memory;
use thiserror::Error;

/// Why there is no table to feed. A file's number, a row's and a column's are counted from 0; a row is a record,
/// so an empty line is none.
#[derive(Clone, Copy, PartialEq, Eq, Debug, Error)]
pub enum FeedFault {
    /// Memory was refused.
    #[error("Memory")]
    Memory,
    /// The program's types aren't those of so many tables.
    #[error("Shape")]
    Shape,
    /// The file has more than 1,048,576 bytes.
    #[error("Long")]
    Long {
        /// The file's number.
        file: u32,
    },
    /// A record has another number of fields than the table has columns.
    #[error("Ragged")]
    Ragged {
        /// The file's number.
        file: u32,
        /// The record's number.
        row: u32,
    },
    /// A field is no number of 64 bits.
    #[error("BadNumber")]
    BadNumber {
        /// The file's number.
        file: u32,
        /// The record's number.
        row: u32,
        /// The number of the field in its record.
        column: u32,
    },
}

impl From<Memory> for FeedFault {
    ghost use Rattle.std.specs.Prelude.{◌≡◌};
    ghost use Rattle.table_feed.specs.declared.fault.FeedFault.TheVariants.{Memory};

    ghost from_gives = { λ _ fault. fault ≡ Memory };

    fn from(_: Memory) -> FeedFault {
        FeedFault::Memory
    }
}
