//! How it is told that tables are wrong.

ghost use Rattle.std.specs.Prelude.{◌≡◌};
ghost use Rattle.delta_end.specs.declared.end.End.TheVariants.{Objected};
ghost use Rattle.delta_end.specs.declared.objection.Objection.TheVariants.{Table};
ghost use Rattle.commands.specs.Tables.{told_as};

use delta_end::{End, Objection, TableName};
use table_feed::FeedFault;

// The end for tables that are refused for this, by the numbers of the file and of the row.
fn refused(name: TableName, file: u32, row: u32) -> End
    ensures { result ≡ Objected (Table name file row) }
{
    End::Objected(Objection::Table(name, file, row))
}

/// The end for tables with this fault. A column isn't told.
pub fn end_of(fault: FeedFault) -> End
    ensures { result ≡ told_as fault }
{
    match fault {
        FeedFault::Memory => End::Memory,
        FeedFault::Shape => refused(TableName::Shape, 0, 0),
        FeedFault::Long { file } => refused(TableName::Long, file, 0),
        FeedFault::Ragged { file, row } => refused(TableName::Ragged, file, row),
        FeedFault::BadNumber {
            file,
            row,
            column: _,
        } => refused(TableName::BadNumber, file, row),
    }
}
