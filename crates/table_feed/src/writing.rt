//! Whole tables written.

ghost use Rattle.std.specs.Prelude.{◌≡◌, ◌<◌, ◌++◌, ◌∷◌, [], ◌==◌, true, false, IfOk, OnOk, All, map, string_bytes};
ghost use Rattle.std.specs.Str.{IsAscii};
ghost use Rattle.csv.specs.Writing.{default_writer, fields_written, has_written, writer_setup};
ghost use Rattle.stream_prefix.specs.Tree.{prefix_of};
ghost use Rattle.hist_value.specs.Wholes.{value_of};
ghost use Rattle.table_feed.specs.Rows.{IsWholeTable, row_numbers, row_line, rows_text, text_of};
ghost use Rattle.table_feed.specs.Written.{IsNumber, IsWholeRow, with_commas, written};

use csv::{Writer, WriterBuilder};
use std::alloc::Global;
use stream_prefix::Prefix;
use stream_type::Memory;

/// The text of a whole table (`text_of` of `specs/Rows.antt`): a line for each row, with commas between its numbers.
/// Its one error is want of memory.
pub fn rows_text(alloc: Global, p: &Prefix) -> Result<String, Memory>
    requires { IsWholeTable (prefix_of p.now) }
    ensures { IfOk result (λ text. string_bytes text ≡ text_of (prefix_of p.now)) }
{
    match p {
        Prefix::Star(rows, _) => {
            let bytes = write_rows(alloc, rows)?;
            match String::from_utf8(bytes) {
                Ok(text) => Ok(text),
                Err(_) => unreachable!(),
            }
        }
        _ => unreachable!(),
    }
}

// The lines of whole rows.
fn write_rows(alloc: Global, rows: &[Prefix]) -> Result<Vec<u8>, Memory>
    requires { All IsWholeRow (map prefix_of rows.now) }
    ensures text { IfOk result (λ v. v.items ≡ rows_text (map (λ p. row_numbers (value_of p)) (map prefix_of rows.now))) }
    ensures ascii { IfOk result (λ v. IsAscii v.items) }
{
    let mut writer = WriterBuilder::new().from_writer(Vec::new(alloc));
    for row in rows {
        write_row(alloc, &mut writer, row)?;
    }
    match writer.into_inner() {
        Ok(bytes) => Ok(bytes),
        Err(_) => Err(Memory),
    }
}

// The line of a whole row.
fn write_row(alloc: Global, writer: &mut Writer<Vec<u8>>, row: &Prefix) -> Result<(), Memory>
    requires row { IsWholeRow (prefix_of row.now) }
    requires setup { writer_setup writer.old ≡ default_writer }
    requires fields { fields_written writer.old ≡ 0 }
    requires wrote { has_written writer.old ≡ false }
    ensures text { OnOk result (written writer.new ≡ written writer.old ++ row_line (row_numbers (value_of (prefix_of row.now)))) }
    ensures setup { OnOk result (writer_setup writer.new ≡ default_writer) }
    ensures fields { OnOk result (fields_written writer.new ≡ 0) }
    ensures wrote { OnOk result (has_written writer.new ≡ false) }
    ensures ascii { OnOk result (IsAscii (written writer.old) → IsAscii (written writer.new)) }
{
    write_numbers(alloc, writer, row)?;
    end_row(writer)
}

// The end of a line that shows a number.
fn end_row(writer: &mut Writer<Vec<u8>>) -> Result<(), Memory>
    requires setup { writer_setup writer.old ≡ default_writer }
    requires wrote { has_written writer.old ≡ true }
    ensures text { OnOk result (written writer.new ≡ written writer.old ++ 10 ∷ []) }
    ensures setup { OnOk result (writer_setup writer.new ≡ default_writer) }
    ensures fields { OnOk result (fields_written writer.new ≡ 0) }
    ensures wrote { OnOk result (has_written writer.new ≡ false) }
{
    match writer.end_record() {
        Ok(()) => Ok(()),
        Err(_) => Err(Memory),
    }
}

// The numbers of a whole row, or of what is left of it.
fn write_numbers(alloc: Global, writer: &mut Writer<Vec<u8>>, row: &Prefix) -> Result<(), Memory>
    requires row { IsWholeRow (prefix_of row.now) }
    requires setup { writer_setup writer.old ≡ default_writer }
    ensures text { OnOk result (written writer.new ≡ written writer.old ++ with_commas (fields_written writer.old == 0) (row_numbers (value_of (prefix_of row.now)))) }
    ensures setup { OnOk result (writer_setup writer.new ≡ default_writer) }
    ensures fields { OnOk result (0 < fields_written writer.new) }
    ensures wrote { OnOk result (has_written writer.new ≡ true) }
    ensures ascii { OnOk result (IsAscii (written writer.old) → IsAscii (written writer.new)) }
{
    match row {
        Prefix::IntFull(number) => write_number(alloc, writer, *number),
        Prefix::CatBoth(first, rest) => {
            write_first(alloc, writer, first)?;
            write_numbers(alloc, writer, rest)
        }
        _ => unreachable!(),
    }
}

// The number that came on a stream of one.
fn write_first(alloc: Global, writer: &mut Writer<Vec<u8>>, first: &Prefix) -> Result<(), Memory>
    requires first { IsNumber (prefix_of first.now) }
    requires setup { writer_setup writer.old ≡ default_writer }
    ensures text { OnOk result (written writer.new ≡ written writer.old ++ with_commas (fields_written writer.old == 0) (row_numbers (value_of (prefix_of first.now)))) }
    ensures setup { OnOk result (writer_setup writer.new ≡ default_writer) }
    ensures fields { OnOk result (0 < fields_written writer.new) }
    ensures wrote { OnOk result (has_written writer.new ≡ true) }
    ensures ascii { OnOk result (IsAscii (written writer.old) → IsAscii (written writer.new)) }
{
    match first {
        Prefix::IntFull(number) => write_number(alloc, writer, *number),
        _ => unreachable!(),
    }
}

// A number, behind a comma where it isn't the first of its line.
fn write_number(alloc: Global, writer: &mut Writer<Vec<u8>>, number: i64) -> Result<(), Memory>
    requires setup { writer_setup writer.old ≡ default_writer }
    ensures text { OnOk result (written writer.new ≡ written writer.old ++ with_commas (fields_written writer.old == 0) (number ∷ [])) }
    ensures setup { OnOk result (writer_setup writer.new ≡ default_writer) }
    ensures fields { OnOk result (0 < fields_written writer.new) }
    ensures wrote { OnOk result (has_written writer.new ≡ true) }
    ensures ascii { OnOk result (IsAscii (written writer.old) → IsAscii (written writer.new)) }
{
    let digits = format!(in alloc; "{number}")?;
    match writer.write_field(digits.as_bytes()) {
        Ok(()) => Ok(()),
        Err(_) => Err(Memory),
    }
}
