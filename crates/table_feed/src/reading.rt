//! Files read as tables.

ghost use Rattle.std.specs.Prelude.{◌≡◌, ◌⊎◌, ◌<◌, ◌≤◌, ◌+◌, ◌^◌, ◌==◌, ◌++◌, IfOk, IfErr, OnOk, IsTrue, Some, None, [], ◌∷◌, length, drop, option_map};
ghost use Rattle.csv.specs.Records.{fields_of};
ghost use Rattle.stream_type.specs.StreamType.{type_of, star};
ghost use Rattle.stream_prefix.specs.StreamPrefix.{IsPrefix, is_maximal, cat_both, int_full};
ghost use Rattle.stream_prefix.specs.Tree.{prefix_of};
ghost use Rattle.hist_value.specs.Wholes.{full};
ghost use Rattle.table_feed.specs.RowType.{IsRowType, IsItemType, item_columns, columns_of};
ghost use Rattle.table_feed.specs.Tables.{records_of, numbers_of, row_value, table_of, table_value, bad_column, record_fault, records_fault, table_fault};
ghost use Rattle.table_feed.specs.Fields.{HasFirst};
ghost use Rattle.table_feed.specs.declared.fault.FeedFault.TheVariants.{Memory as IsMemory, BadNumber};

use crate::fault::FeedFault;
use crate::number::number;
use csv::{ByteRecord, ReaderBuilder};
use std::alloc::Global;
use stream_prefix::{Prefix, StarEnd};
use stream_type::{Memory, Ty};

/// The most bytes that a file may have.
const MOST: usize = 1_048_576;

/// Where a field stands.
#[derive(Clone, Copy)]
struct Place {
    file: u32,
    row: u32,
    column: u32,
}

/// The table in the bytes of a file, as the whole prefix of its type: `full` of `table_value` of `specs/Tables.antt`.
/// Besides want of memory it answers what is wrong first: that the file is too long, or in the lowest record that
/// isn't good the number of its fields, or the lowest column that is no number. The file's number only names it in
/// a fault.
pub fn table(alloc: Global, t: &Ty, file: u32, bytes: &[u8]) -> Result<Prefix, FeedFault>
    requires { IsRowType (type_of t.now) }
    ensures table { IfOk result (λ p. prefix_of p ≡ full (type_of t.now) (table_value (table_of bytes.now))) }
    ensures prefix { IfOk result (λ p. IsPrefix (type_of t.now) (prefix_of p)) }
    ensures whole { IfOk result (λ p. IsTrue (is_maximal (prefix_of p))) }
    ensures good { OnOk result (table_fault (columns_of (type_of t.now)) file bytes.now ≡ None) }
    ensures fault { IfErr result (λ e. (e ≡ IsMemory) ⊎ (table_fault (columns_of (type_of t.now)) file bytes.now ≡ Some e)) }
{
    if bytes.len() > MOST {
        return Err(FeedFault::Long { file });
    }
    match t {
        Ty::Star(item) => read_rows(alloc, item, file, bytes),
        _ => unreachable!(),
    }
}

// The rows of a file that isn't too long.
fn read_rows(alloc: Global, item: &Ty, file: u32, bytes: &[u8]) -> Result<Prefix, FeedFault>
    requires item { IsItemType (type_of item.now) }
    requires bytes { length bytes.now ≤ 1048576 }
    ensures table { IfOk result (λ p. prefix_of p ≡ full (star (type_of item.now)) (table_value (table_of bytes.now))) }
    ensures good { OnOk result (records_fault (item_columns (type_of item.now)) file 0 (records_of bytes.now) ≡ None) }
    ensures fault { IfErr result (λ e. (e ≡ IsMemory) ⊎ (records_fault (item_columns (type_of item.now)) file 0 (records_of bytes.now) ≡ Some e)) }
{
    let records = ReaderBuilder::new()
        .has_headers(false)
        .flexible(true)
        .from_reader(alloc, bytes)
        .into_byte_records();
    let mut rows = Vec::new(alloc);
    for record in records {
        let Ok(record) = record else {
            return Err(FeedFault::Memory);
        };
        let row = read_row(alloc, item, &record, file, rows.len() as u32)?;
        push(&mut rows, row)?;
    }
    Ok(Prefix::Star(rows, StarEnd::Done))
}

// One row more.
fn push(rows: &mut Vec<Prefix>, row: Prefix) -> Result<(), Memory>
    ensures { OnOk result (rows.new.items ≡ rows.old.items ++ row ∷ []) }
{
    Ok(rows.push(row)?)
}

// A record as a row.
fn read_row(
    alloc: Global,
    item: &Ty,
    fields: &ByteRecord,
    file: u32,
    row: u32,
) -> Result<Prefix, FeedFault>
    requires item { IsItemType (type_of item.now) }
    requires few { length (fields_of fields.now) < 2 ^ 32 }
    ensures row { IfOk result (λ p. prefix_of p ≡ full (type_of item.now) (row_value (numbers_of (fields_of fields.now)))) }
    ensures good { OnOk result (record_fault (item_columns (type_of item.now)) file row (fields_of fields.now) ≡ None) }
    ensures fault { IfErr result (λ e. (e ≡ IsMemory) ⊎ (record_fault (item_columns (type_of item.now)) file row (fields_of fields.now) ≡ Some e)) }
{
    if !has_columns(item, fields.len()) {
        return Err(FeedFault::Ragged { file, row });
    }
    read_item(
        alloc,
        item,
        fields,
        Place {
            file,
            row,
            column: 0,
        },
    )
}

// Whether a row of the type has so many numbers.
fn has_columns(item: &Ty, columns: usize) -> bool
    requires { IsItemType (type_of item.now) }
    ensures { result ≡ (columns == item_columns (type_of item.now)) }
{
    match item {
        Ty::Int => columns == 1,
        Ty::Cat(_, rest) => columns > 0 && has_columns(rest, columns - 1),
        _ => unreachable!(),
    }
}

// What a record has from a column on, as what is left of a row.
fn read_item(
    alloc: Global,
    item: &Ty,
    fields: &ByteRecord,
    place: Place,
) -> Result<Prefix, FeedFault>
    requires item { IsItemType (type_of item.now) }
    requires columns { length (drop place.column (fields_of fields.now)) ≡ item_columns (type_of item.now) }
    requires few { length (fields_of fields.now) < 2 ^ 32 }
    ensures row { IfOk result (λ p. prefix_of p ≡ full (type_of item.now) (row_value (numbers_of (drop place.column (fields_of fields.now))))) }
    ensures good { OnOk result (bad_column place.column (drop place.column (fields_of fields.now)) ≡ None) }
    ensures fault { IfErr result (λ e. (e ≡ IsMemory) ⊎ (option_map (λ column. BadNumber place.file place.row column) (bad_column place.column (drop place.column (fields_of fields.now))) ≡ Some e)) }
{
    let number = read_number(fields, place)?;
    match item {
        Ty::Int => Ok(Prefix::IntFull(number)),
        Ty::Cat(_, rest) => {
            let next = Place {
                column: place.column + 1,
                ..place
            };
            let rest = read_item(alloc, rest, fields, next)?;
            Ok(before(alloc, number, rest)?)
        }
        _ => unreachable!(),
    }
}

// The number in a column.
fn read_number(fields: &ByteRecord, place: Place) -> Result<i64, FeedFault>
    requires { place.column < length (fields_of fields.now) }
    ensures number { IfOk result (λ n. HasFirst (drop place.column (fields_of fields.now)) (Some n) (drop (place.column + 1) (fields_of fields.now))) }
    ensures fault { IfErr result (λ e. (e ≡ BadNumber place.file place.row place.column) × HasFirst (drop place.column (fields_of fields.now)) None (drop (place.column + 1) (fields_of fields.now))) }
{
    match fields.get(place.column as usize) {
        None => unreachable!(),
        Some(field) => match number(field) {
            Some(number) => Ok(number),
            None => Err(FeedFault::BadNumber {
                file: place.file,
                row: place.row,
                column: place.column,
            }),
        },
    }
}

// A number in front of the rest of its row.
fn before(alloc: Global, number: i64, rest: Prefix) -> Result<Prefix, Memory>
    ensures { IfOk result (λ p. prefix_of p ≡ cat_both (int_full number) (prefix_of rest)) }
{
    let first = Box::new(alloc, Prefix::IntFull(number))?;
    Ok(Prefix::CatBoth(first, Box::new(alloc, rest)?))
}
