//! Files read as tables, and written again.

ghost use Rattle.std.specs.Prelude.{IsTrue};
ghost use Rattle.stream_type.specs.StreamType.{type_of};
ghost use Rattle.stream_prefix.specs.StreamPrefix.{IsPrefix, is_maximal};
ghost use Rattle.stream_prefix.specs.Tree.{prefix_of};
ghost use Rattle.table_feed.specs.RowType.{IsRowType};

use std::alloc::Global;
use std::test::Fail;
use stream_prefix::Prefix;
use stream_type::{Memory, Ty, cat, star};
use table_feed::{FeedFault, has_shape, is_row_type, rows_text, table};

// The type of a table of one column and some more.
fn row_type(alloc: Global, more: usize) -> Result<Ty, Memory> {
    let mut item = Ty::Int;
    for _ in 0..more {
        item = cat(alloc, Ty::Int, item)?;
    }
    star(alloc, item)
}

// The text of a whole table.
fn written(alloc: Global, t: &Ty, p: &Prefix) -> Result<String, Memory>
    requires row { IsRowType (type_of t.now) }
    requires prefix { IsPrefix (type_of t.now) (prefix_of p.now) }
    requires whole { IsTrue (is_maximal (prefix_of p.now)) }
{
    let _row = t;
    rows_text(alloc, p)
}

// What is read as a table of a type and written again, or the fault.
fn rewritten(alloc: Global, t: &Ty, file: u32, bytes: &[u8]) -> Result<String, FeedFault> {
    if !is_row_type(t) {
        return Err(FeedFault::Shape);
    }
    let p = table(alloc, t, file, bytes)?;
    Ok(written(alloc, t, &p)?)
}

// Whether a file of some columns is written as this text.
fn is_written(alloc: Global, more: usize, bytes: &[u8], text: &str) -> Result<bool, Fail> {
    let t = row_type(alloc, more)?;
    match rewritten(alloc, &t, 0, bytes) {
        Ok(found) => Ok(found.as_str() == text),
        Err(_) => Ok(false),
    }
}

#[test]
fn files_are_read_and_written(rt: HostRuntime) -> Result<(), Fail> {
    let rows: [(usize, &[u8], &str); 8] = [
        (0, b"", ""),
        (0, b"1\n2\n", "1\n2\n"),
        (0, b"1\r\n2", "1\n2\n"),
        (0, b"\n\n007\n\n", "7\n"),
        (1, b"1,2\n\n\"3\",-4", "1,2\n3,-4\n"),
        (2, b"1,2,3\n", "1,2,3\n"),
        (0, b"\xEF\xBB\xBF5\n", "5\n"),
        (
            0,
            b"-0\n-9223372036854775808\n9223372036854775807\n",
            "0\n-9223372036854775808\n9223372036854775807\n",
        ),
    ];
    for (more, bytes, text) in rows {
        assert!(rt; is_written(rt.alloc(), more, bytes, text)?, "{text}");
    }
    Ok(())
}

// Whether a file of some columns has this fault.
fn is_refused(
    alloc: Global,
    more: usize,
    file: u32,
    bytes: &[u8],
    fault: FeedFault,
) -> Result<bool, Fail> {
    let t = row_type(alloc, more)?;
    match rewritten(alloc, &t, file, bytes) {
        Ok(_) => Ok(false),
        Err(found) => Ok(found == fault),
    }
}

fn ragged(file: u32, row: u32) -> FeedFault {
    FeedFault::Ragged { file, row }
}

fn bad_number(row: u32, column: u32) -> FeedFault {
    FeedFault::BadNumber {
        file: 0,
        row,
        column,
    }
}

#[test]
fn faults_are_told(rt: HostRuntime) -> Result<(), Fail> {
    let rows: [(usize, u32, &[u8], FeedFault); 10] = [
        (0, 0, b"1\nx\n", bad_number(1, 0)),
        (0, 1, b"1,2\n", ragged(1, 0)),
        (1, 2, b"1,2\n3\n", ragged(2, 1)),
        (1, 0, b"1,2\n\n3,\n", bad_number(1, 1)),
        (1, 0, b"x,y\n1\n", bad_number(0, 0)),
        (0, 0, b"+1\n", bad_number(0, 0)),
        (0, 0, b" 1\n", bad_number(0, 0)),
        (0, 0, b"-\n", bad_number(0, 0)),
        (0, 0, b"9223372036854775808\n", bad_number(0, 0)),
        (0, 0, b"\xFF\n", bad_number(0, 0)),
    ];
    for (more, file, bytes, fault) in rows {
        assert!(rt;
            is_refused(rt.alloc(), more, file, bytes, fault)?,
            "{fault:?}"
        );
    }
    Ok(())
}

// Whether a file of so many bytes is too long; it holds nothing but line feeds.
fn is_long(alloc: Global, bytes: usize) -> Result<bool, Fail> {
    let text = vec![in alloc; b'\n'; bytes]?;
    is_refused(alloc, 0, 3, text.as_slice(), FeedFault::Long { file: 3 })
}

#[test]
fn long_files_are_refused(rt: HostRuntime) -> Result<(), Fail> {
    assert!(rt; is_long(rt.alloc(), 1_048_577)?);
    assert!(rt; !is_long(rt.alloc(), 1_048_576)?);
    Ok(())
}

// Whether a program that takes one table and gives one has that shape, and one that takes two hasn't.
fn one_table_alone(alloc: Global) -> Result<bool, Memory> {
    let (input, output) = (row_type(alloc, 1)?, row_type(alloc, 0)?);
    Ok(has_shape(&input, &output, 1) && !has_shape(&input, &output, 2))
}

#[test]
fn shapes_are_told(rt: HostRuntime) -> Result<(), Fail> {
    let told = one_table_alone(rt.alloc())?;
    assert!(rt; told);
    Ok(())
}
