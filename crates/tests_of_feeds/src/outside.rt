//! Rows of the objects in memory, and each adapter over the real thing.

use port::{
    CalmLink, CalmShelf, CalmSink, DirShelf, IoFault, Link, MemLink, MemShelf, MemSink, Shelf,
    Sink, StdLink, StdSink, StreamLink,
};
use std::alloc::Global;
use std::fs;
use std::test::Fail;

// A link of pieces of three, no and one byte, whose second read fails.
fn link_of_pieces(alloc: Global) -> Result<MemLink, Fail> {
    let pieces = vec![in alloc;
        vec![in alloc; 1, 2, 3]?,
        Vec::new(alloc),
        vec![in alloc; 4]?,
    ]?;
    Ok(MemLink::new(alloc, pieces, vec![in alloc; 1]?, Vec::new(alloc), 1))
}

// Whether five reads of two bytes each give what stands in the pieces.
fn gives_pieces(link: &mut MemLink) -> bool {
    let mut into = [0u8; 2];
    let counts = [
        link.read(&mut into),
        link.read(&mut into),
        link.read(&mut into),
        link.read(&mut into),
        link.read(&mut into),
    ];
    counts == [Ok(2), Err(IoFault::Failed), Ok(1), Ok(1), Ok(0)] && into == [4, 2]
}

#[test]
fn link_gives_pieces(rt: HostRuntime) -> Result<(), Fail> {
    let mut link = link_of_pieces(rt.alloc())?;
    let gives = gives_pieces(&mut link);
    assert!(rt; gives);
    Ok(())
}

// Whether of three writes the second fails, and the others take at most two bytes.
fn takes_at_most(link: &mut MemLink) -> bool {
    let counts = [link.write(b"abc"), link.write(b"c"), link.write(b"c")];
    counts == [Ok(2), Err(IoFault::Failed), Ok(1)] && link.log().len() == 2
}

#[test]
fn link_takes_at_most(rt: HostRuntime) -> Result<(), Fail> {
    let alloc = rt.alloc();
    let fail_writes = vec![in alloc; 1]?;
    let mut link = MemLink::new(alloc, Vec::new(alloc), Vec::new(alloc), fail_writes, 2);
    let takes = takes_at_most(&mut link);
    assert!(rt; takes);
    Ok(())
}

// Whether a file has these bytes.
fn holds(shelf: &mut MemShelf, name: &str, bytes: &[u8]) -> bool {
    match shelf.read(name) {
        Ok(found) => found.as_slice() == bytes,
        Err(_) => false,
    }
}

// Whether of a read, a write and a write the first finds no file, and the last fails.
fn numbers_together(shelf: &mut MemShelf) -> bool {
    let missing = shelf.read("b").err() == Some(IoFault::Failed);
    let written = shelf.write("b", &[2, 3]).is_ok();
    let failed = shelf.write("a", &[4]).err() == Some(IoFault::Failed);
    missing && written && failed && holds(shelf, "b", &[2, 3])
}

#[test]
fn shelf_numbers_calls_together(rt: HostRuntime) -> Result<(), Fail> {
    let alloc = rt.alloc();
    let fails = vec![in alloc; 2]?;
    let mut shelf = MemShelf::new(alloc, Vec::new(alloc), fails);
    let together = numbers_together(&mut shelf);
    assert!(rt; together);
    Ok(())
}

// How many bytes a file has, before it is written and after it was written twice.
fn lengths(shelf: &mut CalmShelf) -> Result<[usize; 2], IoFault> {
    let missing = shelf.read("a")?.len();
    shelf.write("a", &[1])?;
    shelf.write("a", &[2, 3])?;
    Ok([missing, shelf.read("a")?.len()])
}

#[test]
fn calm_shelf_answers(rt: HostRuntime) -> Result<(), Fail> {
    let mut shelf = CalmShelf::new(rt.alloc(), Vec::new(rt.alloc()));
    let answers = lengths(&mut shelf) == Ok([0, 2]);
    assert!(rt; answers);
    Ok(())
}

// Whether a read, a write and a note answer as many bytes as they can.
fn answer(link: &mut CalmLink, sink: &mut CalmSink) -> bool {
    let counts = [
        link.read(&mut [0, 0]),
        link.write(&[2, 3]),
        sink.write(b"note"),
    ];
    counts == [Ok(1), Ok(1), Ok(4)]
}

#[test]
fn calm_ends_answer(rt: HostRuntime) -> Result<(), Fail> {
    let alloc = rt.alloc();
    let pieces = vec![in alloc; vec![in alloc; 1]?]?;
    let mut link = CalmLink::new(alloc, pieces, 1);
    let mut sink = CalmSink::new(alloc);
    let answers = answer(&mut link, &mut sink);
    assert!(rt; answers);
    Ok(())
}

// Whether a note is lost and the next kept.
fn loses_the_first(sink: &mut MemSink) -> bool {
    let lost = sink.write(b"lost") == Err(IoFault::Failed);
    lost && sink.write(b"kept") == Ok(4) && sink.bytes() == b"kept".as_slice()
}

#[test]
fn sink_fails_where_listed(rt: HostRuntime) -> Result<(), Fail> {
    let fails = vec![in rt.alloc(); 0]?;
    let mut sink = MemSink::new(rt.alloc(), fails);
    let loses = loses_the_first(&mut sink);
    assert!(rt; loses);
    Ok(())
}

#[test]
fn standard_streams_take(rt: HostRuntime) -> Result<(), Fail> {
    let mut link = StdLink::new(rt.stdin(), rt.stdout());
    let mut sink = StdSink::new(rt.stderr());
    let mut short = StreamLink::new(b"ab".as_slice(), rt.stdout());
    let counts = [link.write(b"."), sink.write(b"."), short.read(&mut [0; 4])];
    let take = counts == [Ok(1), Ok(1), Ok(2)];
    assert!(rt; take);
    Ok(())
}

#[test]
fn files_by_path(rt: HostRuntime) -> Result<(), Fail> {
    let name = "feed_tests_files_by_path.tmp";
    let mut shelf = DirShelf::new(rt.alloc(), rt);
    shelf.write(name, b"first")?;
    shelf.write(name, b"last")?;
    let last = shelf.read(name)?;
    fs::remove_file(&rt, name)?;
    let written = last.as_slice() == b"last".as_slice();
    let gone = shelf.read(name).err() == Some(IoFault::Failed);
    assert!(rt; written && gone);
    Ok(())
}
