//! What a command is given, and what it must write and answer. No command here has a program run by a runner, so that
//! of the plain machine stands for any.

use delta_code::Coded;
use delta_run::delta;
use delta_runner::Runner;
use delta_state::Machine;
use delta_step::Tree;
use port::{MemLink, MemShelf, MemSink, Move};
use std::alloc::{AllocError, Global};
use std::test::Fail;

/// What a command is given, and what it must write and answer.
#[derive(Clone, Copy)]
pub struct Row<'a> {
    /// The words, parted by spaces.
    pub words: &'a str,
    /// The texts of the files `program`, `a` and `b`; the file `c` is empty.
    pub text: &'a str,
    pub first: &'a str,
    pub second: &'a str,
    pub output: &'a str,
    pub note: &'a str,
    pub status: u8,
}

/// The words of a line, which spaces part.
pub fn words(alloc: Global, line: &str) -> Result<Vec<String>, Fail> {
    let mut words = Vec::new(alloc);
    for word in line.split(' ') {
        if !word.is_empty() {
            words.push(String::from_str(alloc, word)?)?;
        }
    }
    Ok(words)
}

/// A shelf that holds these files.
pub fn shelf_of(alloc: Global, files: &[(&str, &[u8])]) -> Result<MemShelf, Fail> {
    let mut held = Vec::new(alloc);
    for (name, bytes) in files {
        held.push((String::from_str(alloc, name)?, bytes.to_vec(alloc)?))?;
    }
    Ok(MemShelf::new(alloc, held, Vec::new(alloc)))
}

/// A link whose input comes in pieces of at most so many bytes, and whose writes take at most so many.
pub fn link(alloc: Global, input: &[u8], size: usize, most: u64) -> Result<MemLink, Fail> {
    let mut pieces = Vec::new(alloc);
    for piece in input.chunks(size.max(1)) {
        pieces.push(piece.to_vec(alloc)?)?;
    }
    Ok(MemLink::new(alloc, pieces, Vec::new(alloc), Vec::new(alloc), most.max(1)))
}

/// Adds the bytes that were written.
pub fn take_written(link: &MemLink, bytes: &mut Vec<u8>) -> Result<(), AllocError> {
    for step in link.log() {
        if let Move::Out(piece) = step {
            bytes.extend_from_slice(piece.as_slice())?;
        }
    }
    Ok(())
}

/// The bytes that were written.
pub fn written(alloc: Global, link: &MemLink) -> Result<Vec<u8>, Fail> {
    let mut bytes = Vec::new(alloc);
    take_written(link, &mut bytes)?;
    Ok(bytes)
}

/// Whether these bytes were written.
pub fn are_written(link: &MemLink, output: &[u8]) -> bool {
    let mut at: usize = 0;
    let mut all = true;
    for step in link.log() {
        if let Move::Out(piece) = step {
            let bytes = piece.as_slice();
            let end = at.saturating_add(bytes.len());
            all = all && output.get(at..end).unwrap_or(b"") == bytes;
            at = end;
        }
    }
    all && at == output.len()
}

// Whether a link wasn't read, and no write of it was empty.
fn is_only_written(link: &MemLink) -> bool {
    let mut all = true;
    for step in link.log() {
        all = all && matches!(step, Move::Out(piece) if !piece.as_slice().is_empty());
    }
    all
}

/// Whether a line over a shelf and a link, with tables fed to a machine, is answered by this note and this status.
pub fn tells_on<M: Machine>(
    alloc: Global,
    line: &str,
    shelf: &mut MemShelf,
    link: &mut MemLink,
    (note, status): (&str, u8),
) -> Result<bool, Fail> {
    let given = words(alloc, line)?;
    let mut notes = MemSink::new(alloc, Vec::new(alloc));
    let found = delta::<Runner<Tree>, M, Coded, _, _, _>(alloc, &given, shelf, link, &mut notes);
    let told = found == status && notes.bytes() == note.as_bytes();
    drop(notes);
    drop(given);
    Ok(told)
}

// Whether the words of a row over its files and a link are answered by its note and its status.
fn is_told_on<M: Machine>(alloc: Global, row: &Row, link: &mut MemLink) -> Result<bool, Fail> {
    let mut shelf = shelf_of(
        alloc,
        &[
            ("program", row.text.as_bytes()),
            ("a", row.first.as_bytes()),
            ("b", row.second.as_bytes()),
            ("c", b""),
        ],
    )?;
    let told = tells_on::<M>(alloc, row.words, &mut shelf, link, (row.note, row.status));
    drop(shelf);
    told
}

/// Whether a row is answered as it must be on one machine, where a write takes at most so many bytes. The link has an
/// input, which isn't read.
pub fn answers_on<M: Machine>(alloc: Global, row: &Row, most: u64) -> Result<bool, Fail> {
    let mut link = link(alloc, b"DEV1", 4096, most)?;
    let told = is_told_on::<M>(alloc, row, &mut link);
    let said = are_written(&link, row.output.as_bytes());
    let unread = is_only_written(&link);
    drop(link);
    Ok(told? && said && unread)
}

/// The same on both machines with whole writes, and on the compiled one byte by byte.
pub fn answers(alloc: Global, row: &Row) -> Result<bool, Fail> {
    Ok(
        answers_on::<Coded>(alloc, row, 4096)?
            && answers_on::<Tree>(alloc, row, 4096)?
            && answers_on::<Coded>(alloc, row, 1)?,
    )
}

/// The number of rows before the first that is answered otherwise, or none.
pub fn first_wrong(alloc: Global, rows: &[Row]) -> Result<Option<usize>, Fail> {
    for k in 0..rows.len() {
        if !answers(alloc, &rows[k])? {
            return Ok(Some(k));
        }
    }
    Ok(None)
}

/// Whether a write that fails behind so many others, of four bytes each, is told, and leaves that front of the output.
pub fn leaves_front(alloc: Global, row: &Row, behind: u64, front: &str) -> Result<bool, Fail> {
    let failing = [behind].to_vec(alloc)?;
    let mut link = MemLink::new(alloc, Vec::new(alloc), Vec::new(alloc), failing, 4);
    let failed = Row {
        note: "delta: outside fault: output\n",
        status: 7,
        ..*row
    };
    let told = is_told_on::<Coded>(alloc, &failed, &mut link);
    let left = are_written(&link, front.as_bytes());
    drop(link);
    Ok(told? && left)
}

/// Runs words over the file `program`, and answers the status and what was written.
pub fn run(alloc: Global, line: &str, text: &[u8], input: &[u8]) -> Result<(u8, Vec<u8>), Fail> {
    let given = words(alloc, line)?;
    let mut shelf = shelf_of(alloc, &[("program", text)])?;
    let mut link = link(alloc, input, 4096, 4096)?;
    let mut notes = MemSink::new(alloc, Vec::new(alloc));
    let status = delta::<Runner<Tree>, Coded, Coded, _, _, _>(
        alloc, &given, &mut shelf, &mut link, &mut notes,
    );
    Ok((status, written(alloc, &link)?))
}

/// The frames of lines.
pub fn frames_of(alloc: Global, lines: &str) -> Result<Vec<u8>, Fail> {
    let (_, frames) = run(alloc, "text --frames", b"", lines.as_bytes())?;
    Ok(frames)
}
