//! What a command is given, and what it must write and answer.

use delta_code::Coded;
use delta_run::delta;
use delta_runner::{Begins, Runner};
use delta_state::Machine;
use delta_step::Tree;
use learned_runner::Learner;
use port::{MemLink, MemShelf, MemSink, Move};
use std::alloc::{AllocError, Global};
use std::test::Fail;

/// What a command is given, and what it must write and answer.
#[derive(Clone, Copy)]
pub struct Row<'a> {
    /// The words, parted by spaces.
    pub words: &'a str,
    /// The text of the file `program`.
    pub text: &'a [u8],
    pub input: &'a [u8],
    pub output: &'a [u8],
    pub note: &'a str,
    pub status: u8,
}

// The words of a line, which spaces part.
fn words(alloc: Global, line: &str) -> Result<Vec<String>, Fail> {
    let mut words = Vec::new(alloc);
    for word in line.split(' ') {
        if !word.is_empty() {
            words.push(String::from_str(alloc, word)?)?;
        }
    }
    Ok(words)
}

// A shelf that holds a text as the file `program`.
fn shelf_of(alloc: Global, text: &[u8]) -> Result<MemShelf, Fail> {
    let name = String::from_str(alloc, "program")?;
    let mut files = Vec::new(alloc);
    files.push((name, text.to_vec(alloc)?))?;
    Ok(MemShelf::new(alloc, files, Vec::new(alloc)))
}

/// An input in pieces of at most so many bytes.
pub fn pieces(alloc: Global, input: &[u8], size: usize) -> Result<Vec<Vec<u8>>, Fail> {
    let mut pieces = Vec::new(alloc);
    for piece in input.chunks(size.max(1)) {
        pieces.push(piece.to_vec(alloc)?)?;
    }
    Ok(pieces)
}

/// A link whose input comes in such pieces, and whose writes take at most so many bytes.
pub fn link(alloc: Global, input: &[u8], size: usize, most: u64) -> Result<MemLink, Fail> {
    let pieces = pieces(alloc, input, size)?;
    Ok(MemLink::new(alloc, pieces, Vec::new(alloc), Vec::new(alloc), most.max(1)))
}

/// Adds the bytes that were written.
pub fn take_written(link: &MemLink, bytes: &mut Vec<u8>) -> Result<(), AllocError> {
    for step in link.log() {
        if let Move::Out(piece) = step {
            bytes.extend_from_slice(piece.as_slice())?;
        }
    }
    Ok(())
}

/// Whether these bytes were written.
pub fn are_written(link: &MemLink, output: &[u8]) -> bool {
    let mut at: usize = 0;
    let mut all = true;
    for step in link.log() {
        if let Move::Out(piece) = step {
            let bytes = piece.as_slice();
            let end = at.saturating_add(bytes.len());
            all = all && output.get(at..end).unwrap_or(b"") == bytes;
            at = end;
        }
    }
    all && at == output.len()
}

// Whether a line over a shelf and a link, with programs begun by a runner and evaluated on a machine, is answered by
// this note and this status, where these writes of notes fail.
fn tells_on<B: Begins, M: Machine>(
    alloc: Global,
    line: &str,
    shelf: &mut MemShelf,
    link: &mut MemLink,
    fail_notes: &[u64],
    (note, status): (&str, u8),
) -> Result<bool, Fail> {
    let fails = fail_notes.to_vec(alloc)?;
    let given = words(alloc, line)?;
    let mut notes = MemSink::new(alloc, fails);
    let found = delta::<B, M, Coded, _, _, _>(alloc, &given, shelf, link, &mut notes);
    let told = found == status && notes.bytes() == note.as_bytes();
    drop(notes);
    drop(given);
    Ok(told)
}

/// Whether a line over the file `program` and a link is answered so.
pub fn runs_on<B: Begins, M: Machine>(
    alloc: Global,
    line: &str,
    text: &[u8],
    link: &mut MemLink,
    fail_notes: &[u64],
    end: (&str, u8),
) -> Result<bool, Fail> {
    let mut shelf = shelf_of(alloc, text)?;
    let told = tells_on::<B, M>(alloc, line, &mut shelf, link, fail_notes, end);
    drop(shelf);
    told
}

/// Whether a row's run, on pieces of such a size and with such writes, writes and answers what it must.
pub fn answers_on<B: Begins, M: Machine>(
    alloc: Global,
    row: &Row,
    (piece, most): (usize, u64),
) -> Result<bool, Fail> {
    let mut link = link(alloc, row.input, piece, most)?;
    let end = (row.note, row.status);
    let told = runs_on::<B, M>(alloc, row.words, row.text, &mut link, &[], end);
    let said = are_written(&link, row.output);
    drop(link);
    Ok(told? && said)
}

/// The same on the compiled machine, whose steps are learned, with whole pieces and writes.
pub fn answers_whole(alloc: Global, row: &Row) -> Result<bool, Fail> {
    answers_on::<Learner, Coded>(alloc, row, (4096, 4096))
}

// The sizes of pieces, each with that of the writes.
const SIZES: &[(usize, u64)] = &[(4096, 4096), (1, 4096), (1, 1), (3, 2)];

/// The same on the compiled machine and on the plain one, with pieces and writes of several sizes.
pub fn answers(alloc: Global, row: &Row) -> Result<bool, Fail> {
    for sizes in SIZES {
        if !answers_on::<Learner, Coded>(alloc, row, *sizes)?
            || !answers_on::<Runner<Tree>, Tree>(alloc, row, *sizes)?
        {
            return Ok(false);
        }
    }
    Ok(true)
}

/// Whether a line over the file `program` is done, on the compiled machine. Adds what it writes.
pub fn is_done(
    alloc: Global,
    line: &str,
    text: &[u8],
    input: &[u8],
    bytes: &mut Vec<u8>,
) -> Result<bool, Fail> {
    let mut link = link(alloc, input, 4096, 4096)?;
    let told = runs_on::<Learner, Coded>(alloc, line, text, &mut link, &[], ("", 0));
    let taken = take_written(&link, bytes);
    drop(link);
    let told = told?;
    taken?;
    Ok(told)
}

/// The frames of lines.
pub fn frames_of(alloc: Global, lines: &str) -> Result<Vec<u8>, Fail> {
    let mut frames = Vec::new(alloc);
    let _done = is_done(alloc, "text --frames", b"", lines.as_bytes(), &mut frames)?;
    Ok(frames)
}
