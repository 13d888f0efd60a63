//! What a command is given, and what it must write and answer.

use delta_code::Coded;
use delta_run::delta;
use learned_runner::Learner;
use port::{MemLink, MemShelf, MemSink, Move};
use std::alloc::Global;
use std::test::Fail;

/// What runs programs, as in the program itself.
type Running = Learner;

/// What a command is given.
#[derive(Clone, Copy)]
pub struct Given<'a> {
    /// The words, parted by spaces.
    pub words: &'a str,
    /// The texts of the files `program` and `proof`, which is a derivation or a state.
    pub text: &'a [u8],
    pub proof: &'a [u8],
    /// The input, and the size of its pieces.
    pub input: &'a [u8],
    pub piece: usize,
    /// How many bytes one write takes at most.
    pub most: u64,
    /// The calls that fail, by their numbers from 0.
    pub fail_calls: &'a [u64],
    pub fail_reads: &'a [u64],
    pub fail_writes: &'a [u64],
    pub fail_notes: &'a [u64],
}

/// What a command must write, its status and its note.
pub type Answer<'a> = (&'a [u8], u8, &'a str);

// The words of a line, which spaces part.
fn words(alloc: Global, line: &str) -> Result<Vec<String>, Fail> {
    let mut words = Vec::new(alloc);
    for word in line.split(' ') {
        if !word.is_empty() {
            words.push(String::from_str(alloc, word)?)?;
        }
    }
    Ok(words)
}

// A shelf that holds the two texts as the files `program` and `proof`.
fn shelf_of(alloc: Global, given: &Given<'_>) -> Result<MemShelf, Fail> {
    let mut files = Vec::new(alloc);
    for (name, text) in [("program", given.text), ("proof", given.proof)] {
        files.push((String::from_str(alloc, name)?, text.to_vec(alloc)?))?;
    }
    Ok(MemShelf::new(alloc, files, given.fail_calls.to_vec(alloc)?))
}

/// A link whose input comes in pieces.
pub fn link_of(alloc: Global, given: &Given<'_>) -> Result<MemLink, Fail> {
    let mut pieces = Vec::new(alloc);
    for piece in given.input.chunks(given.piece.max(1)) {
        pieces.push(piece.to_vec(alloc)?)?;
    }
    let reads = given.fail_reads.to_vec(alloc)?;
    let writes = given.fail_writes.to_vec(alloc)?;
    Ok(MemLink::new(alloc, pieces, reads, writes, given.most.max(1)))
}

/// Whether these bytes were written, and no others.
pub fn are_written(alloc: Global, link: &MemLink, output: &[u8]) -> Result<bool, Fail> {
    let mut bytes: Vec<u8> = Vec::new(alloc);
    for step in link.log() {
        if let Move::Out(piece) = step {
            bytes.extend_from_slice(piece.as_slice())?;
        }
    }
    Ok(bytes.as_slice() == output)
}

// The status and the sink after a command over a shelf and a link.
fn outcome(
    alloc: Global,
    given: &Given<'_>,
    shelf: &mut MemShelf,
    link: &mut MemLink,
) -> Result<(u8, MemSink), Fail> {
    let words = words(alloc, given.words)?;
    let mut notes = MemSink::new(alloc, given.fail_notes.to_vec(alloc)?);
    let status = delta::<Running, Coded, Coded, _, _, _>(alloc, &words, shelf, link, &mut notes);
    Ok((status, notes))
}

/// Whether a command writes and answers what it must.
pub fn holds(alloc: Global, given: &Given<'_>, answer: Answer<'_>) -> Result<bool, Fail> {
    let mut shelf = shelf_of(alloc, given)?;
    let mut link = link_of(alloc, given)?;
    let (status, notes) = outcome(alloc, given, &mut shelf, &mut link)?;
    let told = notes.bytes() == answer.2.as_bytes();
    Ok(are_written(alloc, &link, answer.0)? && told && status == answer.1)
}

/// How many bytes of its note a command tells that breaks off, where it else writes and answers what it must.
pub fn breaks_off(
    alloc: Global,
    given: &Given<'_>,
    answer: Answer<'_>,
) -> Result<Option<usize>, Fail> {
    let mut shelf = shelf_of(alloc, given)?;
    let mut link = link_of(alloc, given)?;
    let (status, notes) = outcome(alloc, given, &mut shelf, &mut link)?;
    let (note, said) = (answer.2.as_bytes(), notes.bytes());
    let told = said.len() < note.len() && note.starts_with(said);
    if told && are_written(alloc, &link, answer.0)? && status == answer.1 {
        Ok(Some(said.len()))
    } else {
        Ok(None)
    }
}

/// These bytes with the one at a place set to FF.
pub fn changed(alloc: Global, bytes: &[u8], place: usize) -> Result<Vec<u8>, Fail> {
    let mut bytes = bytes.to_vec(alloc)?;
    if place < bytes.len() {
        bytes[place] = 0xff;
    }
    Ok(bytes)
}

// A shelf that holds a text as the file `program`, and no other.
fn shelf_of_one(alloc: Global, text: &[u8]) -> Result<MemShelf, Fail> {
    let mut files = Vec::new(alloc);
    files.push((String::from_str(alloc, "program")?, text.to_vec(alloc)?))?;
    Ok(MemShelf::new(alloc, files, Vec::new(alloc)))
}

/// Whether a command line, with this text as the one file `program` and this input, tells this note.
pub fn tells(
    alloc: Global,
    line: &str,
    text: &[u8],
    input: &[u8],
    note: &[u8],
) -> Result<bool, Fail> {
    let given = Given {
        words: line,
        text,
        proof: b"",
        input,
        piece: input.len(),
        most: 4096,
        fail_calls: &[],
        fail_reads: &[],
        fail_writes: &[],
        fail_notes: &[],
    };
    let mut shelf = shelf_of_one(alloc, text)?;
    let mut link = link_of(alloc, &given)?;
    let (_, notes) = outcome(alloc, &given, &mut shelf, &mut link)?;
    Ok(notes.bytes() == note)
}
