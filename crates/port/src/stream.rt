//! The process's own ends: standard input and output, standard error, and files by path. What they
//! give and take is outside what a contract can say, so they tell nothing.

ghost use Rattle.std.specs.Prelude.{◌≡◌, ◌<◌, ◌≤◌, ◌↔◌, ℕ, None, Result, IfOk, IfSome, length, take};
ghost use Rattle.std.specs.IoError.{error_kind};
ghost use Rattle.std.specs.declared.io.ErrorKind.TheVariants.{OutOfMemory};
ghost use Rattle.std.specs.Io.KnownBytes.{Appends, ReadConsumes};
ghost use Rattle.port.specs.Faults.{HasCause};
ghost use Rattle.port.specs.Stream.{input_of, output_of, failed_reads, failed_writes, notes_to, failed_notes};

use crate::{IoFault, Link, Shelf, Sink};
use std::alloc::Global;
use std::io::{ErrorKind, Read, Write};
use std::rt::{Files, Stderr, Stdin, Stdout};
use std::{fs, io};

/// The most bytes of a file that a read gives.
const FILE_LIMIT: u64 = 1_048_577;

/// The link of a process: `StdLink::new(rt.stdin(), rt.stdout())`.
pub type StdLink = StreamLink<Stdin, Stdout>;

/// The sink of a process: `StdSink::new(rt.stderr())`.
pub type StdSink = StreamSink<Stderr>;

/// A link over any reader and writer, each write flushed. It tells nothing.
#[derive(Drop)]
pub struct StreamLink<R, W> {
    input: R,
    output: W,
    read_faults: u64,
    write_faults: u64,
}

impl<R: Read, W: Write> StreamLink<R, W> {
    /// A link over these, without faults. It takes no memory.
    pub fn new(input: R, output: W) -> Self
        ensures read_faults { ⟦<StreamLink<R, W> as Link>⟧.read_faults result ≡ 0 }
        ensures write_faults { ⟦<StreamLink<R, W> as Link>⟧.write_faults result ≡ 0 }
    {
        StreamLink {
            input,
            output,
            read_faults: 0,
            write_faults: 0,
        }
    }
}

impl<R: Read, W: Write> Link for StreamLink<R, W> {
    ghost log = { λ _. None };

    ghost left = { λ _. None };

    ghost read_faults = { failed_reads };

    ghost write_faults = { failed_writes };

    fn read(&mut self, into: &mut [u8]) -> Result<usize, IoFault>
        requires { 0 < length into.old }
        ensures bound { IfOk result (λ n. n ≤ length into.old) }
        // Where the reader's bytes are known, these were taken from their front.
        ensures bytes { ReadConsumes (R.remaining (input_of self.old)) (R.remaining (input_of self.new)) result into.new }
        ensures cause { HasCause result (failed_reads self.old) (failed_reads self.new) }
        ensures other { failed_writes self.new ≡ failed_writes self.old }
        ensures output { output_of self.new ≡ output_of self.old }
    {
        match self.input.read(into) {
            Ok(count) => Ok(count),
            Err(error) => Err(fault_of(&error, &mut self.read_faults)),
        }
    }

    fn write(&mut self, bytes: &[u8]) -> Result<usize, IoFault>
        requires { 0 < length bytes.now }
        ensures bound { IfOk result (λ n. (0 < n) × (n ≤ length bytes.now)) }
        // Where the writer's bytes are known, these were put at their end.
        ensures bytes { IfOk result (λ n. Appends (W.contents (output_of self.old)) (W.contents (output_of self.new)) (take n bytes.now)) }
        ensures cause { HasCause result (failed_writes self.old) (failed_writes self.new) }
        ensures other { failed_reads self.new ≡ failed_reads self.old }
        ensures input { input_of self.new ≡ input_of self.old }
    {
        match write_flushed(&mut self.output, bytes) {
            Ok(count) => Ok(count),
            Err(error) => Err(fault_of(&error, &mut self.write_faults)),
        }
    }
}

/// A sink over any writer, each write flushed. It tells nothing.
#[derive(Drop)]
pub struct StreamSink<W> {
    output: W,
    faults: u64,
}

impl<W: Write> StreamSink<W> {
    /// A sink over this writer, without faults. It takes no memory.
    pub fn new(output: W) -> Self
        ensures { ⟦<StreamSink<W> as Sink>⟧.faults result ≡ 0 }
    {
        StreamSink { output, faults: 0 }
    }
}

impl<W: Write> Sink for StreamSink<W> {
    ghost told = { λ _. None };

    ghost faults = { failed_notes };

    fn write(&mut self, bytes: &[u8]) -> Result<usize, IoFault>
        requires { 0 < length bytes.now }
        ensures bound { IfOk result (λ n. (0 < n) × (n ≤ length bytes.now)) }
        // Where the writer's bytes are known, these were put at their end.
        ensures bytes { IfOk result (λ n. Appends (W.contents (notes_to self.old)) (W.contents (notes_to self.new)) (take n bytes.now)) }
        ensures cause { HasCause result (failed_notes self.old) (failed_notes self.new) }
    {
        match write_flushed(&mut self.output, bytes) {
            Ok(count) => Ok(count),
            Err(error) => Err(fault_of(&error, &mut self.faults)),
        }
    }
}

/// Files by path, a name being the path. It tells nothing.
#[derive(Drop)]
pub struct DirShelf<R> {
    alloc: Global,
    files: R,
    faults: u64,
}

impl<R: Files> DirShelf<R> {
    /// A shelf over the files of the runtime, without faults: `DirShelf::new(rt.alloc(), rt)`. It
    /// takes no memory.
    pub fn new(alloc: Global, files: R) -> Self
        ensures { ⟦<DirShelf<R> as Shelf>⟧.faults result ≡ 0 }
    {
        DirShelf {
            alloc,
            files,
            faults: 0,
        }
    }
}

impl<R: Files> Shelf for DirShelf<R> {
    ghost holds = { λ _. None };

    ghost faults = { λ s. s.faults };

    fn read(&mut self, name: &str) -> Result<Vec<u8>, IoFault> {
        match read_file(self.alloc, &self.files, name) {
            Ok(bytes) => Ok(bytes),
            Err(error) => Err(fault_of(&error, &mut self.faults)),
        }
    }

    fn write(&mut self, name: &str, bytes: &[u8]) -> Result<(), IoFault> {
        match fs::write(&self.files, name, bytes) {
            Ok(()) => Ok(()),
            Err(error) => Err(fault_of(&error, &mut self.faults)),
        }
    }
}

/// Want of memory, or one more fault.
fn fault_of(error: &io::Error, faults: &mut u64) -> IoFault
    ensures cause { HasCause {T = ℕ} (Result.Err result) faults.old faults.new }
    ensures memory { (result ≡ IoFault.Memory) ↔ (error_kind error.now ≡ OutOfMemory) }
{
    if error.kind() == ErrorKind::OutOfMemory {
        return IoFault::Memory;
    }
    *faults = faults.saturating_add(1);
    IoFault::Failed
}

/// Writes some of the bytes at least, and flushes. That the writer takes no byte is an error.
fn write_flushed<W: Write>(output: &mut W, bytes: &[u8]) -> io::Result<usize>
    ensures bound { IfOk result (λ count. (0 < count) × (count ≤ length bytes.now)) }
    ensures bytes { IfOk result (λ count. Appends (W.contents output.old) (W.contents output.new) (take count bytes.now)) }
{
    let count = output.write(bytes)?;
    if count == 0 {
        return Err(io::Error::from(ErrorKind::WriteZero));
    }
    output.flush()?;
    Ok(count)
}

/// The bytes of a file, cut at the limit.
fn read_file<R: Files>(alloc: Global, files: &R, path: &str) -> io::Result<Vec<u8>> {
    read_cut(alloc, fs::open(files, path)?)
}

/// What a reader has left, cut at the limit.
fn read_cut<R: Read + Drop>(alloc: Global, input: R) -> io::Result<Vec<u8>>
    ensures { IfOk result (λ bytes. IfSome (R.remaining input) (λ all. bytes.items ≡ take 1048577 all)) }
{
    let mut bytes = Vec::new(alloc);
    input.take(FILE_LIMIT).read_to_end(&mut bytes)?;
    Ok(bytes)
}
